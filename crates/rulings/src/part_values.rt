//! Whether a table can have a partition with some values.

ghost use Rattle.std.specs.Prelude.{◌≡◌, ◌==◌, Some, not};
ghost use Rattle.std.specs.List.{list_all};
ghost use Rattle.cat_objects.specs.Changes.{is_valid_value};
ghost use Rattle.rulings.specs.Changes.{may_have};

use cat_objects::HeldTable;
use cat_types::{Text, Texts};
use part_names::VALUE_LIMIT;

/// Whether a table can have a partition with these values: it has keys, the values are as many as
/// they, and each is valid.
pub fn may_have(held: &HeldTable, values: &Texts) -> bool
    ensures { result ≡ may_have (Some held.now) values.now }
{
    let keys = held.rec.keys.len();
    keys >= 1 && (values.len() == keys && are_valid(values))
}

// Whether partitions may have these values.
fn are_valid(values: &Texts) -> bool
    ensures { result ≡ list_all is_valid_value values.now }
{
    for value in values.as_slice() {
        if !is_valid(value) {
            return false;
        }
    }
    true
}

// Whether a partition may have this value: it isn't too long, and has no U+0000.
fn is_valid(value: &Text) -> bool
    ensures { result ≡ is_valid_value value.now }
{
    value.len() <= VALUE_LIMIT && has_no_zero(value.as_str().as_bytes())
}

// Whether no byte is 0.
fn has_no_zero(bytes: &[u8]) -> bool
    ensures { result ≡ list_all (λ byte. not (byte == 0)) bytes.now }
{
    for byte in bytes {
        if *byte == 0 {
            return false;
        }
    }
    true
}
