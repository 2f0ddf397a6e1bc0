//! Values of partition keys.

ghost use Rattle.std.specs.Prelude.{◌≡◌, ◌↔◌, IsTrue};
ghost use Rattle.part_names.specs.Making.{IsValidValue, stored};

use crate::{DEFAULT_VALUE, VALUE_LIMIT};
use cat_values::Text;

/// Whether a partition may have this value: at most `VALUE_LIMIT` bytes, and no U+0000.
pub fn valid_value(value: &Text) -> bool
    ensures { IsTrue result ↔ IsValidValue value.now }
{
    value.len() <= VALUE_LIMIT && value.as_str().as_bytes().iter().all(|byte| *byte != 0)
}

/// The text that is kept for a value.
pub fn stored_text(value: &Text) -> &str
    ensures { result.now ≡ stored value.now }
{
    if value.is_empty() {
        DEFAULT_VALUE
    } else {
        value.as_str()
    }
}
