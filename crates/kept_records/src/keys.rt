//! Keys that stay the same.

ghost use Rattle.std.specs.Prelude.{◌≡◌, ◌&&◌};
ghost use Rattle.std.specs.Str.{bytes_eq};
ghost use Rattle.kept_records.specs.Tables.{have_same_keys};

use cat_values::{Column, Columns};

/// Whether keys have the same names and types, in the same order.
pub fn have_same_keys(old: &Columns, new: &Columns) -> bool
    ensures { result ≡ have_same_keys old.now new.now }
{
    let mut left = new.as_slice();
    for old_key in old.as_slice() {
        let [new_key, news @ ..] = left else {
            return false;
        };
        if !is_same_key(old_key, new_key) {
            return false;
        }
        left = news;
    }
    left.is_empty()
}

fn is_same_key(old: &Column, new: &Column) -> bool
    ensures { result ≡ (bytes_eq old.now.name new.now.name && bytes_eq old.now.ty new.now.ty) }
{
    old.name == new.name && old.ty == new.ty
}
