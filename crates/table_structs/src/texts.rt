//! The text of no bytes.

ghost use Rattle.std.specs.Prelude.{◌≡◌, []};

use cat_types::Text;
use std::alloc::Global;

/// The text of no bytes, which takes no memory.
pub(crate) fn no_text(alloc: Global) -> Text
    ensures { result ≡ [] }
{
    match Text::from_utf8(Vec::new(alloc)) {
        Some(text) => text,
        None => unreachable!(),
    }
}
