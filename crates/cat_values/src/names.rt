//! What objects and columns may be called.

ghost use Rattle.std.specs.Prelude.{◌≡◌, ◌↔◌, IsTrue};
ghost use Rattle.cat_values.specs.Names.{HasNameLength, IsNameByte, IsObjectName, is_object_name};

use crate::Text;

/// The one byte that a name may have beside letters and digits.
const UNDERSCORE: u8 = b'_';

/// How many bytes a name has at most.
pub const NAME_LIMIT: usize = 128;

/// Whether a database, a table or a partition key may be called so: by 1 to 128 bytes, each an
/// ASCII letter, a digit or `_`.
pub fn object_name(name: &Text) -> bool
    ensures rule { IsTrue result ↔ IsObjectName name.now }
    ensures test { result ≡ is_object_name name.now }
{
    has_name_length(name)
        && name
            .as_str()
            .as_bytes()
            .iter()
            .all(|byte| is_name_byte(*byte))
}

/// Whether a text has as many bytes as a name has, 1 to 128. A column may have any such name.
pub fn has_name_length(name: &Text) -> bool
    ensures { IsTrue result ↔ HasNameLength name.now }
{
    !name.is_empty() && name.len() <= NAME_LIMIT
}

// Whether a byte is an ASCII letter, a digit or `_`.
fn is_name_byte(byte: u8) -> bool
    ensures { IsTrue result ↔ IsNameByte byte }
{
    byte.is_ascii_alphanumeric() || byte == UNDERSCORE
}
