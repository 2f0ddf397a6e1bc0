//! How a column is found by its name, and which kind of values its type names.

ghost use Rattle.std.specs.Prelude.{◌≡◌, map};
ghost use Rattle.std.specs.Char.{to_ascii_lowercase};
ghost use Rattle.std.specs.Option.{option_copied};
ghost use Rattle.cat_values.specs.Columns.{column_named, has_prefix, is_integer_type, is_text_type, kind_named, type_kind, without_leading_spaces, without_trailing_spaces};

use crate::{Column, Text};

/// How many partition keys a table has at most.
pub const KEYS_LIMIT: usize = 16;

/// What may stand at the ends of a type's text, and isn't part of the type.
const SPACE: u8 = b' ';

/// Which values the type of a column names.
#[derive(Clone, Copy, Debug, PartialEq, Eq)]
pub enum TypeKind {
    /// `boolean`.
    Boolean,
    /// `tinyint`, `smallint`, `int` or `bigint`.
    Integer,
    /// `string`, or what begins with `varchar(` or `char(`.
    Text,
    /// `date`.
    Date,
    /// Any other text.
    Other,
}

/// The first column with a name.
pub fn find_column<'a>(columns: &'a [Column], name: &Text) -> Option<&'a Column>
    ensures { option_copied result ≡ column_named columns.now name.now }
{
    columns.iter().find(|column| column.name == *name)
}

/// The kind of a type. Its text is read without the spaces at its ends and without regard to the
/// case of ASCII letters.
#[tactic(auto, unfolding(crate::specs::Columns::type_kind))]
pub fn type_kind(ty: &Text) -> TypeKind
    ensures { result ≡ type_kind ty.now }
{
    kind_named(without_trailing_spaces(without_leading_spaces(ty.as_str().as_bytes())))
}

fn kind_named(name: &[u8]) -> TypeKind
    ensures { result ≡ kind_named (map to_ascii_lowercase name.now) }
{
    if name.eq_ignore_ascii_case(b"boolean") {
        TypeKind::Boolean
    } else if is_integer_type(name) {
        TypeKind::Integer
    } else if is_text_type(name) {
        TypeKind::Text
    } else if name.eq_ignore_ascii_case(b"date") {
        TypeKind::Date
    } else {
        TypeKind::Other
    }
}

fn is_integer_type(name: &[u8]) -> bool
    ensures { result ≡ is_integer_type (map to_ascii_lowercase name.now) }
{
    name.eq_ignore_ascii_case(b"tinyint")
        || name.eq_ignore_ascii_case(b"smallint")
        || name.eq_ignore_ascii_case(b"int")
        || name.eq_ignore_ascii_case(b"bigint")
}

fn is_text_type(name: &[u8]) -> bool
    ensures { result ≡ is_text_type (map to_ascii_lowercase name.now) }
{
    name.eq_ignore_ascii_case(b"string")
        || has_prefix(name, b"varchar(")
        || has_prefix(name, b"char(")
}

// Whether a text begins with a prefix, whatever the case of their letters.
fn has_prefix(text: &[u8], prefix: &[u8]) -> bool
    ensures { result ≡ has_prefix (map to_ascii_lowercase prefix.now) (map to_ascii_lowercase text.now) }
{
    prefix.len() <= text.len() && text[..prefix.len()].eq_ignore_ascii_case(prefix)
}

// What is left of a text without the spaces at its start.
fn without_leading_spaces(text: &[u8]) -> &[u8]
    ensures { result.now ≡ without_leading_spaces text.now }
{
    let mut left = text;
    while let [SPACE, rest @ ..] = left {
        left = rest;
    }
    left
}

// What is left of a text without the spaces at its end.
fn without_trailing_spaces(text: &[u8]) -> &[u8]
    ensures { result.now ≡ without_trailing_spaces text.now }
{
    let mut left = text;
    while let [rest @ .., SPACE] = left {
        left = rest;
    }
    left
}
