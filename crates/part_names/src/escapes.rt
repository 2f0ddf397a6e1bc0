//! Characters written as `%` and two hexadecimal digits.

ghost use Rattle.std.specs.Prelude.{◌≡◌, ◌+◌, ◌*◌, ◌<◌, ◌≤◌, ◌++◌, ◌∷◌, false, true, slice_index, length, encode_utf8};
ghost use Rattle.std.specs.Prelude.{IfOk, IfSome, IsNone, IsUtf8, OnOk, OnSome, string_bytes, string_len};
ghost use Rattle.std.specs.Char.{digit_value};
ghost use Rattle.cat_values.specs.declared.text.TheConstants.{TEXT_LIMIT};
ghost use Rattle.part_names.specs.Making.{escape, escaped, is_escaped, upper_digit};
ghost use Rattle.part_names.specs.Reading.{is_escape, unescaped};

use cat_values::{NoMemory, Text};
use std::alloc::Global;

/// Adds a value to a name, with escapes.
pub fn push_escaped(name: &mut String, value: &str) -> Result<(), NoMemory>
    ensures { OnOk result (string_bytes name.new ≡ string_bytes name.old ++ escaped value.now) }
{
    for character in value.chars() {
        push_character(name, character)?;
    }
    Ok(())
}

// Adds a character of a value to a name, or the escape that stands for it.
fn push_character(name: &mut String, character: char) -> Result<(), NoMemory>
    ensures { OnOk result (string_bytes name.new
        ≡ string_bytes name.old ++ escaped (encode_utf8 character)) }
{
    if is_escaped(character) {
        return push_escape(name, character as u32);
    }
    name.push(character)?;
    Ok(())
}

// Adds the escape of a character's number to a name.
fn push_escape(name: &mut String, code: u32) -> Result<(), NoMemory>
    requires { code < 256 }
    ensures { OnOk result (string_bytes name.new ≡ string_bytes name.old ++ escape code) }
{
    name.push('%')?;
    name.push(upper_digit(code / 16))?;
    name.push(upper_digit(code % 16))?;
    Ok(())
}

// Whether a character is written as an escape in values.
fn is_escaped(character: char) -> bool
    ensures { result ≡ is_escaped character }
{
    matches!(
        character,
        '"' | '#'
            | '%'
            | '\''
            | '*'
            | '/'
            | ':'
            | '='
            | '?'
            | '\\'
            | '{'
            | '['
            | ']'
            | '^'
            | '\u{1}'..='\u{1f}' | '\u{7f}'
    )
}

// The upper-case hexadecimal digit of a value.
fn upper_digit(value: u32) -> char
    requires { value < 16 }
    ensures { result ≡ upper_digit value }
{
    char::from_digit(value, 16).unwrap().to_ascii_uppercase()
}

/// The text with its escapes undone.
pub fn undo_escapes(alloc: Global, text: &str) -> Result<String, NoMemory>
    ensures plain { IfOk result (λ plain. string_bytes plain ≡ unescaped text.now) }
    ensures shorter { IfOk result (λ plain. string_len plain ≤ length text.now) }
{
    let mut plain = String::with_capacity(alloc, text.len())?;
    let mut rest = text;
    while let Some((before, after)) = rest.split_once('%') {
        plain.push_str(before)?;
        rest = push_unescaped(&mut plain, after)?;
    }
    plain.push_str(rest)?;
    Ok(plain)
}

// Adds what a `%` and the text after it begin with, and answers what is left of that text.
fn push_unescaped<'a>(plain: &mut String, after: &'a str) -> Result<&'a str, NoMemory>
    ensures read { IfOk result (λ rest. string_bytes plain.new ++ unescaped rest.now
        ≡ string_bytes plain.old ++ unescaped (37 ∷ after.now)) }
    ensures shorter { IfOk result (λ rest. length rest.now ≤ length after.now) }
    ensures utf8 { IfOk result (λ rest. IsUtf8 rest.now) }
{
    match escaped_code(after) {
        Some(code) => {
            plain.push(char::from(code))?;
            Ok(&after[2..])
        }
        None => {
            plain.push('%')?;
            Ok(after)
        }
    }
}

// The number that the two hexadecimal digits at the front of a text spell.
fn escaped_code(text: &str) -> Option<u8>
    ensures within { OnSome result (2 ≤ length text.now) }
    ensures digits { OnSome result
        (is_escape 37 (slice_index text.now 0) (slice_index text.now 1) ≡ true) }
    ensures code { IfSome result (λ code. code
        ≡ 16 * digit_value (slice_index text.now 0) + digit_value (slice_index text.now 1)) }
    ensures none { IsNone result → 2 ≤ length text.now
        → is_escape 37 (slice_index text.now 0) (slice_index text.now 1) ≡ false }
{
    let [high, low, ..] = text.as_bytes() else {
        return None;
    };
    let high = char::from(*high).to_digit(16)?;
    let low = char::from(*low).to_digit(16)?;
    Some((high * 16 + low) as u8)
}

/// The text of these characters, without taking memory.
pub fn text_of(plain: String) -> Text
    requires { string_len plain ≤ TEXT_LIMIT }
    ensures { result ≡ string_bytes plain }
{
    match Text::from_utf8(plain.into_bytes()) {
        Some(text) => text,
        None => unreachable!(),
    }
}
