//! Numbers, digests and names that lines are made of.

ghost use Rattle.std.specs.Prelude.{◌↔◌, IsTrue};
ghost use Rattle.dump_manifest.specs.Manifests.{IsLowerByte, IsLowerName};
ghost use Rattle.dump_manifest.specs.Reading.{IsReadAs, hex_of, number, number_line};

use cat_values::NAME_LIMIT;
use hex::FromHex;
use std::str;

/// The number of which these bytes are the decimal digits, without leading zeros.
pub fn number_of(digits: &[u8]) -> Option<u64>
    ensures { IsReadAs number digits.now result }
{
    let text = match str::from_utf8(digits) {
        Ok(text) => text,
        Err(_) => return None,
    };
    let n = match text.parse::<u64>() {
        Ok(n) => n,
        Err(_) => return None,
    };
    let mut buffer = itoa::Buffer::new();
    if buffer.format(n).as_bytes() == digits {
        Some(n)
    } else {
        None
    }
}

/// The sixteen bytes of which these are the lower-case hexadecimal digits.
pub fn source_of(digits: &[u8]) -> Option<[u8; 16]>
    ensures { IsReadAs (hex_of 16) digits.now result }
{
    let source = match <[u8; 16] as FromHex>::from_hex(digits) {
        Ok(source) => source,
        Err(_) => return None,
    };
    let mut spelled = [0u8; 32];
    if hex::encode_to_slice(&source, &mut spelled).is_err() {
        return None;
    }
    if spelled.as_slice() == digits {
        Some(source)
    } else {
        None
    }
}

/// The 32 bytes of which these are the lower-case hexadecimal digits.
pub fn digest_of(digits: &[u8]) -> Option<[u8; 32]>
    ensures { IsReadAs (hex_of 32) digits.now result }
{
    let digest = match <[u8; 32] as FromHex>::from_hex(digits) {
        Ok(digest) => digest,
        Err(_) => return None,
    };
    let mut spelled = [0u8; 64];
    if hex::encode_to_slice(&digest, &mut spelled).is_err() {
        return None;
    }
    if spelled.as_slice() == digits {
        Some(digest)
    } else {
        None
    }
}

/// The number of a line that begins with this word.
pub fn read_number(line: &[u8], word: &[u8]) -> Option<u64>
    ensures { IsReadAs (number_line word.now) line.now result }
{
    match line.strip_prefix(word) {
        Some(digits) => number_of(digits),
        None => None,
    }
}

/// Whether these bytes are the name of an object in lower case.
pub fn is_lower_name(name: &[u8]) -> bool
    ensures { IsTrue result ↔ IsLowerName name.now }
{
    !name.is_empty() && name.len() <= NAME_LIMIT && name.iter().all(|byte| is_lower_byte(*byte))
}

fn is_lower_byte(byte: u8) -> bool
    ensures { IsTrue result ↔ IsLowerByte byte }
{
    byte.is_ascii_lowercase() || byte.is_ascii_digit() || byte == b'_'
}
