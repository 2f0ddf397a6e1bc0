//! What a run left, as a table's outcome tells it.

use std::alloc::{AllocError, Global};
use std::str::from_utf8;
use table_cases::{Unable, digits_of};

/// The hexadecimal digits of bytes, or `-` for none.
pub fn shown(alloc: Global, bytes: &[u8]) -> Result<String, AllocError> {
    if bytes.is_empty() {
        return String::from_str(alloc, "-");
    }
    digits_of(alloc, bytes)
}

/// A line without its end, which must be there, or `-` for none.
pub fn line(bytes: &[u8]) -> Result<&str, Unable> {
    if bytes.is_empty() {
        return Ok("-");
    }
    let text = from_utf8(bytes).or(Err(Unable::Form))?;
    text.strip_suffix("\n").ok_or(Unable::Form)
}

/// Numbers with commas between them, or `-` for none.
pub fn numbers(alloc: Global, numbers: &[usize]) -> Result<String, AllocError> {
    let mut text = String::new(alloc);
    for number in numbers {
        if !text.is_empty() {
            text.push_str(",")?;
        }
        text.push_str(format!(in alloc; "{number}")?.as_str())?;
    }
    if text.is_empty() {
        text.push_str("-")?;
    }
    Ok(text)
}
