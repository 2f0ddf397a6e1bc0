//! Bytes in hexadecimal digits.

use crate::unable::Unable;
use std::alloc::{AllocError, Global};

/// The bytes that words of hexadecimal digits spell, with spaces between the words. A word
/// `DIGITS*COUNT` stands for its bytes so many times.
pub fn bytes_of(alloc: Global, digits: &str) -> Result<Vec<u8>, Unable> {
    let mut bytes = Vec::new(alloc);
    for word in digits.split(' ') {
        add_word(alloc, word, &mut bytes)?;
    }
    Ok(bytes)
}

// Adds the bytes of a word, so many times as it says.
fn add_word(alloc: Global, word: &str, bytes: &mut Vec<u8>) -> Result<(), Unable> {
    let (digits, times) = match word.split_once('*') {
        Some((digits, times)) => (digits, times.parse::<u32>().or(Err(Unable::Form))?),
        None => (word, 1),
    };
    let piece = hex::decode(alloc, digits).or(Err(Unable::Form))?;
    for _ in 0..times {
        bytes.extend_from_slice(&piece)?;
    }
    Ok(())
}

/// The hexadecimal digits of bytes.
pub fn digits_of(alloc: Global, bytes: &[u8]) -> Result<String, AllocError> {
    hex::encode(alloc, bytes)
}
