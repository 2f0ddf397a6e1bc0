//! Outcomes in the words of the tables.

use change_codec::CodecFault;
use std::alloc::Global;
use table_cases::{Unable, digits_of};

/// An input's first word, and what stands behind it.
pub fn words_of(input: &str) -> (&str, &str) {
    input.split_once(' ').unwrap_or((input, ""))
}

/// A text of these words.
pub fn said(alloc: Global, words: &str) -> Result<String, Unable> {
    Ok(String::from_str(alloc, words)?)
}

/// `kept` where the bytes of a copy are those that were read, else the copy's bytes.
pub fn kept_or_digits(alloc: Global, bytes: &[u8], copied: &[u8]) -> Result<String, Unable> {
    if copied == bytes {
        return said(alloc, "kept");
    }
    Ok(digits_of(alloc, copied)?)
}

/// Why bytes are no record.
pub fn said_fault(alloc: Global, fault: CodecFault) -> Result<String, Unable> {
    match fault {
        CodecFault::BadRecord(at) => Ok(format!(in alloc; "bad record at {at}")?),
        CodecFault::NoMemory => Err(Unable::NoMemory),
    }
}
