//! Records there and back.

use crate::again::{Record, again};
use crate::creation::{judged, written};
use crate::outcome::{kept_or_digits, said_fault, words_of};
use cat_types::{Event, Events, Items};
use change_codec::Entry;
use std::alloc::Global;
use table_cases::{Answers, Unable, bytes_of};

/// Reads the record that an input spells, and writes a copy of it. An input is the record's kind and
/// its bytes.
pub struct Records;

impl Answers for Records {
    fn answer(&self, alloc: Global, input: &str) -> Result<String, Unable> {
        let (kind, digits) = words_of(input);
        let bytes = bytes_of(alloc, digits)?;
        match kind {
            "event" => copied::<Event>(alloc, &bytes),
            "events" => copied::<Events>(alloc, &bytes),
            "items" => copied::<Items>(alloc, &bytes),
            "entry" => copied::<Entry>(alloc, &bytes),
            "creation" => written(alloc),
            "judge" => judged(alloc, &bytes),
            _ => Err(Unable::Form),
        }
    }
}

// What comes of reading, copying and writing.
fn copied<R: Record>(alloc: Global, bytes: &[u8]) -> Result<String, Unable> {
    match again::<R>(alloc, bytes) {
        Ok(out) => kept_or_digits(alloc, bytes, out.as_slice()),
        Err(fault) => said_fault(alloc, fault),
    }
}
