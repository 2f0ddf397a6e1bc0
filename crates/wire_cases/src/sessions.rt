//! Whole sessions: what the plain decoder and the reader tell of them.

use crate::cutting::{Cut, CutSource, cuts};
use crate::telling::{told_end, told_head, told_message};
use std::alloc::Global;
use table_cases::{Answers, Unable, bytes_of};
use thrift_binary::{WireFault, WireReader};
use thrift_plain::{PlainEnd, plain};

/// What the plain decoder tells of a session. The reader must tell the same heads of messages and the
/// same end, however the bytes are cut.
pub struct Sessions;

impl Answers for Sessions {
    fn answer(&self, alloc: Global, input: &str) -> Result<String, Unable> {
        told(alloc, &bytes_of(alloc, input)?)
    }
}

/// What the plain decoder tells of a session, or a cut in which the reader tells otherwise.
pub fn told(alloc: Global, bytes: &[u8]) -> Result<String, Unable> {
    match other_cut(alloc, bytes)? {
        Some(cut) => Ok(format!(in alloc; "the reader tells otherwise in {cut:?}")?),
        None => decoded(alloc, bytes, true),
    }
}

// A cut in which the reader tells otherwise than the plain decoder.
fn other_cut(alloc: Global, bytes: &[u8]) -> Result<Option<Cut>, Unable> {
    let wanted = decoded(alloc, bytes, false)?;
    for cut in cuts(alloc, bytes.len())?.iter() {
        if read(alloc, bytes, *cut)?.as_str() != wanted.as_str() {
            return Ok(Some(*cut));
        }
    }
    Ok(None)
}

// What the plain decoder tells: whole messages, or their heads, and the end.
fn decoded(alloc: Global, bytes: &[u8], whole: bool) -> Result<String, Unable> {
    let (messages, end) = plain(alloc, bytes)?;
    let mut words = String::new(alloc);
    for message in messages.as_slice() {
        let told = if whole {
            told_message(alloc, message)?
        } else {
            told_head(alloc, &message.head)?
        };
        words.push_str(told.as_str())?;
    }
    words.push_str(told_end(alloc, fault_of(end))?.as_str())?;
    Ok(words)
}

// The fault that an input ends with.
fn fault_of(end: PlainEnd) -> Option<WireFault> {
    match end {
        PlainEnd::Boundary => None,
        PlainEnd::Truncated(at) => Some(WireFault::Truncated(at)),
        PlainEnd::BadWire(code, at) => Some(WireFault::BadWire(code, at)),
        PlainEnd::TooLarge(at) => Some(WireFault::TooLarge(at)),
    }
}

// What the reader tells of bytes that are cut so: the heads of messages, and the end.
fn read(alloc: Global, bytes: &[u8], cut: Cut) -> Result<String, Unable> {
    let mut source = CutSource::new(bytes, cut);
    let mut reader = WireReader::new(&mut source);
    let mut words = String::new(alloc);
    for _ in 0..=bytes.len() {
        let end = match reader.message(alloc) {
            Ok(Some(head)) => {
                words.push_str(told_head(alloc, &head)?.as_str())?;
                continue;
            }
            Ok(None) => None,
            Err(fault) => Some(fault),
        };
        words.push_str(told_end(alloc, end)?.as_str())?;
        break;
    }
    Ok(words)
}
