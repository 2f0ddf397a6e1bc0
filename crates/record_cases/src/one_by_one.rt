//! Lists that are read one element at a time.

ghost use Rattle.std.specs.Prelude.{◌≤◌, length};

use crate::outcome::{said_fault, words_of};
use cat_types::{Bytes, Event, Item, NoMemory};
use change_codec::{CodecFault, next_event, next_item, put_event, put_item, read_count};
use std::alloc::Global;
use table_cases::{Answers, Unable, bytes_of};

/// Reads the elements of a list one at a time, and writes each of them again. An input is the kind of
/// the elements and the list's bytes; the outcome tells their count, the offset of the first, behind
/// each the next one's, and where no further element is read.
pub struct OneByOne;

impl Answers for OneByOne {
    fn answer(&self, alloc: Global, input: &str) -> Result<String, Unable> {
        let (kind, digits) = words_of(input);
        let bytes = bytes_of(alloc, digits)?;
        match kind {
            "items" => places::<Item>(alloc, &bytes),
            "events" => places::<Event>(alloc, &bytes),
            _ => Err(Unable::Form),
        }
    }
}

// An element of a list.
trait Element: Drop {
    // The element that begins at an offset, and the offset behind it.
    fn next(alloc: Global, bytes: &[u8], at: u64) -> Result<(Self, u64), CodecFault>
        requires { at ≤ length bytes.now };

    // Adds the bytes of the element.
    fn write(&self, out: &mut Bytes) -> Result<(), NoMemory>;
}

impl Element for Item {
    fn next(alloc: Global, bytes: &[u8], at: u64) -> Result<(Item, u64), CodecFault> {
        next_item(alloc, bytes, at)
    }

    fn write(&self, out: &mut Bytes) -> Result<(), NoMemory> {
        put_item(self, out)
    }
}

impl Element for Event {
    fn next(alloc: Global, bytes: &[u8], at: u64) -> Result<(Event, u64), CodecFault> {
        next_event(alloc, bytes, at)
    }

    fn write(&self, out: &mut Bytes) -> Result<(), NoMemory> {
        put_event(self, out)
    }
}

// Where the elements of a list stand.
fn places<E: Element>(alloc: Global, bytes: &[u8]) -> Result<String, Unable> {
    match read_count(bytes) {
        Ok((count, first)) => places_from::<E>(alloc, bytes, count, first),
        Err(fault) => said_fault(alloc, fault),
    }
}

// Where so many elements stand, and then one more, whose fault ends the words.
fn places_from<E: Element>(
    alloc: Global,
    bytes: &[u8],
    count: u32,
    first: u64,
) -> Result<String, Unable> {
    let mut words = format!(in alloc; "{count}: {first}")?;
    let mut at = first;
    for _ in 0..=count {
        match behind::<E>(alloc, bytes, at) {
            Ok(end) => at = end,
            Err(fault) => {
                words.push_str(", ")?;
                words.push_str(said_fault(alloc, fault)?.as_str())?;
                break;
            }
        }
        write!(words, " {at}")?;
    }
    Ok(words)
}

// The offset behind the element that begins at an offset. An element that is written otherwise than
// it was read is a bad record at its own offset.
fn behind<E: Element>(alloc: Global, bytes: &[u8], at: u64) -> Result<u64, CodecFault> {
    if at > bytes.len() as u64 {
        return Err(CodecFault::BadRecord(at));
    }
    let (element, end) = E::next(alloc, bytes, at)?;
    let out = written(alloc, &element)?;
    let spelled = bytes.get(at as usize..end as usize).unwrap_or(&[]);
    if out.as_slice() == spelled {
        Ok(end)
    } else {
        Err(CodecFault::BadRecord(at))
    }
}

// The bytes of an element.
fn written<E: Element>(alloc: Global, element: &E) -> Result<Bytes, CodecFault> {
    let mut out = Bytes::new(alloc);
    match element.write(&mut out) {
        Ok(()) => Ok(out),
        Err(NoMemory) => Err(CodecFault::NoMemory),
    }
}
