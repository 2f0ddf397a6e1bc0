//! What befalls a session outside, and what it leaves there.

ghost use Rattle.std.specs.Prelude.{None};

use crate::disks::NEW_STORE;
use crate::running::{Stage, input_of, source_of, status_over, words_of};
use crate::showing::{line, numbers, shown};
use hms_outside::{MemSink, MemSource, Outage, Sink};
use std::alloc::Global;
use table_cases::{Answers, Unable};

/// An input is a word that says what befalls, and what that needs:
///
/// - `whole BYTES`: nothing befalls the session of these bytes;
/// - `read COUNT BYTES`: the input fails behind so many bytes;
/// - `write CALL BYTES`: the output's call with this number, from 0, fails;
/// - `full BYTES`: the output never has memory;
/// - `words WORD ..`: these words, over an input of one byte, which is 0, and a disk with no bytes;
/// - `long COUNT`: the words `init` and one of so many zeros, over the same;
/// - `made CALL`: a store is made, and the output's call with this number fails.
///
/// Where a session begins, the disk holds a new store.
/// The outcome is `STATUS REPLIES FLUSHES REST MOMENT LINE`: at how many bytes the output was flushed,
/// what a read then gives of the input, and the clock's next moment.
pub struct Faults;

impl Answers for Faults {
    fn answer(&self, alloc: Global, input: &str) -> Result<String, Unable> {
        let (word, rest) = input.split_once(' ').unwrap_or((input, ""));
        match word {
            "whole" => served(alloc, source_of(alloc, rest)?, &[]),
            "read" => read(alloc, rest),
            "write" => write(alloc, rest),
            "full" => without_memory(alloc, source_of(alloc, rest)?),
            "words" => started(alloc, words_of(alloc, rest)?, &[]),
            "long" => long(alloc, rest),
            "made" => made(alloc, rest),
            _ => Err(Unable::Form),
        }
    }
}

// A number, and the bytes behind it.
fn numbered(text: &str) -> Result<(u64, &str), Unable> {
    let (number, digits) = text.split_once(' ').ok_or(Unable::Form)?;
    Ok((number.parse::<u64>().or(Err(Unable::Form))?, digits))
}

fn read(alloc: Global, text: &str) -> Result<String, Unable> {
    let (count, digits) = numbered(text)?;
    let source = MemSource::stopping(alloc, input_of(alloc, digits)?, count);
    served(alloc, source, &[])
}

fn write(alloc: Global, text: &str) -> Result<String, Unable> {
    let (call, digits) = numbered(text)?;
    served(alloc, source_of(alloc, digits)?, &[call])
}

// A session over a new store, with an output whose calls with these numbers fail.
fn served(alloc: Global, source: MemSource, fails: &[u64]) -> Result<String, Unable> {
    let mut stage = Stage::new(alloc, words_of(alloc, "pipe")?, source)?;
    over(alloc, &mut stage, fails, &NEW_STORE)
}

// These words over a disk with no bytes.
fn started(alloc: Global, words: Vec<String>, fails: &[u64]) -> Result<String, Unable> {
    let mut stage = Stage::new(alloc, words, source_of(alloc, "00")?)?;
    over(alloc, &mut stage, fails, &[])
}

// A word of so many zeros in place of an id.
fn long(alloc: Global, count: &str) -> Result<String, Unable> {
    let count = count.parse::<usize>().or(Err(Unable::Form))?;
    let mut words = words_of(alloc, "init")?;
    words.push("0".repeat(alloc, count)?)?;
    started(alloc, words, &[])
}

// A store is made, and the output's call with this number fails.
fn made(alloc: Global, call: &str) -> Result<String, Unable> {
    let call = call.parse::<u64>().or(Err(Unable::Form))?;
    let words = words_of(alloc, "init 00112233445566778899aabbccddeeff")?;
    started(alloc, words, &[call])
}

// Runs over a disk of these bytes, with an output whose calls with these numbers fail.
fn over(alloc: Global, stage: &mut Stage, fails: &[u64], bytes: &[u8]) -> Result<String, Unable> {
    let mut output = MemSink::new(alloc, fails.to_vec(alloc)?);
    let status = status_over(alloc, stage, &mut output, bytes)?;
    told(alloc, stage, status, output.bytes(), output.flushes())
}

// What a run leaves that wrote these bytes and flushed at these places.
fn told(
    alloc: Global,
    stage: &mut Stage,
    status: u8,
    bytes: &[u8],
    flushes: &[usize],
) -> Result<String, Unable> {
    let replies = shown(alloc, bytes)?;
    let flushes = numbers(alloc, flushes)?;
    let rest = shown(alloc, &stage.left(alloc)?)?;
    let moment = stage.moment();
    let line = line(stage.errors())?;
    Ok(format!(in alloc; "{status} {replies} {flushes} {rest} {moment} {line}")?)
}

// A sink that has no memory.
#[derive(Drop)]
struct Full;

impl Sink for Full {
    ghost held = { λ _. None };

    ghost faults = { λ _. 0 };

    fn write(&mut self, _bytes: &[u8]) -> Result<usize, Outage> {
        Err(Outage::NoMemory)
    }

    fn flush(&mut self) -> Result<(), Outage> {
        Err(Outage::NoMemory)
    }
}

fn without_memory(alloc: Global, source: MemSource) -> Result<String, Unable> {
    let mut stage = Stage::new(alloc, words_of(alloc, "pipe")?, source)?;
    let status = status_over(alloc, &mut stage, &mut Full, &NEW_STORE)?;
    told(alloc, &mut stage, status, &[], &[])
}
