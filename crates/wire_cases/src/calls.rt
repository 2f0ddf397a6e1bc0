//! Calls of the reader. An input is the names of calls, with commas between them, and the bytes that they
//! read.

use crate::cutting::{Cut, CutSource, WHOLE, cuts};
use cat_values::Text;
use std::alloc::Global;
use std::fmt::Debug;
use table_cases::{Answers, Unable, bytes_of};
use thrift_binary::{Direction, Head, WireFault, WireReader, type_code};

/// What calls answer, however the bytes are cut. Behind values that were read one byte more stands,
/// which is read next; a fault is told again.
pub struct Calls;

impl Answers for Calls {
    fn answer(&self, alloc: Global, input: &str) -> Result<String, Unable> {
        let (call, digits) = input.split_once(' ').unwrap_or((input, ""));
        let mut bytes = bytes_of(alloc, digits)?;
        if first_told(alloc, &bytes, call)?.as_str().starts_with("Ok") {
            bytes.push(NEXT)?;
        }
        told_in_all_cuts(alloc, &bytes, call)
    }
}

// The byte behind a value.
const NEXT: u8 = 42;

// What calls answer to bytes that come whole.
fn first_told(alloc: Global, bytes: &[u8], call: &str) -> Result<String, Unable> {
    let mut source = CutSource::new(bytes, WHOLE);
    told_calls(alloc, &mut WireReader::new(&mut source), call)
}

// What a call answers, and where that depends on the cut, what it answers so.
fn told_in_all_cuts(alloc: Global, bytes: &[u8], call: &str) -> Result<String, Unable> {
    let whole = told_cut(alloc, bytes, WHOLE, call)?;
    for cut in cuts(alloc, bytes.len())?.iter() {
        let other = told_cut(alloc, bytes, *cut, call)?;
        if other.as_str() != whole.as_str() {
            return Ok(format!(in alloc; "{whole}, and {other} in {cut:?}")?);
        }
    }
    Ok(whole)
}

// What a call answers to bytes that are cut so, and where the next byte isn't read as it should be, or
// the fault not told again, what the next call answers.
fn told_cut(alloc: Global, bytes: &[u8], cut: Cut, call: &str) -> Result<String, Unable> {
    let mut source = CutSource::new(bytes, cut);
    let mut reader = WireReader::new(&mut source);
    let first = told_calls(alloc, &mut reader, call)?;
    let next = told_plain(alloc, &reader.byte())?;
    let wanted = if first.as_str().starts_with("Ok") {
        "Ok(42)"
    } else {
        first.as_str()
    };
    if next.as_str() == wanted {
        return Ok(first);
    }
    Ok(format!(in alloc; "{first}, and then {next}")?)
}

type Reader<'a, 'b> = WireReader<'a, CutSource<'b>>;

// What calls answer, one behind the other.
fn told_calls(alloc: Global, reader: &mut Reader<'_, '_>, calls: &str) -> Result<String, Unable> {
    let mut words = String::new(alloc);
    for call in calls.split(',') {
        if !words.is_empty() {
            words.push_str(" ")?;
        }
        words.push_str(told(alloc, reader, call)?.as_str())?;
    }
    Ok(words)
}

// What a call answers.
fn told(alloc: Global, reader: &mut Reader<'_, '_>, call: &str) -> Result<String, Unable> {
    if let Some(ty) = call.strip_prefix("skip") {
        let ty = ty.parse::<u8>().or(Err(Unable::Form))?;
        return told_plain(alloc, &skipped(reader, ty));
    }
    match call {
        "text" => told_text(alloc, &reader.text(alloc)),
        "head" => told_head(alloc, &reader.head(alloc)),
        "message" => told_head(alloc, &reader.message(alloc)),
        "reply" => told_head(alloc, &reader.head_of(alloc, Direction::Replies)),
        "reply_message" => told_head(alloc, &reader.message_of(alloc, Direction::Replies)),
        "field" => told_plain(alloc, &reader.field()),
        "list" => told_plain(alloc, &reader.list()),
        "map" => told_plain(alloc, &reader.map()),
        "open" => told_plain(alloc, &reader.open()),
        "closed" => told_plain(alloc, &closed(reader)),
        _ => told_number(alloc, reader, call),
    }
}

// What a call answers that reads a value of a fixed width, or nothing.
fn told_number(alloc: Global, reader: &mut Reader<'_, '_>, call: &str) -> Result<String, Unable> {
    match call {
        "flag" => told_plain(alloc, &reader.flag()),
        "byte" => told_plain(alloc, &reader.byte()),
        "short" => told_plain(alloc, &reader.short()),
        "int" => told_plain(alloc, &reader.int()),
        "long" => told_plain(alloc, &reader.long()),
        "eight" => told_plain(alloc, &reader.eight()),
        "refused" => told_plain(alloc, &refused(reader)),
        _ => Err(Unable::Form),
    }
}

// Passes a value of a type that has a code.
fn skipped(reader: &mut Reader<'_, '_>, ty: u8) -> Result<(), WireFault> {
    match ty {
        2 | 3 | 4 | 6 | 8 | 10 | 11 | 12 | 13 | 14 | 15 => reader.skip(ty),
        _ => Ok(()),
    }
}

// Opens a struct without fields, reads its end and closes it; then passes another struct.
fn closed(reader: &mut Reader<'_, '_>) -> Result<(), WireFault> {
    reader.open()?;
    if reader.field()?.is_none() {
        reader.close();
    }
    reader.skip(type_code::STRUCT)
}

// The caller has no memory to keep what was read.
fn refused(reader: &mut Reader<'_, '_>) -> Result<(), WireFault> {
    Err(reader.refused())
}

fn told_plain<T: Debug>(alloc: Global, answer: &Result<T, WireFault>) -> Result<String, Unable> {
    Ok(format!(in alloc; "{answer:?}")?)
}

// A text, a long one by its size.
fn told_text(alloc: Global, answer: &Result<Option<Text>, WireFault>) -> Result<String, Unable> {
    Ok(match answer {
        Ok(Some(text)) if text.len() > 60 => {
            let size = text.len();
            format!(in alloc; "Ok({size} bytes)")?
        }
        Ok(Some(text)) => {
            let text = text.as_str();
            format!(in alloc; "Ok({text})")?
        }
        Ok(None) => format!(in alloc; "Ok(no text)")?,
        Err(fault) => format!(in alloc; "Err({fault:?})")?,
    })
}

fn told_head(alloc: Global, answer: &Result<Option<Head>, WireFault>) -> Result<String, Unable> {
    Ok(match answer {
        Ok(Some(head)) => {
            let (name, kind, sequence) = (head.name.as_str(), head.kind, head.sequence);
            format!(in alloc; "Ok({name} {kind} {sequence})")?
        }
        Ok(None) => format!(in alloc; "Ok(None)")?,
        Err(fault) => format!(in alloc; "Err({fault:?})")?,
    })
}
