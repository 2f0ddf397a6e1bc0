//! Stores on disks: what a run leaves there, and what a crash makes of it.

use crate::disks::{after, disk_of, held};
use crate::running::{Stage, input_of, stage_of};
use crate::showing::{line, shown};
use hms_outside::{MemDisk, MemSink};
use ms_cli::LocalEnd;
use std::alloc::Global;
use table_cases::{Answers, Unable};

/// An input is `DISK | FAILS | WORDS | BYTES`, with `-` for none: the bytes on disk A, the numbers of its
/// calls that fail, from 0, the words, and the bytes of a session. Where it goes on by
/// ` | FATE | WORDS | BYTES`, a second run follows, over what became of the disk (`after`).
///
/// The outcome of a run is `STATUS REPLIES LINE DISK`, and ` | ` stands between the outcomes of two.
pub struct Stores;

impl Answers for Stores {
    fn answer(&self, alloc: Global, input: &str) -> Result<String, Unable> {
        let mut parts = Vec::new(alloc);
        for part in input.split(" | ") {
            parts.push(part)?;
        }
        match parts.as_slice() {
            [bytes, fails, words, session] => {
                once(alloc, Laid { bytes, fails }, Asked { words, session })
            }
            [bytes, fails, words, session, fate, more, behind] => {
                let second = Asked {
                    words: more,
                    session: behind,
                };
                let first = Asked { words, session };
                twice(alloc, Laid { bytes, fails }, first, fate, second)
            }
            _ => Err(Unable::Form),
        }
    }
}

// How a disk is laid: its bytes, and the numbers of its calls that fail.
#[derive(Clone, Copy)]
struct Laid<'a> {
    bytes: &'a str,
    fails: &'a str,
}

// What is asked of a run: its words, and the bytes of a session.
#[derive(Clone, Copy)]
struct Asked<'a> {
    words: &'a str,
    session: &'a str,
}

// What a run left.
#[derive(Drop)]
struct Ran {
    stage: Stage,
    output: MemSink,
    end: LocalEnd<MemDisk>,
}

fn once(alloc: Global, laid: Laid<'_>, asked: Asked<'_>) -> Result<String, Unable> {
    let ran = first_run(alloc, laid, asked)?;
    told(alloc, &ran)
}

// Two runs; between them the disk goes this way.
fn twice(
    alloc: Global,
    laid: Laid<'_>,
    first: Asked<'_>,
    fate: &str,
    second: Asked<'_>,
) -> Result<String, Unable> {
    let ran = first_run(alloc, laid, first)?;
    both_told(alloc, &ran, fate, second)
}

// Tells a run, and what comes of its disk in a second one.
fn both_told(alloc: Global, ran: &Ran, fate: &str, second: Asked<'_>) -> Result<String, Unable> {
    let first = told(alloc, ran)?;
    let second = second_told(alloc, &ran.end.disk_a, fate, second)?;
    Ok(format!(in alloc; "{first} | {second}")?)
}

fn second_told(
    alloc: Global,
    disk: &MemDisk,
    fate: &str,
    asked: Asked<'_>,
) -> Result<String, Unable> {
    let ran = second_run(alloc, disk, fate, asked)?;
    told(alloc, &ran)
}

// A run over a disk that is laid so.
fn first_run(alloc: Global, laid: Laid<'_>, asked: Asked<'_>) -> Result<Ran, Unable> {
    let stage = stage_of(alloc, asked.words, asked.session)?;
    Ok(run(alloc, stage, disk_laid(alloc, laid)?))
}

// A run over what became of a disk.
fn second_run(alloc: Global, disk: &MemDisk, fate: &str, asked: Asked<'_>) -> Result<Ran, Unable> {
    let stage = stage_of(alloc, asked.words, asked.session)?;
    Ok(run(alloc, stage, after(disk, fate)?))
}

fn run(alloc: Global, mut stage: Stage, disk: MemDisk) -> Ran {
    let mut output = MemSink::new(alloc, Vec::new(alloc));
    let end = stage.run(alloc, &mut output, disk);
    Ran { stage, output, end }
}

// What a run left, in the words of the table.
fn told(alloc: Global, ran: &Ran) -> Result<String, Unable> {
    let replies = shown(alloc, ran.output.bytes())?;
    let line = line(ran.stage.errors())?;
    let bytes = shown(alloc, &held(alloc, &ran.end.disk_a)?)?;
    Ok(format!(in alloc; "{} {replies} {line} {bytes}", ran.end.status)?)
}

fn disk_laid(alloc: Global, laid: Laid<'_>) -> Result<MemDisk, Unable> {
    let bytes = input_of(alloc, laid.bytes)?;
    disk_of(alloc, bytes.as_slice(), &numbers_of(alloc, laid.fails)?)
}

/// The numbers that a text has with blanks between them; `-` is none.
pub fn numbers_of(alloc: Global, text: &str) -> Result<Vec<u64>, Unable> {
    let mut numbers = Vec::new(alloc);
    if text != "-" {
        for number in text.split(' ') {
            numbers.push(number.parse::<u64>().or(Err(Unable::Form))?)?;
        }
    }
    Ok(numbers)
}
