//! Commands one after the other, over one store and one folder.

use crate::disks::{NEW_STORE, disk_of};
use crate::running::{Stage, source_of, words_of};
use crate::showing::{line, shown};
use crate::stores::numbers_of;
use hms_outside::{MemDisk, MemSink};
use ms_cli::LocalEnd;
use std::alloc::Global;
use table_cases::{Answers, Unable};

/// An input is `FAILS | STEP | STEP ..`: the numbers of the folder's calls that fail, from 0, or `-` for
/// none, and what is done one after the other, beginning with a new store and an empty folder:
///
/// - `file NAME`: the bytes of this file in the folder, or `absent`;
/// - `pipe BYTES`: a session of these bytes, whose outcome is `STATUS, REPLIES, LINE`;
/// - any other words: that command, whose outcome is `STATUS, WROTE, LINE`, with the line that it wrote.
///
/// ` | ` stands between the outcomes.
pub struct Commands;

impl Answers for Commands {
    fn answer(&self, alloc: Global, input: &str) -> Result<String, Unable> {
        let (fails, steps) = input.split_once(" | ").ok_or(Unable::Form)?;
        let mut stage = Stage::failing(alloc, numbers_of(alloc, fails)?)?;
        let mut disk = disk_of(alloc, &NEW_STORE, &[])?;
        let mut told = String::new(alloc);
        for step in steps.split(" | ") {
            if !told.is_empty() {
                told.push_str(" | ")?;
            }
            disk = take(alloc, &mut stage, disk, step, &mut told)?;
        }
        Ok(told)
    }
}

// Does one step, adds its outcome, and gives the disk back.
fn take(
    alloc: Global,
    stage: &mut Stage,
    disk: MemDisk,
    step: &str,
    told: &mut String,
) -> Result<MemDisk, Unable> {
    let (word, rest) = step.split_once(' ').unwrap_or((step, ""));
    match word {
        "file" => {
            told.push_str(file(alloc, stage, rest)?.as_str())?;
            Ok(disk)
        }
        "pipe" => {
            stage.begin(alloc, words_of(alloc, word)?, source_of(alloc, rest)?);
            let (status, output, disk) = run(alloc, stage, disk);
            let replies = shown(alloc, output.bytes())?;
            add(alloc, told, status, replies.as_str(), stage.errors())?;
            Ok(disk)
        }
        _ => {
            stage.begin(alloc, words_of(alloc, step)?, source_of(alloc, "-")?);
            let (status, output, disk) = run(alloc, stage, disk);
            add(alloc, told, status, line(output.bytes())?, stage.errors())?;
            Ok(disk)
        }
    }
}

// Runs the top call, and gives its status, what it wrote, and the disk.
fn run(alloc: Global, stage: &mut Stage, disk: MemDisk) -> (u8, MemSink, MemDisk) {
    let mut output = MemSink::new(alloc, Vec::new(alloc));
    let LocalEnd {
        status,
        disk_a,
        disk_b: _,
    } = stage.run(alloc, &mut output, disk);
    (status, output, disk_a)
}

// Adds the outcome of a run.
fn add(
    alloc: Global,
    told: &mut String,
    status: u8,
    wrote: &str,
    errors: &[u8],
) -> Result<(), Unable> {
    let line = line(errors)?;
    told.push_str(format!(in alloc; "{status}, {wrote}, {line}")?.as_str())?;
    Ok(())
}

// The bytes of a file in the folder.
fn file(alloc: Global, stage: &mut Stage, name: &str) -> Result<String, Unable> {
    match stage.file(name)? {
        Some(bytes) => Ok(shown(alloc, bytes.as_slice())?),
        None => Ok(String::from_str(alloc, "absent")?),
    }
}
