//! Runs of calls of a journal. An input is the numbers of the disk's calls that fail, in hexadecimal
//! digits and from 0, a bar, and steps with commas between them. Each run begins with `create`, whose
//! calls of the disk are 0 to 2; an append has four, for its block, a sync, its gate and a sync.

use crate::telling::{told_fault, told_payloads};
use cat_values::{Bytes, NoMemory};
use hms_outside::{CrashPick, Disk, MemDisk};
use ms_journal::{Journal, StoreFault};
use std::alloc::Global;
use table_cases::{Answers, Unable, bytes_of, digits_of};

/// What each step of a run returns.
pub struct Runs;

impl Answers for Runs {
    fn answer(&self, alloc: Global, input: &str) -> Result<String, Unable> {
        let (fails, steps) = input.split_once('|').ok_or(Unable::Form)?;
        let fails = numbers_of(alloc, fails.trim())?;
        match Journal::create(alloc, MemDisk::new(alloc, fails), ID, 0) {
            Ok(journal) => told_steps(alloc, Some(journal), steps),
            Err((fault, _)) => told_fault(alloc, fault),
        }
    }
}

// The id of each journal.
const ID: [u8; 16] = [
    0x00, 0x11, 0x22, 0x33, 0x44, 0x55, 0x66, 0x77, 0x88, 0x99, 0xaa, 0xbb, 0xcc, 0xdd, 0xee, 0xff,
];

fn numbers_of(alloc: Global, digits: &str) -> Result<Vec<u64>, Unable> {
    let mut numbers = Vec::new(alloc);
    for byte in bytes_of(alloc, digits)?.iter() {
        numbers.push(u64::from(*byte))?;
    }
    Ok(numbers)
}

// The journal that is open, if one is.
type Open = Option<Journal<MemDisk>>;

fn told_steps(alloc: Global, mut open: Open, steps: &str) -> Result<String, Unable> {
    let mut words = String::new(alloc);
    let result = tell_steps(alloc, &mut open, steps, &mut words);
    result.map(|()| words)
}

// Takes the steps, and adds what they return.
fn tell_steps(
    alloc: Global,
    open: &mut Open,
    steps: &str,
    words: &mut String,
) -> Result<(), Unable> {
    for step in steps.split(',') {
        if !words.is_empty() {
            words.push_str(", ")?;
        }
        words.push_str(told_step(alloc, open, step.trim())?.as_str())?;
    }
    Ok(())
}

fn told_step(alloc: Global, open: &mut Open, step: &str) -> Result<String, Unable> {
    if let Some(digits) = step.strip_prefix("append ") {
        return appended(alloc, open, digits);
    }
    if step == "withdraw" {
        return withdrawn(alloc, open);
    }
    let leaving = leaving_of(step).ok_or(Unable::Form)?;
    match open.take() {
        Some(journal) => told_leaving(alloc, journal.into_disk(), leaving, open),
        None => Err(Unable::Form),
    }
}

fn appended(alloc: Global, open: &mut Open, digits: &str) -> Result<String, Unable> {
    let payload = Bytes::from_slice(alloc, &bytes_of(alloc, digits)?)?;
    match open {
        Some(journal) if !journal.is_doubtful() => told_result(alloc, journal.append(&payload)),
        Some(_) | None => Err(Unable::Form),
    }
}

fn withdrawn(alloc: Global, open: &mut Open) -> Result<String, Unable> {
    match open {
        Some(journal) if journal.is_doubtful() => told_result(alloc, journal.withdraw()),
        Some(_) | None => Err(Unable::Form),
    }
}

fn told_result(alloc: Global, res: Result<(), StoreFault>) -> Result<String, Unable> {
    Ok(format!(in alloc; "{res:?}")?)
}

// What becomes of a disk whose journal is left.
#[derive(Clone, Copy)]
enum Leaving {
    // It is opened.
    Open,
    // What a crash leaves of it is opened.
    Crash(CrashPick),
    // Its bytes are told.
    Bytes,
    // A journal is to be made on it.
    Create,
}

fn leaving_of(step: &str) -> Option<Leaving> {
    match step {
        "open" => Some(Leaving::Open),
        "old" => Some(Leaving::Crash(CrashPick::Old)),
        "new" => Some(Leaving::Crash(CrashPick::New)),
        "ones" => Some(Leaving::Crash(CrashPick::Filled(1))),
        "nines" => Some(Leaving::Crash(CrashPick::Filled(9))),
        "bytes" => Some(Leaving::Bytes),
        "create" => Some(Leaving::Create),
        _ => None,
    }
}

fn told_leaving(
    alloc: Global,
    mut disk: MemDisk,
    leaving: Leaving,
    open: &mut Open,
) -> Result<String, Unable> {
    match leaving {
        Leaving::Open => reopened(alloc, disk, open),
        Leaving::Crash(pick) => match disk.crash(pick) {
            Ok(left) => reopened(alloc, left, open),
            Err(NoMemory) => Err(Unable::NoMemory),
        },
        Leaving::Bytes => told_bytes(alloc, &mut disk),
        Leaving::Create => created(alloc, disk),
    }
}

fn reopened(alloc: Global, disk: MemDisk, open: &mut Open) -> Result<String, Unable> {
    match Journal::open_log(alloc, disk) {
        Ok((journal, payloads)) => {
            *open = Some(journal);
            told_payloads(alloc, &payloads)
        }
        Err((fault, _)) => told_fault(alloc, fault),
    }
}

fn told_bytes(alloc: Global, disk: &mut MemDisk) -> Result<String, Unable> {
    let mut buf = [0; 128];
    let filled = disk.read_at(0, &mut buf).or(Err(Unable::Outside))?;
    Ok(digits_of(alloc, &buf[..filled])?)
}

fn created(alloc: Global, disk: MemDisk) -> Result<String, Unable> {
    match Journal::create(alloc, disk, ID, 0) {
        Ok(_) => Err(Unable::Form),
        Err((fault, _)) => told_fault(alloc, fault),
    }
}
