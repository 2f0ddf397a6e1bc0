//! A journal on a file of the folder that the program runs in.

use crate::stop::Stop;
use cat_values::Bytes;
use hms_outside::{Disk, FileDisk};
use ms_journal::Journal;
use std::alloc::Global;
use std::fs::{File, remove_file};
use std::rt::Files;

// The file's name.
const STORE: &str = "bench_store";

// How many bytes are read at once.
const PIECE: usize = 65_536;

/// Makes the journal anew, and adds so many payloads of 200 bytes, one by one. Their number.
pub fn append(files: &impl Files<File = File>, alloc: Global, count: u32) -> Result<u64, Stop> {
    let _ = remove_file(files, STORE);
    match Journal::create(alloc, FileDisk::open(files, STORE), [7; 16], 0) {
        Ok(mut journal) => add(alloc, &mut journal, count),
        Err(_) => Err(Stop::Sample),
    }
}

fn add(alloc: Global, journal: &mut Journal<FileDisk>, count: u32) -> Result<u64, Stop> {
    let payload = Bytes::from_slice(alloc, &[b'x'; 200])?;
    for _ in 0..count {
        if journal.is_doubtful() {
            return Err(Stop::WriteFault);
        }
        journal.append(&payload).or(Err(Stop::WriteFault))?;
    }
    Ok(u64::from(count))
}

/// Opens the journal. The number of its payloads.
pub fn open(files: &impl Files<File = File>, alloc: Global) -> Result<u64, Stop> {
    match Journal::open_log(alloc, FileDisk::open(files, STORE)) {
        Ok((_, payloads)) => Ok(payloads.len() as u64),
        Err(_) => Err(Stop::Sample),
    }
}

/// Reads the file and does nothing with it. The number of its bytes.
pub fn read(files: &impl Files<File = File>, alloc: Global) -> Result<u64, Stop> {
    let mut disk = FileDisk::open(files, STORE);
    let mut piece = vec![in alloc; 0; PIECE]?;
    let mut at: u64 = 0;
    for _ in 0..u64::MAX {
        match read_piece(&mut disk, at, piece.as_mut_slice())? {
            0 => break,
            filled => at = at.saturating_add(filled as u64),
        }
    }
    Ok(at)
}

fn read_piece(disk: &mut FileDisk, at: u64, piece: &mut [u8]) -> Result<usize, Stop> {
    if piece.is_empty() {
        return Err(Stop::Sample);
    }
    disk.read_at(at, piece).or(Err(Stop::Sample))
}

/// Takes the file away.
pub fn remove(files: &impl Files<File = File>) {
    let _ = remove_file(files, STORE);
}
