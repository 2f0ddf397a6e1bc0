//! Disks that a run begins with, and what it left there.

use hms_outside::{CrashPick, Disk, MemDisk};
use std::alloc::Global;
use table_cases::Unable;

/// How many calls it takes to lay bytes on a disk.
const LAYING: u64 = 2;

/// The bytes of a new store, whose id is `00112233445566778899aabbccddeeff`.
pub const NEW_STORE: [u8; 41] = [
    0x48, 0x4d, 0x53, 0x4a, 0, 0, 0, 1, 0x00, 0x11, 0x22, 0x33, 0x44, 0x55, 0x66, 0x77, 0x88, 0x99,
    0xaa, 0xbb, 0xcc, 0xdd, 0xee, 0xff, 0, 0, 0, 0, 0, 0, 0, 1, 0, 0, 0, 0, 0, 0, 0, 0, 0,
];

/// A disk that holds these bytes, and whose later calls with these numbers, from 0, fail.
pub fn disk_of(alloc: Global, bytes: &[u8], fails: &[u64]) -> Result<MemDisk, Unable> {
    let mut disk = MemDisk::new(alloc, behind_laying(alloc, fails)?);
    lay(&mut disk, bytes)?;
    Ok(disk)
}

// The numbers of calls behind those that lay bytes.
fn behind_laying(alloc: Global, fails: &[u64]) -> Result<Vec<u64>, Unable> {
    let mut numbers = Vec::new(alloc);
    for fail in fails {
        numbers.push(fail.saturating_add(LAYING))?;
    }
    Ok(numbers)
}

// Lays bytes on a disk that has none.
fn lay(disk: &mut MemDisk, bytes: &[u8]) -> Result<(), Unable> {
    disk.write_at(0, bytes).or(Err(Unable::Outside))?;
    disk.sync().or(Err(Unable::Outside))
}

/// What a read gives of a disk that has fewer than 4096 bytes.
pub fn held(alloc: Global, disk: &MemDisk) -> Result<Vec<u8>, Unable> {
    let mut image = disk.crash(CrashPick::New)?;
    let mut bytes = [0; 4096];
    let count = image.read_at(0, &mut bytes).or(Err(Unable::Outside))?;
    if count >= bytes.len() {
        return Err(Unable::Form);
    }
    Ok(bytes[..count].to_vec(alloc)?)
}

/// What becomes of a disk between two runs: it `stays` as a read gives it, or a crash leaves what was
/// synced (`old`), what was written (`new`), or this byte where something was written since (`filled BYTE`).
pub fn after(disk: &MemDisk, fate: &str) -> Result<MemDisk, Unable> {
    let pick = match fate {
        "old" => CrashPick::Old,
        "stays" | "new" => CrashPick::New,
        _ => CrashPick::Filled(filling(fate)?),
    };
    Ok(disk.crash(pick)?)
}

// The byte that a crash leaves.
fn filling(fate: &str) -> Result<u8, Unable> {
    let (word, digits) = fate.split_once(' ').ok_or(Unable::Form)?;
    if word != "filled" {
        return Err(Unable::Form);
    }
    digits.parse::<u8>().or(Err(Unable::Form))
}
