//! Stores over disks in memory.

use crate::words::numbers_of;
use engine::Engine;
use hms_outside::{CrashPick, Disk, MemDisk};
use std::alloc::Global;
use table_cases::{Unable, digits_of};

/// A store over disks in memory.
pub type Store = Engine<MemDisk>;

/// A new store, whose id is sixteen bytes 03, and whose disk A fails at the calls with these numbers.
pub fn new_store(alloc: Global, fails: &str) -> Result<Store, Unable> {
    let disk_a = MemDisk::new(alloc, numbers_of(alloc, fails)?);
    let disk_b = MemDisk::new(alloc, Vec::new(alloc));
    Engine::create(alloc, disk_a, disk_b, [3; 16], 0).or(Err(Unable::Form))
}

/// The store that is opened after a crash.
pub fn crashed(alloc: Global, store: Store, pick: CrashPick) -> Result<Store, Unable> {
    let (disk_a, disk_b) = store.into_disks();
    let disk_a = disk_a.crash(pick)?;
    Engine::open_store(alloc, disk_a, disk_b).or(Err(Unable::Form))
}

/// The bytes of disk A from a place on, in digits, and the store that is opened again.
pub fn bytes_from(alloc: Global, store: Store, at: u64) -> Result<(String, Store), Unable> {
    let (mut disk_a, disk_b) = store.into_disks();
    let told = read_from(alloc, &mut disk_a, at)?;
    let store = Engine::open_store(alloc, disk_a, disk_b).or(Err(Unable::Form))?;
    Ok((told, store))
}

// At most 64 bytes of a disk from a place on, in digits.
fn read_from(alloc: Global, disk: &mut MemDisk, at: u64) -> Result<String, Unable> {
    let mut buffer = [0u8; 64];
    let filled = disk.read_at(at, &mut buffer).or(Err(Unable::Form))?;
    let told = buffer.get(..filled).ok_or(Unable::Form)?;
    Ok(digits_of(alloc, told)?)
}
