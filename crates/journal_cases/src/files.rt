//! Files that are opened. An input is a file's bytes.

use crate::telling::told_opening;
use hms_outside::{Disk, MemDisk};
use ms_journal::Journal;
use std::alloc::Global;
use table_cases::{Answers, Unable, bytes_of};

/// What opening a file gives.
pub struct Files;

impl Answers for Files {
    fn answer(&self, alloc: Global, input: &str) -> Result<String, Unable> {
        let bytes = bytes_of(alloc, input)?;
        let mut disk = MemDisk::new(alloc, Vec::new(alloc));
        disk.write_at(0, &bytes).or(Err(Unable::NoMemory))?;
        told_opening(alloc, &Journal::open_log(alloc, disk))
    }
}
