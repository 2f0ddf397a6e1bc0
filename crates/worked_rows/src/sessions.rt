//! Sessions by their bytes: the status, the replies and the line of errors.

use crate::disks::NEW_STORE;
use crate::running::{stage_at, stage_of, status_over};
use crate::showing::{line, shown};
use hms_outside::MemSink;
use std::alloc::Global;
use table_cases::{Answers, Unable};

/// An input is the bytes of a session over a new store, and its outcome `STATUS REPLIES LINE`.
pub struct Sessions;

impl Answers for Sessions {
    fn answer(&self, alloc: Global, input: &str) -> Result<String, Unable> {
        let mut stage = stage_of(alloc, "pipe", input)?;
        let mut output = MemSink::new(alloc, Vec::new(alloc));
        let status = status_over(alloc, &mut stage, &mut output, &NEW_STORE)?;
        told(alloc, status, output.bytes(), stage.errors())
    }
}

/// An input is `MOMENT | BYTES`: the bytes of a session whose calls all come at this moment. Its outcome is
/// as that of `Sessions`.
pub struct SessionsAt;

impl Answers for SessionsAt {
    fn answer(&self, alloc: Global, input: &str) -> Result<String, Unable> {
        let (moment, digits) = input.split_once(" | ").ok_or(Unable::Form)?;
        let moment = moment.parse::<u64>().or(Err(Unable::Form))?;
        let mut stage = stage_at(alloc, "pipe", digits, moment)?;
        let mut output = MemSink::new(alloc, Vec::new(alloc));
        let status = status_over(alloc, &mut stage, &mut output, &NEW_STORE)?;
        told(alloc, status, output.bytes(), stage.errors())
    }
}

// What a run leaves that wrote these bytes, and these of errors.
fn told(alloc: Global, status: u8, bytes: &[u8], errors: &[u8]) -> Result<String, Unable> {
    let replies = shown(alloc, bytes)?;
    let line = line(errors)?;
    Ok(format!(in alloc; "{status} {replies} {line}")?)
}
