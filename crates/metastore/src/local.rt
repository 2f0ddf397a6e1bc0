//! The commands of one process.

use hms_folders::DirFolder;
use hms_outside::{Disk, Sink, Source, SystemClock};
use ms_cli::{LocalEnd, run_local};
use std::alloc::Global;
use std::fs::File;
use std::rt::Files;
use std::time;

/// Does a command in this one process, by the system's clock, and returns its status.
pub fn local<
    R: time::Clock + Files<File = File> + Alloc<A = Global>,
    S: Source,
    K: Sink,
    E: Sink,
    D: Disk + Drop,
>(
    rt: &R,
    words: &[String],
    dumps: String,
    input: &mut S,
    output: &mut K,
    errors: &mut E,
    disk_a: D,
    disk_b: D,
) -> u8 {
    let alloc = rt.alloc();
    let mut folder = DirFolder::new(rt, dumps);
    let mut clock = SystemClock::new(rt);
    let LocalEnd {
        status,
        disk_a: _,
        disk_b: _,
    } = run_local(
        alloc,
        words,
        input,
        output,
        errors,
        disk_a,
        disk_b,
        &mut folder,
        &mut clock,
    );
    status
}
