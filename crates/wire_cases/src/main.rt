//! Cases of the wire: what bytes are read as, whole and cut in any way, what the plain decoder says of
//! them, and what is written.
#![tactic(auto)]

mod calls;
mod cutting;
mod fronts;
mod sessions;
mod telling;
mod writing;

use calls::Calls;
use fronts::Fronts;
use sessions::Sessions;
use std::rt::Files;
use table_cases::{Unable, run_table};
use writing::Written;

fn main(rt: HostRuntime) -> Result<(), Unable> {
    run_calls(&rt)?;
    run_sessions(&rt)
}

// Single calls of the reader.
fn run_calls(rt: &(impl Files + Print + AllocGlobal)) -> Result<(), Unable> {
    run_table(rt, "reader_values", &Calls)?;
    run_table(rt, "reader_heads", &Calls)?;
    run_table(rt, "reader_passed", &Calls)?;
    run_table(rt, "reader_messages", &Calls)?;
    run_table(rt, "reader_replies", &Calls)
}

// Whole sessions, and what is written.
fn run_sessions(rt: &(impl Files + Print + AllocGlobal)) -> Result<(), Unable> {
    run_table(rt, "plain", &Sessions)?;
    run_table(rt, "plain_limits", &Sessions)?;
    run_table(rt, "fronts", &Fronts)?;
    run_table(rt, "written", &Written)
}
