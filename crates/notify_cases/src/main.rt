//! Messages of events, each a line of a file, and a log that is pushed to and trimmed.
#![tactic(auto)]

mod logs;
mod messages;

use logs::run_log;
use messages::Messages;
use std::rt::Files;
use table_cases::{Unable, run_table};

fn main(rt: HostRuntime) -> Result<(), Unable> {
    run(&rt)
}

// Runs the table, and then the log.
fn run(rt: &(impl Files + Print + AllocGlobal)) -> Result<(), Unable> {
    run_table(rt, "messages", &Messages)?;
    run_log(rt)
}
