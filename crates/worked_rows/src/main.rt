//! Runs the worked rows of the metastore's top call: whole sessions by their bytes, what befalls a
//! session outside, what runs and crashes leave of a store, and what commands leave one after the other.
#![tactic(auto)]

mod commands;
mod disks;
mod faults;
mod running;
mod sessions;
mod showing;
mod stores;

use commands::Commands;
use faults::Faults;
use sessions::{Sessions, SessionsAt};
use std::process::ExitCode;
use std::rt::Files;
use stores::Stores;
use table_cases::{Unable, run_table};

fn main(rt: HostRuntime) -> ExitCode {
    match run(&rt) {
        Ok(()) => ExitCode::SUCCESS,
        Err(unable) => {
            let _ = eprintln!(rt; "{unable}");
            ExitCode::FAILURE
        }
    }
}

fn run(rt: &(impl Files + Print + AllocGlobal)) -> Result<(), Unable> {
    run_table(rt, "pipe", &Sessions)?;
    run_table(rt, "tables", &Sessions)?;
    run_table(rt, "refused_tables", &Sessions)?;
    run_table(rt, "partitions", &Sessions)?;
    run_table(rt, "filters", &Sessions)?;
    run_table(rt, "statistics", &Sessions)?;
    run_table(rt, "moments", &SessionsAt)?;
    run_table(rt, "faults", &Faults)?;
    run_table(rt, "stores", &Stores)?;
    run_table(rt, "commands", &Commands)
}
