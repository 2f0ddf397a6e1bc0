//! Cases of the structs of tables: what is read of the bytes of a struct, and what is written of it again.
#![tactic(auto)]

mod again;
mod faults;
mod partitions;
mod requests;
mod statistics;
mod structs;
mod tables;

use std::rt::Files;
use structs::Structs;
use table_cases::{Unable, run_table};

fn main(rt: HostRuntime) -> Result<(), Unable> {
    run(&rt)
}

// Runs the tables.
fn run(rt: &(impl Files + Print + AllocGlobal)) -> Result<(), Unable> {
    run_table(rt, "structs", &Structs)?;
    run_table(rt, "statistics", &Structs)
}
