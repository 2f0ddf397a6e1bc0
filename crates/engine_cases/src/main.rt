//! Tables of runs of steps at a store over disks in memory: walks of dumps beside foreign changes, what
//! begins are refused for, trims, steps of no dump, databases that go, and disks that fail; and whole dumps.
#![tactic(auto)]

mod calls;
mod refusals;
mod runs;
mod steps;
mod stores;
mod telling;
mod whole;
mod words;

use refusals::Refusals;
use runs::Runs;
use std::rt::Files;
use table_cases::{Unable, run_table};
use whole::WholeDumps;

fn main(rt: HostRuntime) -> Result<(), Unable> {
    run(&rt)
}

// Runs each table.
fn run(rt: &(impl Files + Print + AllocGlobal)) -> Result<(), Unable> {
    run_table(rt, "dumps", &Runs)?;
    run_table(rt, "cursors", &Runs)?;
    run_table(rt, "not_open", &Runs)?;
    run_table(rt, "gone", &Runs)?;
    run_table(rt, "trims", &Runs)?;
    run_table(rt, "disks", &Runs)?;
    run_table(rt, "refusals", &Refusals)?;
    run_table(rt, "whole", &WholeDumps)
}
