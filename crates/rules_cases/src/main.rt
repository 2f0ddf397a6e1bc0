//! Runs the tables of the rules: names of objects and columns, patterns, statistics of columns, names
//! and values of partitions, and partition filters.
#![tactic(auto)]

mod filters;
mod object_names;
mod partitions;
mod statistics;
mod words;

use filters::run_filters;
use object_names::run_names;
use partitions::run_partitions;
use statistics::run_statistics;
use std::rt::Files;
use table_cases::Unable;

fn main(rt: HostRuntime) -> Result<(), Unable> {
    run(&rt)
}

fn run(rt: &(impl Files + Print + AllocGlobal)) -> Result<(), Unable> {
    run_names(rt)?;
    run_statistics(rt)?;
    run_partitions(rt)?;
    run_filters(rt)
}
