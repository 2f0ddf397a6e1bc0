//! Tables of records and values, each case of which is a line of a file: records there and back, the
//! places of faults, lists that are read one element at a time, and the values that records are made of.
#![tactic(auto)]

mod again;
mod calls;
mod creation;
mod dumping;
mod lists;
mod maps;
mod one_by_one;
mod outcome;
mod part_calls;
mod phases;
mod records;
mod replies;
mod stat_calls;
mod steps;
mod table_calls;
mod texts;
mod values;
mod worded;

use cat_values::sizes_are_bounded;
use change_codec::{each_has_one_spelling, each_is_read_again, each_is_spelled_as_read};
use one_by_one::OneByOne;
use records::Records;
use std::rt::Files;
use steps::Steps;
use table_cases::{Unable, run_table};
use values::Values;

fn main(rt: HostRuntime) -> Result<(), Unable> {
    sizes_are_bounded();
    each_is_read_again();
    each_is_spelled_as_read();
    each_has_one_spelling();
    run(&rt)
}

// Runs all tables.
fn run(rt: &(impl Files + Print + AllocGlobal)) -> Result<(), Unable> {
    run_table(rt, "records", &Records)?;
    run_table(rt, "faults", &Records)?;
    run_table(rt, "one_by_one", &OneByOne)?;
    run_table(rt, "values", &Values)?;
    run_table(rt, "steps", &Steps)
}
