//! Running the cases of a file.

use crate::case::{Case, case_of};
use crate::unable::Unable;
use std::alloc::Global;
use std::fs;
use std::rt::Files;

/// What a layer answers to the inputs of a table.
pub trait Answers {
    /// The outcome of an input, in the words of the table.
    fn answer(&self, alloc: Global, input: &str) -> Result<String, Unable>;
}

/// Runs all the cases of a file, and prints how many came out as wanted, and before that a line for
/// each other one.
pub fn run_table<L: Answers>(
    rt: &(impl Files + Print + AllocGlobal),
    file: &str,
    layer: &L,
) -> Result<(), Unable> {
    let text = fs::read_to_string(rt, file)?;
    let mut cases: u64 = 0;
    let mut right: u64 = 0;
    for line in text.as_str().lines() {
        if line.is_empty() || line.starts_with('#') {
            continue;
        }
        let case = case_of(line).ok_or(Unable::Form)?;
        cases = cases.saturating_add(1);
        right = right.saturating_add(is_right(rt, case, layer)? as u64);
    }
    println!(rt; "{file}: {right} of {cases} as wanted")?;
    Ok(())
}

// Whether a case comes out as wanted; where it doesn't, what came is printed beside what is wanted.
fn is_right<L: Answers>(
    rt: &(impl Print + AllocGlobal),
    case: Case<'_>,
    layer: &L,
) -> Result<bool, Unable> {
    let came = layer.answer(rt.alloc(), case.input)?;
    let right = came.as_str() == case.wanted;
    if !right {
        let Case { name, wanted, .. } = case;
        println!(rt; "{name}: {came}, and not {wanted}")?;
    }
    Ok(right)
}
