//! Tests of sources, sinks, disks, folders and clocks.
#![tactic(auto)]

#[cfg(test)]
mod tests;
