//! Tests of the wire over sources and sinks that fail.
#![tactic(auto)]

#[cfg(test)]
mod reading;
#[cfg(test)]
mod writing;
