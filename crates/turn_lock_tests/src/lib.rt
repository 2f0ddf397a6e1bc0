//! Runs of the turn lock in threads, over any value that does its work with one entry, and tests.
#![tactic(auto)]

#[cfg(test)]
mod crew;
#[cfg(test)]
mod runs;
#[cfg(test)]
mod tests;
#[cfg(test)]
mod works;

#[cfg(test)]
pub use crew::run_many;
#[cfg(test)]
pub use runs::run_two;
#[cfg(test)]
pub use works::{Works, step, steps};
