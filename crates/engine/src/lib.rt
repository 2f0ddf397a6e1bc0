//! Stores that outlive their process: a store takes steps in memory and writes what they change to the
//! journal on its disk, and is opened again from what the journal holds.
#![tactic(auto)]

mod committing;
mod dumping;
mod engine;
mod laws;
mod replaying;
mod store;
mod trimming;
mod turned;

pub use engine::Engine;
pub use laws::{accepted_steps_are_kept, stores_open_one_way};
