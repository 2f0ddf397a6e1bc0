//! Dumps of a database: a caller asks for it step by step, while others take their turns, and writes
//! what it is told into a folder.
#![tactic(auto)]

mod arriving;
mod asking;
mod beginning;
mod begun_dump;
mod dumping;
mod failure;
mod laws;
mod place;
mod refusals;
mod walking;
mod writer;

pub use dumping::{DumpAnswer, dump};
pub use laws::dumps_stay_open;
pub use refusals::refusal_text;
