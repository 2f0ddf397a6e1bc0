//! The log of a store on a disk: payloads, each whole or not there after a crash at any moment.
#![tactic(auto)]

mod fault;
mod format;
mod gates;
mod journal;
mod laws;
mod making;
mod opening;
mod reading;

pub use fault::{OpenFault, StoreFault};
pub use journal::Journal;
pub use laws::{crashes_keep_the_log, files_open_one_way};
pub use reading::{Payload, Payloads};
