//! The log of events, and the message that tells of each.
#![tactic(auto)]

mod event_log;
mod telling;
mod values;

pub use event_log::EventLog;
pub use telling::message;
