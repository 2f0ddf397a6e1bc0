//! The top call of the metastore's program: it reads the words, and does what they name.
#![tactic(auto)]

mod closing;
mod dumping;
mod laws;
mod local;
mod making;
mod piping;
mod ranges;
mod telling;
mod trimming;
mod words;

pub use laws::{store_faults_are_counted, whole_texts_are_piped};
pub use local::{LocalEnd, run_local};
pub use ranges::EventRange;
pub use telling::{refused_status, tell_line, tell_refusal, tell_usage};
pub use words::{Command, Usage};
