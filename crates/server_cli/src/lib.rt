//! The top call of a server: it reads the words of `serve`, opens the store that the disks hold, and
//! serves connections at it by workers in threads.
#![tactic(auto)]

mod laws;
mod lists;
mod planning;
mod server;
mod server_end;
mod telling;
mod top_call;
mod words;

pub use laws::store_faults_are_counted;
pub use planning::plan;
pub use server::run_server;
pub use server_end::ServerEnd;
pub use telling::tell_status;
pub use top_call::Plan;
pub use words::{Serving, read_serving};
