//! Where connections come from: listeners, which hand connections out one after the other and take
//! each back after its session. One is over memory, whose calls fail where a list says so, and one
//! over a socket.
#![tactic(auto)]

mod failures;
mod listener;
mod mem_listener;
mod tcp_door;
mod tcp_streams;

pub use listener::Listener;
pub use mem_listener::MemListener;
pub use tcp_door::TcpDoor;
pub use tcp_streams::{TcpSink, TcpSource};
