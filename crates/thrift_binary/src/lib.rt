//! Apache Thrift's binary protocol (TBinaryProtocol) over any source and sink of bytes.
#![tactic(auto)]

pub mod bad_wire;
mod collections;
mod fault;
mod fill;
mod fixed;
mod head;
mod heads;
mod laws;
mod limits;
pub mod message_kind;
pub mod numbers;
mod progress;
mod reader;
mod skipping;
mod spelling;
mod texts;
pub mod type_code;
mod writer;

pub use fault::{SendFault, WireFault};
pub use head::{Direction, Head};
pub use laws::{
    a_text_reads_one_way, cutting_changes_nothing, every_text_has_an_ending,
    no_spelling_begins_another,
};
pub use limits::{COUNT_LIMIT, DEPTH_LIMIT, MESSAGE_LIMIT, SESSION_END, messages_are_bounded};
pub use progress::Progress;
pub use reader::WireReader;
pub use spelling::{messages_are_spelled, values_are_spelled};
pub use writer::WireWriter;
