//! Messages to calls of the metastore, and answers to messages.
#![tactic(auto)]

mod arguments;
mod asking;
mod databases;
mod exception;
mod laws;
mod limit;
mod method;
mod of_partitions;
mod of_texts;
mod part_texts;
mod partitions;
mod plan;
mod refusals;
mod replication;
mod reply;
mod request;
mod server;
mod slots;
mod statistics;
mod tables;

pub use asking::{asked, asked_by};
pub use exception::Exception;
pub use laws::order_of_fields_is_free;
pub use method::{Method, ResultType, method_named};
pub use refusals::{bad_argument, invalid_request, out_of_memory, store_fault, unknown_method};
pub use reply::{is_one_way, put_reply, put_reply_of};
pub use request::Asked;
