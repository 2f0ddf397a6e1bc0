//! A plain decoder of whole sessions in Thrift's binary protocol (TBinaryProtocol): slow and
//! readable, for tests to hold the streaming reader against.
#![tactic(auto)]

mod plain_heads;
mod plain_messages;
mod plain_reader;
mod plain_texts;
mod plain_values;

pub use plain_messages::{PlainEnd, PlainMessage, PlainMessages, Token, Tokens};
pub use plain_texts::plain;
