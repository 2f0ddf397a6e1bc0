//! What the plain decoder gives.

use cat_values::{Bytes, ListOf};
use thrift_binary::Head;

/// A piece of an argument struct, as it stands on the wire.
#[derive(Drop)]
pub enum Token {
    /// The head of a field: its type and its id.
    Field(u8, i16),
    /// The end of a struct.
    Stop,
    Flag(bool),
    Byte(i8),
    Short(i16),
    Int(i32),
    Long(i64),
    /// The eight bytes of a double.
    Eight([u8; 8]),
    /// The bytes of a text, in UTF-8 or not.
    Text(Bytes),
    /// The head of a list or of a set: the type of its elements, and how many they are.
    List(u8, u32),
    /// The head of a map: the type of its keys, that of its values, and how many pairs there are.
    Map(u8, u8, u32),
}

/// The pieces of an argument struct, in the order in which they stand on the wire.
pub type Tokens = ListOf<Token>;

/// A message: whether it came in the strict form, its head, and its argument struct with its end.
#[derive(Drop)]
pub struct PlainMessage {
    pub strict: bool,
    pub head: Head,
    pub arguments: Tokens,
}

/// Messages in the order in which they stand on the wire.
pub type PlainMessages = ListOf<PlainMessage>;

/// How a text ends behind its whole messages. Places are counted in bytes from its first one.
#[derive(Clone, Copy, Debug, PartialEq, Eq)]
pub enum PlainEnd {
    /// Behind a whole message, or before the first one.
    Boundary,
    /// Inside a message, at this place.
    Truncated(u64),
    /// No message goes on as it does at this place; the codes are those of `WireFault::BadWire`.
    BadWire(u8, u64),
    /// Something too large begins at this place, as for `WireFault::TooLarge`.
    TooLarge(u64),
}
