//! The kinds of messages.

/// A call that wants a reply.
pub const CALL: u8 = 1;

/// A reply to a call: its result, or an exception that it declares.
pub const REPLY: u8 = 2;

/// A reply with a TApplicationException, which no call declares.
pub const EXCEPTION: u8 = 3;

/// A call that wants no reply.
pub const ONEWAY: u8 = 4;
