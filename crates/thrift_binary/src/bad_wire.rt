//! Why no message goes on as the input does at some place: the causes that `WireFault::BadWire` tells.

/// The first word is negative, and its upper half isn't the version of the strict form.
pub const VERSION: u8 = 1;

/// The kind isn't one that is read here.
pub const KIND: u8 = 2;

/// A length or a count is negative.
pub const NEGATIVE: u8 = 3;

/// No type has this code.
pub const TYPE: u8 = 4;

/// The message's name isn't UTF-8.
pub const NAME: u8 = 5;
