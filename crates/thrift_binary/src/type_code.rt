//! The codes of types on the wire.

/// Behind the last field of a struct, in place of a type.
pub const STOP: u8 = 0;

/// A bool, of one byte.
pub const BOOL: u8 = 2;

/// A number of one byte.
pub const BYTE: u8 = 3;

/// A double, of eight bytes.
pub const DOUBLE: u8 = 4;

/// A number of two bytes.
pub const I16: u8 = 6;

/// A number of four bytes.
pub const I32: u8 = 8;

/// A number of eight bytes.
pub const I64: u8 = 10;

/// A text.
pub const STRING: u8 = 11;

pub const STRUCT: u8 = 12;

pub const MAP: u8 = 13;

pub const SET: u8 = 14;

pub const LIST: u8 = 15;
