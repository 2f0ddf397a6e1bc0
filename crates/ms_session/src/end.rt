//! How sessions end.

/// How a session ended. Places are counted in bytes from the first one of its input.
#[derive(Clone, Copy, Debug, PartialEq, Eq)]
pub enum End {
    /// The whole input was messages, and each was answered.
    Done,
    /// A message asked for the end; those before it were answered.
    Shutdown,
    /// The input ends inside a message; those before it were answered.
    Truncated(u64),
    /// The input stops being messages at this place, for the cause with this number.
    BadWire(u8, u64),
    /// What begins at this place is larger than a message may have it.
    TooLarge(u64),
    /// The source failed, and has counted it.
    ReadFault,
    /// The sink failed, and has counted it.
    WriteFault,
    NoMemory,
}
