//! Why a message could not be read or sent.

use thiserror::Error;

/// Why a message could not be read. Places are counted in bytes from the session's first one.
#[derive(Clone, Copy, Debug, PartialEq, Eq, Error)]
pub enum WireFault {
    /// The input ends inside a message, at this place.
    #[error("the input ends inside a message, at {0}")]
    Truncated(u64),
    /// No message goes on as the input does at this place, for one of the causes of `bad_wire`.
    #[error("no message goes on so at {1}, for cause {0}")]
    BadWire(u8, u64),
    /// Something too large begins at this place: a text, a collection, a value inside too many others,
    /// or the first byte past the limit of a message or of the session.
    #[error("too large at {0}")]
    TooLarge(u64),
    /// The source failed, and has counted it.
    #[error("read fault")]
    ReadFault,
    #[error("out of memory")]
    NoMemory,
}

/// Why a message was not sent whole.
#[derive(Clone, Copy, Debug, PartialEq, Eq, Error)]
pub enum SendFault {
    /// The sink failed, and has counted it.
    #[error("write fault")]
    WriteFault,
    #[error("out of memory")]
    NoMemory,
}
