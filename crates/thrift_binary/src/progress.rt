//! How far a reader is.

use crate::WireFault;

/// How far a reader is. Places are counted in bytes from the session's first one.
#[derive(Clone, Copy, Debug, PartialEq, Eq)]
pub struct Progress {
    /// How many bytes were taken off the source.
    pub(crate) place: u64,
    /// The place at which the message's last byte must have come.
    pub(crate) limit: u64,
    /// How many structs and collections may still open inside those that are open.
    pub(crate) room: u8,
    /// The fault that ended the reading.
    pub(crate) fault: Option<WireFault>,
}
