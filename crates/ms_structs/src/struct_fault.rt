//! Why a struct could not be read.

use thrift_binary::WireFault;

/// Why a struct could not be read.
#[derive(Clone, Copy, Debug, PartialEq, Eq)]
pub enum StructFault {
    /// A text that counts isn't UTF-8; the struct was read to its end.
    BadText,
    Wire(WireFault),
}
