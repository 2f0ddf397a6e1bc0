//! Why bytes are no record.

ghost use Rattle.std.specs.Prelude.{◌≡◌};
ghost use Rattle.change_codec.specs.declared.fault.Stop.TheVariants.{NoMemory};

use cat_types::NoMemory;
use std::alloc::{AllocError, AllocFailed};

/// Why bytes are no record.
#[derive(Clone, Copy, Debug, PartialEq, Eq)]
pub enum CodecFault {
    /// At this offset no spelling goes on, counted from the first byte that was handed in. It is
    /// the first byte of a tag, flag, count or length that can't stand there, of the length of a
    /// text that isn't UTF-8, of a map's key that doesn't rise, or of what is left over; and the
    /// number of bytes where they end too soon.
    BadRecord(u64),
    NoMemory,
}

/// Why reading stopped.
#[derive(Clone, Copy)]
pub enum Stop {
    /// No spelling goes on, and so many bytes are left from there.
    Left(usize),
    NoMemory,
}

impl From<NoMemory> for Stop {
    ghost from_gives = { λ _ s. s ≡ NoMemory };

    fn from(_: NoMemory) -> Stop {
        Stop::NoMemory
    }
}

impl From<AllocError> for Stop {
    ghost from_gives = { λ _ s. s ≡ NoMemory };

    fn from(_: AllocError) -> Stop {
        Stop::NoMemory
    }
}

impl<T: Drop> From<AllocFailed<T>> for Stop {
    ghost from_gives = { λ _ s. s ≡ NoMemory };

    fn from(_: AllocFailed<T>) -> Stop {
        Stop::NoMemory
    }
}
