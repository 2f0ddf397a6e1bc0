//! Why the program stops early.

use cat_values::{NoMemory, TextFault};
use change_codec::CodecFault;
use filter_expr::FilterFault;
use part_names::NameFault;
use std::alloc::{AllocError, AllocFailed};
use std::{fmt, io};
use thrift_binary::{SendFault, WireFault};

/// Why the program stops early.
#[derive(Clone, Copy)]
pub enum Stop {
    /// The words name no piece of work.
    Usage,
    /// A line or a reply could not be written.
    WriteFault,
    /// A sample is none that may be made or read.
    Sample,
    NoMemory,
}

impl Stop {
    /// The status that the program ends with.
    pub fn status(&self) -> u8 {
        match self {
            Stop::Usage => 2,
            Stop::WriteFault => 4,
            Stop::Sample => 5,
            Stop::NoMemory => 10,
        }
    }
}

impl fmt::Display for Stop {
    fn fmt<W: fmt::Write>(&self, f: &mut fmt::Formatter<W>) -> fmt::Result {
        match self {
            Stop::Usage => write!(f, "usage: bench WORK NUMBER .."),
            Stop::WriteFault => write!(f, "write fault"),
            Stop::Sample => write!(f, "bad sample"),
            Stop::NoMemory => write!(f, "out of memory"),
        }
    }
}

impl From<io::Error> for Stop {
    fn from(_: io::Error) -> Stop {
        Stop::WriteFault
    }
}

impl From<NoMemory> for Stop {
    fn from(_: NoMemory) -> Stop {
        Stop::NoMemory
    }
}

impl From<AllocError> for Stop {
    fn from(_: AllocError) -> Stop {
        Stop::NoMemory
    }
}

impl<T: Drop> From<AllocFailed<T>> for Stop {
    fn from(_: AllocFailed<T>) -> Stop {
        Stop::NoMemory
    }
}

impl From<TextFault> for Stop {
    fn from(fault: TextFault) -> Stop {
        match fault {
            TextFault::TooLong => Stop::Sample,
            TextFault::NoMemory => Stop::NoMemory,
        }
    }
}

impl From<NameFault> for Stop {
    fn from(fault: NameFault) -> Stop {
        match fault {
            NameFault::BadName(_) => Stop::Sample,
            NameFault::NoMemory => Stop::NoMemory,
        }
    }
}

impl From<FilterFault> for Stop {
    fn from(fault: FilterFault) -> Stop {
        match fault {
            FilterFault::Syntax(_)
            | FilterFault::TooDeep
            | FilterFault::UnknownKey(_)
            | FilterFault::WrongType(_) => Stop::Sample,
            FilterFault::NoMemory => Stop::NoMemory,
        }
    }
}

impl From<CodecFault> for Stop {
    fn from(fault: CodecFault) -> Stop {
        match fault {
            CodecFault::BadRecord(_) => Stop::Sample,
            CodecFault::NoMemory => Stop::NoMemory,
        }
    }
}

impl From<WireFault> for Stop {
    fn from(fault: WireFault) -> Stop {
        match fault {
            WireFault::Truncated(_)
            | WireFault::BadWire(_, _)
            | WireFault::TooLarge(_)
            | WireFault::ReadFault => Stop::Sample,
            WireFault::NoMemory => Stop::NoMemory,
        }
    }
}

impl From<SendFault> for Stop {
    fn from(fault: SendFault) -> Stop {
        match fault {
            SendFault::WriteFault => Stop::WriteFault,
            SendFault::NoMemory => Stop::NoMemory,
        }
    }
}
