//! Why a table can't be run.

use cat_values::{NoMemory, TextFault};
use std::alloc::{AllocError, AllocFailed};
use std::{fmt, io};

/// Why a table can't be run.
#[derive(Clone, Copy, Debug, PartialEq, Eq)]
pub enum Unable {
    /// A line, or an input, isn't written as it should be.
    Form,
    /// A file could not be read, or a line could not be written.
    Outside,
    NoMemory,
}

impl fmt::Display for Unable {
    fn fmt<W: fmt::Write>(&self, f: &mut fmt::Formatter<W>) -> fmt::Result {
        match self {
            Unable::Form => write!(f, "a case isn't written as it should be"),
            Unable::Outside => write!(f, "read or write fault"),
            Unable::NoMemory => write!(f, "out of memory"),
        }
    }
}

impl From<NoMemory> for Unable {
    fn from(_: NoMemory) -> Unable {
        Unable::NoMemory
    }
}

impl From<TextFault> for Unable {
    fn from(fault: TextFault) -> Unable {
        match fault {
            TextFault::TooLong => Unable::Form,
            TextFault::NoMemory => Unable::NoMemory,
        }
    }
}

impl From<AllocError> for Unable {
    fn from(_: AllocError) -> Unable {
        Unable::NoMemory
    }
}

impl<T: Drop> From<AllocFailed<T>> for Unable {
    fn from(_: AllocFailed<T>) -> Unable {
        Unable::NoMemory
    }
}

impl From<io::Error> for Unable {
    fn from(_: io::Error) -> Unable {
        Unable::Outside
    }
}
