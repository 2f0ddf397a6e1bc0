//! Why a journal's call was refused.

ghost use Rattle.std.specs.Prelude.{◌≡◌};

use cat_values::NoMemory;
use hms_outside::Outage;
use std::alloc::AllocError;
use thiserror::Error;

/// Why an entry wasn't written.
#[derive(Clone, Copy, Debug, PartialEq, Eq, Error)]
pub enum StoreFault {
    /// The disk failed, and counted it.
    #[error("disk fault")]
    DiskFault,
    /// Memory was refused.
    #[error("out of memory")]
    NoMemory,
}

impl From<Outage> for StoreFault {
    ghost use Rattle.ms_journal.specs.Faults.{store_fault};

    ghost from_gives = { λ e f. f ≡ store_fault e };

    fn from(outage: Outage) -> StoreFault {
        match outage {
            Outage::Failed => StoreFault::DiskFault,
            Outage::NoMemory => StoreFault::NoMemory,
        }
    }
}

impl From<NoMemory> for StoreFault {
    ghost use Rattle.ms_journal.specs.declared.fault.StoreFault.TheVariants.{NoMemory};

    ghost from_gives = { λ _ f. f ≡ NoMemory };

    fn from(_: cat_values::NoMemory) -> StoreFault {
        StoreFault::NoMemory
    }
}

/// Why a journal wasn't made or opened.
#[derive(Clone, Copy, Debug, PartialEq, Eq, Error)]
pub enum OpenFault {
    /// There are bytes already.
    #[error("not empty")]
    NotEmpty,
    /// The bytes don't begin with a journal's head.
    #[error("not a journal")]
    Foreign,
    /// At this place an open gate stands before bytes that aren't a whole entry.
    #[error("no whole entry behind the open gate at {0}")]
    Broken(u64),
    /// The disk failed, and counted it.
    #[error("disk fault")]
    DiskFault,
    /// Memory was refused.
    #[error("out of memory")]
    NoMemory,
}

impl From<Outage> for OpenFault {
    ghost use Rattle.ms_journal.specs.Faults.{open_fault};

    ghost from_gives = { λ e f. f ≡ open_fault e };

    fn from(outage: Outage) -> OpenFault {
        match outage {
            Outage::Failed => OpenFault::DiskFault,
            Outage::NoMemory => OpenFault::NoMemory,
        }
    }
}

impl From<AllocError> for OpenFault {
    ghost use Rattle.ms_journal.specs.declared.fault.OpenFault.TheVariants.{NoMemory};

    ghost from_gives = { λ _ f. f ≡ NoMemory };

    fn from(_: AllocError) -> OpenFault {
        OpenFault::NoMemory
    }
}

impl From<NoMemory> for OpenFault {
    ghost use Rattle.ms_journal.specs.declared.fault.OpenFault.TheVariants.{NoMemory};

    ghost from_gives = { λ _ f. f ≡ NoMemory };

    fn from(_: cat_values::NoMemory) -> OpenFault {
        OpenFault::NoMemory
    }
}
