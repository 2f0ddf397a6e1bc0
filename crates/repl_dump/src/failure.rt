//! How a dump fails.

ghost use Rattle.std.specs.Prelude.{◌≡◌, ◌↔◌};
ghost use Rattle.repl_dump.specs.declared.failure.Failure.TheVariants.{NoMemory};
ghost use Rattle.repl_dump.specs.Turns.{IsOwn};

use cat_types::{DumpRefusal, NoMemory};
use hms_outside::Outage;

/// Why a dump that was begun goes no further.
#[derive(Clone, Copy, Debug, PartialEq, Eq)]
pub enum Failure {
    /// A step was refused.
    Refused(DumpRefusal),
    /// The folder failed.
    FolderFault,
    /// Memory was refused.
    NoMemory,
}

impl From<NoMemory> for Failure {
    ghost from_gives = { λ _ failure. failure ≡ NoMemory };

    fn from(_refused: NoMemory) -> Failure {
        Failure::NoMemory
    }
}

/// How a fault of the folder is told.
pub fn failure_of(outage: Outage) -> Failure
    ensures own { IsOwn result }
    ensures failed { result ≡ Failure.FolderFault → outage ≡ Outage.Failed }
    ensures memory { result ≡ Failure.NoMemory → outage ≡ Outage.NoMemory }
{
    match outage {
        Outage::Failed => Failure::FolderFault,
        Outage::NoMemory => Failure::NoMemory,
    }
}
