//! Why a dump's folder is refused.

ghost use Rattle.std.specs.Prelude.{◌≡◌};
ghost use Rattle.dump_format.specs.Harms.{fault_of};
ghost use Rattle.dump_format.specs.declared.harm.ReadDumpFault.TheVariants.{NoMemory};

use cat_types::{NoMemory, Text};
use hms_outside::Outage;

/// What is wrong with a file.
#[derive(Clone, Copy, Debug, PartialEq, Eq)]
pub enum Harm {
    /// The file is not there.
    Absent,
    /// The file has another length than the manifest tells.
    Length,
    /// The SHA-256 of the file's bytes is another than the manifest tells.
    Digest,
    /// The offset at which no spelling goes on, or at which what breaks a rule begins. Where
    /// something is missing at the end it is the file's length.
    Grammar(u64),
}

/// Why a dump was not read.
#[derive(Drop)]
pub enum ReadDumpFault {
    /// The first file that is not as it has to be, by its name in the dump's folder.
    Damaged { file: Text, harm: Harm },
    /// The folder failed, and has counted it.
    FolderFault,
    NoMemory,
}

impl From<NoMemory> for ReadDumpFault {
    ghost from_gives = { λ _ f. f ≡ NoMemory };

    fn from(_: NoMemory) -> ReadDumpFault {
        ReadDumpFault::NoMemory
    }
}

impl From<Outage> for ReadDumpFault {
    ghost from_gives = { λ o f. f ≡ fault_of o };

    fn from(outage: Outage) -> ReadDumpFault {
        match outage {
            Outage::Failed => ReadDumpFault::FolderFault,
            Outage::NoMemory => ReadDumpFault::NoMemory,
        }
    }
}
