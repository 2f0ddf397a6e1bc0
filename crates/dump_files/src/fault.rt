//! Why bytes are no file of a dump.

ghost use Rattle.std.specs.Prelude.{◌≡◌};
ghost use Rattle.dump_files.specs.Steps.{fault_of};
ghost use Rattle.dump_files.specs.declared.fault.FileFault.TheVariants.{NoMemory};

use cat_types::NoMemory;
use change_codec::CodecFault;

/// Why bytes are no file of a dump.
#[derive(Clone, Copy, Debug, PartialEq, Eq)]
pub enum FileFault {
    /// The offset at which no spelling goes on, or at which the first element that breaks a rule
    /// begins, whichever comes first when the file is read from its front. Where the bytes end too
    /// soon it is their number. Behind a count of 0 no spelling goes on.
    Grammar(u64),
    NoMemory,
}

impl From<NoMemory> for FileFault {
    ghost from_gives = { λ _ f. f ≡ NoMemory };

    fn from(_: NoMemory) -> FileFault {
        FileFault::NoMemory
    }
}

impl From<CodecFault> for FileFault {
    ghost from_gives = { λ c f. f ≡ fault_of c };

    fn from(fault: CodecFault) -> FileFault {
        match fault {
            CodecFault::BadRecord(offset) => FileFault::Grammar(offset),
            CodecFault::NoMemory => FileFault::NoMemory,
        }
    }
}
