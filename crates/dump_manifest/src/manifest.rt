//! What a manifest tells.

ghost use Rattle.std.specs.Prelude.{◌≡◌};
ghost use Rattle.dump_manifest.specs.declared.manifest.ManifestFault.TheVariants.{NoMemory};

use cat_values::{ListOf, Text};

/// One file of a dump.
#[derive(Drop)]
pub struct FileLine {
    /// The file's name in the dump's folder: `i` or `e`, and a number.
    pub name: Text,
    /// How many bytes the file has.
    pub length: u64,
    /// The SHA-256 of its bytes.
    pub digest: [u8; 32],
}

/// The files of a dump, those of items first.
pub type Files = ListOf<FileLine>;

/// What a manifest tells of a dump.
#[derive(Drop)]
pub struct Manifest {
    /// The id of the store that was dumped.
    pub source: [u8; 16],
    /// The database that was dumped, in lower case.
    pub db: Text,
    /// The number of the dump.
    pub dump: u64,
    /// Whether the dump has the database itself, and not its events alone.
    pub bootstrap: bool,
    /// The number of the event after which the dump begins.
    pub begin: u64,
    /// The number of the last event that the dump may have.
    pub end: u64,
    /// The number of the event that made the database.
    pub born: u64,
    pub files: Files,
}

/// Why a text was not read as a manifest.
#[derive(Clone, Copy, Debug, PartialEq, Eq)]
pub enum ManifestFault {
    /// The offset of the first line that breaks a rule, or the text's length where lines are missing.
    Grammar(u64),
    NoMemory,
}

impl From<cat_values::NoMemory> for ManifestFault {
    ghost from_gives = { λ _ e. e ≡ NoMemory };

    fn from(_: cat_values::NoMemory) -> ManifestFault {
        ManifestFault::NoMemory
    }
}
