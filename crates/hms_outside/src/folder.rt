//! Where dumps lie.

ghost use Rattle.std.specs.Prelude.{List, ℕ};
ghost use Rattle.std.specs.declared.option.Option.{Option};
ghost use Rattle.hms_outside.specs.Causes.{HasCause};
ghost use Rattle.hms_outside.specs.Folders.{Gets, Puts};

use crate::Outage;
use cat_values::Bytes;

/// Files by name, which it may tell.
pub trait Folder {
    /// Its files in rising order of their names, where they are known.
    ghost files: { Self → Option (List (List ℕ × List ℕ)) };

    /// How often it has failed.
    ghost faults: { Self → ℕ };

    /// Makes the file with this name, or replaces it. A fault may leave that file with other bytes
    /// or absent, and leaves all others.
    fn put(&mut self, name: &str, bytes: &[u8]) -> Result<(), Outage>
        ensures files { Puts (files self.old) (files self.new) name.now bytes.now result }
        ensures cause { HasCause (faults self.old) (faults self.new) result };

    /// The bytes of the file with this name, or `None` where it is absent.
    fn get(&mut self, name: &str) -> Result<Option<Bytes>, Outage>
        ensures files { Gets (files self.old) (files self.new) name.now result }
        ensures cause { HasCause (faults self.old) (faults self.new) result };
}
