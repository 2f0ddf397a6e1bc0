//! Where a dump stands.

ghost use Rattle.std.specs.Prelude.{◌≡◌, ◌↔◌, IsTrue};
ghost use Rattle.repl_dump.specs.declared.place.Place.TheVariants.{End};

use cat_types::{Text, Texts};

/// The next thing that a dump asks for.
#[derive(Drop)]
pub enum Place {
    /// The next table after this name.
    Tables(Option<Text>),
    /// The next partitions of the table with this name and born, after these values.
    Parts {
        table: Text,
        born: u64,
        after: Option<Texts>,
    },
    Seal,
    /// The next events after this number.
    Events(u64),
    End,
}

impl Place {
    /// Whether nothing is left to be asked for but the end.
    pub fn is_end(&self) -> bool
        ensures { IsTrue result ↔ (self.now ≡ End) }
    {
        matches!(self, Place::End)
    }
}
