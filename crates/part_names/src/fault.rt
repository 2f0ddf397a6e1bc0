//! Why a name was not read.

ghost use Rattle.std.specs.Prelude.{◌≡◌};
ghost use Rattle.part_names.specs.declared.fault.NameFault.TheVariants.{NoMemory};

use std::alloc::AllocError;

/// Why a name was not read.
#[derive(Clone, Copy, Debug, PartialEq, Eq)]
pub enum NameFault {
    /// The component with this number, from 0, has no `=`, or an empty key or value.
    BadName(u64),
    NoMemory,
}

impl From<cat_values::NoMemory> for NameFault {
    ghost from_gives = { λ _ e. e ≡ NoMemory };

    fn from(_: cat_values::NoMemory) -> NameFault {
        NameFault::NoMemory
    }
}
