//! Why a call isn't done.

ghost use Rattle.std.specs.Prelude.{◌≡◌};
ghost use Rattle.rulings.specs.declared.barred.Barred.TheVariants.{NoMemory};

use crate::Refusal;
use cat_types::NoMemory;

/// Why a call isn't done.
#[derive(Drop)]
pub enum Barred {
    Refused(Refusal),
    NoMemory,
}

impl From<NoMemory> for Barred {
    ghost from_gives = { λ _ e. e ≡ NoMemory };

    fn from(_: NoMemory) -> Barred {
        Barred::NoMemory
    }
}
