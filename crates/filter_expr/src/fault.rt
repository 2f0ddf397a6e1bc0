//! Why a filter was refused.

ghost use Rattle.std.specs.Prelude.{◌≡◌};
ghost use Rattle.filter_expr.specs.declared.fault.FilterFault.TheVariants.{NoMemory};

use cat_values::Text;
use std::alloc::{AllocError, AllocFailed};

/// Why a filter was refused. `Syntax` and `TooDeep` come before the other two, and of them the one
/// that stands first in the text.
#[derive(Debug, Drop)]
pub enum FilterFault {
    /// At this byte offset stands the first token that the grammar can't have there, or the text
    /// ends there too soon.
    Syntax(u64),
    /// More than 64 parentheses are open inside one another.
    TooDeep,
    /// This key, the first of the text's keys that is none of the table's.
    UnknownKey(Text),
    /// A text key is compared with an integer, an integer key with a text, or a key of another type
    /// with any literal; this is the key of the first such comparison.
    WrongType(Text),
    NoMemory,
}

impl From<cat_values::NoMemory> for FilterFault {
    ghost from_gives = { λ _ e. e ≡ NoMemory };

    fn from(_: cat_values::NoMemory) -> FilterFault {
        FilterFault::NoMemory
    }
}

impl From<AllocError> for FilterFault {
    ghost from_gives = { λ _ e. e ≡ NoMemory };

    fn from(_: AllocError) -> FilterFault {
        FilterFault::NoMemory
    }
}

impl<T: Drop> From<AllocFailed<T>> for FilterFault {
    ghost from_gives = { λ _ e. e ≡ NoMemory };

    fn from(_: AllocFailed<T>) -> FilterFault {
        FilterFault::NoMemory
    }
}
