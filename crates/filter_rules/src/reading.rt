//! Reading a filter against the keys of a table.

ghost use Rattle.std.specs.Prelude.{◌≡◌, IfOk, IsErrOf};
ghost use Rattle.filter_rules.specs.Filters.{IsRead, bar_of, filter_of, is_refused};
ghost use Rattle.rulings.specs.declared.barred.Barred.TheVariants.{Refused};
ghost use Rattle.rulings.specs.declared.refusal.Refusal.{Refusal};

use cat_types::{Columns, Text};
use filter_expr::{Expr, FilterFault, parse};
use rulings::{Barred, Refusal};
use std::alloc::Global;

/// The filter that a text spells against some keys, or what a call with it is refused for.
pub(crate) fn read_filter(alloc: Global, text: &Text, keys: &Columns) -> Result<Expr, Barred>
    ensures ok { IfOk result (λ expr. IsRead (filter_of text.now keys.now) expr) }
    ensures err { (refusal : Refusal) → IsErrOf result (Refused refusal) → filter_of text.now keys.now ≡ is_refused refusal }
{
    match parse(alloc, text, keys) {
        Ok(expr) => Ok(expr),
        Err(fault) => Err(bar_of(fault)),
    }
}

// What a fault of a filter bars its call by.
fn bar_of(fault: FilterFault) -> Barred
    ensures { result ≡ bar_of fault }
{
    match fault {
        FilterFault::Syntax(place) => Barred::Refused(Refusal::FilterSyntax(place)),
        FilterFault::TooDeep => Barred::Refused(Refusal::FilterTooDeep),
        FilterFault::UnknownKey(key) => Barred::Refused(Refusal::FilterUnknownKey(key)),
        FilterFault::WrongType(key) => Barred::Refused(Refusal::FilterWrongType(key)),
        FilterFault::NoMemory => Barred::NoMemory,
    }
}
