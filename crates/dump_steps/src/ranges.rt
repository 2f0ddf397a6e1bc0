//! Which events a dump is asked for, and for what it is refused.

ghost use Rattle.std.specs.Prelude.{◌≡◌, ◌<◌, IsNone};
ghost use Rattle.std.specs.Option.{option_copied};
ghost use Rattle.dump_steps.specs.Ranges.{begin_of, begin_refusal, end_of, is_bad_from, is_bad_limit, is_bad_range, is_bad_to, is_missing, is_too_early, is_used_up, limited, range_refusal, upto_of};

use cat_objects::HeldDb;
use cat_types::DumpRefusal;

/// What a dump is asked for: the events after `from`, or all of a database where there is none; up to
/// `to`; and so many numbers at most.
#[derive(Clone, Copy, Debug, PartialEq, Eq)]
pub struct Asked {
    pub from: Option<i64>,
    pub to: Option<i64>,
    pub limit: Option<i64>,
}

/// For what a dump is refused, by the first rule that it breaks. `held` is the database with its name,
/// `first` the number of the first kept event, `newest` that of the newest one, and `last` that of the
/// last dump. It takes no memory.
pub fn begin_refusal(
    held: Option<&HeldDb>,
    first: u64,
    newest: u64,
    last: u64,
    asked: Asked,
) -> Option<DumpRefusal>
    ensures first_broken { result ≡ begin_refusal (option_copied held.entry) first newest last asked }
    ensures numbers_left { IsNone result → last < 18446744073709551615 }
{
    match held {
        Some(held) => range_refusal(held.born, first, newest, last, asked),
        None => Some(DumpRefusal::NoSuchDb),
    }
}

fn range_refusal(born: u64, first: u64, newest: u64, last: u64, asked: Asked) -> Option<DumpRefusal>
    ensures first_broken { result ≡ range_refusal born first newest last asked }
    ensures numbers_left { IsNone result → last < 18446744073709551615 }
{
    if is_bad_range(newest, asked) {
        return Some(DumpRefusal::BadRange);
    }
    if is_too_early(born, asked.from) {
        return Some(DumpRefusal::DatabaseGone(born));
    }
    if is_missing(first, newest, asked.from) {
        return Some(DumpRefusal::MissingEvents(first));
    }
    if last == u64::MAX {
        return Some(DumpRefusal::UsedUp);
    }
    None
}

// Whether a range can't be asked for.
fn is_bad_range(newest: u64, asked: Asked) -> bool
    ensures { result ≡ is_bad_range newest asked.from asked.to asked.limit }
{
    match asked.from {
        Some(from) => is_bad_from(newest, from)
            || is_bad_to(from, asked.to)
            || is_bad_limit(asked.limit),
        None => asked.to.is_some() || asked.limit.is_some(),
    }
}

// Whether no range begins after this number.
fn is_bad_from(newest: u64, from: i64) -> bool
    ensures { result ≡ is_bad_from newest from }
{
    from < 0 || newest < from.unsigned_abs()
}

// Whether the last number lies below the one that the range begins after.
fn is_bad_to(from: i64, to: Option<i64>) -> bool
    ensures { result ≡ is_bad_to from to }
{
    match to {
        Some(to) => to < from,
        None => false,
    }
}

// Whether no number at all may be asked for.
fn is_bad_limit(limit: Option<i64>) -> bool
    ensures { result ≡ is_bad_limit limit }
{
    match limit {
        Some(limit) => limit < 1,
        None => false,
    }
}

// Whether events are asked for that lie before the database was made.
fn is_too_early(born: u64, from: Option<i64>) -> bool
    ensures { result ≡ is_too_early born from }
{
    match from {
        Some(from) => from.unsigned_abs() < born,
        None => false,
    }
}

// Whether events are asked for that aren't kept any more.
fn is_missing(first: u64, newest: u64, from: Option<i64>) -> bool
    ensures { result ≡ is_missing first newest from }
{
    match from {
        Some(from) => from.unsigned_abs() + 1 < first && from.unsigned_abs() < newest,
        None => false,
    }
}

// The event after which a dump's events begin.
pub(crate) fn begin_of(newest: u64, from: Option<i64>) -> u64
    ensures { result ≡ begin_of newest from }
{
    match from {
        Some(from) => from.unsigned_abs(),
        None => newest,
    }
}

// The event up to which a dump's events go.
pub(crate) fn end_of(newest: u64, asked: Asked) -> u64
    ensures { result ≡ end_of newest asked }
{
    match asked.from {
        Some(from) => limited(from.unsigned_abs(), upto_of(newest, asked.to), asked.limit),
        None => newest,
    }
}

// The last event that a range may have.
fn upto_of(newest: u64, to: Option<i64>) -> u64
    ensures { result ≡ upto_of newest to }
{
    match to {
        Some(to) => to.unsigned_abs().min(newest),
        None => newest,
    }
}

// The last number of a range that begins after this one and has so many numbers at most.
fn limited(from: u64, upto: u64, limit: Option<i64>) -> u64
    ensures { result ≡ limited from upto limit }
{
    match limit {
        Some(limit) => upto.min(from.saturating_add(limit.unsigned_abs())),
        None => upto,
    }
}
