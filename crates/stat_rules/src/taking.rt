//! Statistics that are handed in: whether a table takes them, and when they were taken.

ghost use Rattle.std.specs.Prelude.{◌≡◌, IfOk};
ghost use Rattle.stat_rules.specs.Places.{LeadTo};
ghost use Rattle.stat_rules.specs.Records.{taken_at, takes_all, takes_named};

use crate::places::{Places, column_of, places_of};
use cat_types::{LowerName, NoMemory, StatArg, StatArgs, TableRec};
use cat_values::find_column;
use col_stats::check_found;
use std::alloc::Global;

/// The greatest moment that is kept, in seconds since 1970.
const LAST_MOMENT: u64 = 9_223_372_036_854_775_807;

// When statistics were taken, in seconds since 1970: as it was handed in, or at the call's moment.
pub(crate) fn taken_at(analyzed: Option<i64>, moment: u64) -> i64
    ensures { result ≡ taken_at analyzed moment }
{
    match analyzed {
        Some(at) => at,
        None => moment.min(LAST_MOMENT) as i64,
    }
}

// Whether a table takes all statistics that are handed in.
pub(crate) fn takes_all(alloc: Global, rec: &TableRec, objects: &StatArgs) -> Result<bool, NoMemory>
    ensures { IfOk result (λ takes. takes ≡ takes_all rec.now objects.now) }
{
    let places = places_of(alloc, &rec.sd.cols)?;
    for object in objects.as_slice() {
        if !takes_named(alloc, rec, &places, object)? {
            return Ok(false);
        }
    }
    Ok(true)
}

// Whether a table takes statistics of one column. Its columns stand at these places.
fn takes_named(
    alloc: Global,
    rec: &TableRec,
    places: &Places,
    object: &StatArg,
) -> Result<bool, NoMemory>
    requires { LeadTo places.now.entries rec.now.sd.cols }
    ensures { IfOk result (λ takes. takes ≡ takes_named rec.now object.now.col object.now.value) }
{
    let Some(col) = &object.col else {
        return Ok(false);
    };
    let Some(value) = &object.value else {
        return Ok(false);
    };
    let col = LowerName::of(alloc, col)?;
    let key = find_column(rec.keys.as_slice(), col.as_text());
    let column = column_of(&rec.sd.cols, places, col.as_text());
    Ok(check_found(key, column, value).is_ok())
}
