//! Statistics of the columns that stay.

ghost use Rattle.std.specs.Prelude.{◌≡◌, IfOk};
ghost use Rattle.kept_records.specs.Tables.{keeps_column, kept_stats};

use cat_values::{Columns, NoMemory, StatRec, Stats, Text, TryCopy, find_column};
use std::alloc::Global;

// The statistics of the columns that keep name and type.
pub(crate) fn kept_stats(
    alloc: Global,
    old: &Columns,
    new: &Columns,
    stats: &Stats,
) -> Result<Stats, NoMemory>
    ensures { IfOk result (λ made. made ≡ kept_stats old.now new.now stats.now) }
{
    let mut kept = Stats::new(alloc);
    for (name, stat) in stats.iter() {
        if keeps_column(old, new, name) {
            let new_name = name.copy(alloc)?;
            kept.put(new_name, *stat)?;
        }
    }
    Ok(kept)
}

// Whether a column of this name is among the old ones and the new ones, with one type.
fn keeps_column(old: &Columns, new: &Columns, name: &Text) -> bool
    ensures { result ≡ keeps_column old.now new.now name.now }
{
    match (
        find_column(old.as_slice(), name),
        find_column(new.as_slice(), name),
    ) {
        (Some(before), Some(after)) => before.ty == after.ty,
        (Some(_), None) => false,
        (None, _) => false,
    }
}
