//! Statistics as they are kept, and the records that have them.

ghost use Rattle.std.specs.Prelude.{◌≡◌, IfOk, OnOk, None, Some, if◌then◌else◌};
ghost use Rattle.stat_rules.specs.Records.{has_stats, part_with, put_all, put_named, table_with, without_stats};

use cat_types::{
    CopyParts, LowerName, NoMemory, PartRec, StatArg, StatArgs, StatRec, Stats, TableRec, Text,
    TryCopy,
};
use col_stats::{put, remove};
use std::alloc::Global;

// Statistics with all that are handed in, over those that are kept.
pub(crate) fn put_all(
    alloc: Global,
    stats: &Stats,
    objects: &StatArgs,
    at: i64,
) -> Result<Stats, NoMemory>
    ensures { IfOk result (λ made. made ≡ put_all at stats.now objects.now) }
{
    let mut kept = stats.copy(alloc)?;
    for object in objects.as_slice() {
        put_named(alloc, &mut kept, object, at)?;
    }
    Ok(kept)
}

// Puts the statistics of one column over those that are kept of it.
fn put_named(alloc: Global, kept: &mut Stats, object: &StatArg, at: i64) -> Result<(), NoMemory>
    ensures { OnOk result (kept.new ≡ put_named at kept.old object.now.col object.now.value) }
{
    let Some(col) = &object.col else {
        return Ok(());
    };
    let Some(value) = &object.value else {
        return Ok(());
    };
    let col = LowerName::of(alloc, col)?.into_text(alloc)?;
    let rec = StatRec {
        analyzed: at,
        value: *value,
    };
    put(kept, col, rec)
}

// What is left of statistics without those of a column, or of all where none is named; unless there
// are none to delete.
pub(crate) fn left_stats(
    alloc: Global,
    stats: &Stats,
    col: &Option<Text>,
) -> Result<Option<Stats>, NoMemory>
    ensures { IfOk result (λ left. left ≡ (if has_stats col.now stats.now then Some (without_stats col.now stats.now) else None)) }
{
    match col {
        Some(col) => without_column(alloc, stats, col),
        None => Ok((stats.len() > 0).then_some(Stats::new(alloc))),
    }
}

// What is left of statistics without those of a column, unless there are none of it.
fn without_column(alloc: Global, stats: &Stats, col: &Text) -> Result<Option<Stats>, NoMemory>
    ensures { IfOk result (λ left. left ≡ (if has_stats (Some col.now) stats.now then Some (without_stats (Some col.now) stats.now) else None)) }
{
    let col = LowerName::of(alloc, col)?;
    if stats.get(col.as_text()).is_none() {
        return Ok(None);
    }
    let mut left = stats.copy(alloc)?;
    let _ = remove(&mut left, col.as_text());
    Ok(Some(left))
}

// A copy of a table's record, with these statistics.
pub(crate) fn table_with(alloc: Global, rec: &TableRec, stats: Stats) -> Result<TableRec, NoMemory>
    ensures { IfOk result (λ made. made ≡ table_with stats rec.now) }
{
    match (
        (&rec.owner, &rec.sd, &rec.keys),
        (&rec.params, &rec.view_original, &rec.view_expanded),
        &rec.kind,
    )
        .copy_parts(alloc)
    {
        Ok(((owner, sd, keys), (params, view_original, view_expanded), kind)) => Ok(TableRec {
            owner,
            created: rec.created,
            accessed: rec.accessed,
            retention: rec.retention,
            sd,
            keys,
            params,
            view_original,
            view_expanded,
            kind,
            stats,
        }),
        Err(NoMemory) => Err(NoMemory),
    }
}

// A copy of a partition's record, with these statistics.
pub(crate) fn part_with(alloc: Global, rec: &PartRec, stats: Stats) -> Result<PartRec, NoMemory>
    ensures { IfOk result (λ made. made ≡ part_with stats rec.now) }
{
    match (&rec.sd, &rec.params).copy_parts(alloc) {
        Ok((sd, params)) => Ok(PartRec {
            created: rec.created,
            accessed: rec.accessed,
            sd,
            params,
            stats,
        }),
        Err(NoMemory) => Err(NoMemory),
    }
}
