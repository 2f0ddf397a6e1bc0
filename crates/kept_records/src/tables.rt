//! Records of tables.

ghost use Rattle.std.specs.Prelude.{◌≡◌, IfOk};
ghost use Rattle.kept_records.specs.Tables.{altered_table, made_table};

use crate::dates::{Dated, cut_moment};
use crate::lowering::InLower;
use crate::statistics::kept_stats;
use cat_values::{CopyParts, NoMemory, Stats, TableRec};
use std::alloc::Global;

/// What a record is kept as of a table that is made at this moment, in seconds since 1970.
pub fn made_table(alloc: Global, rec: &TableRec, moment: u64) -> Result<TableRec, NoMemory>
    ensures { IfOk result (λ made. made ≡ made_table rec.now moment) }
{
    let params = Dated {
        params: &rec.params,
        moment,
    };
    match (
        (&rec.owner, InLower(&rec.sd), InLower(&rec.keys)),
        (params, &rec.view_original, &rec.view_expanded),
        &rec.kind,
    )
        .copy_parts(alloc)
    {
        Ok(((owner, sd, keys), (params, view_original, view_expanded), kind)) => Ok(TableRec {
            owner,
            created: cut_moment(moment),
            accessed: rec.accessed,
            retention: rec.retention,
            sd,
            keys,
            params,
            view_original,
            view_expanded,
            kind,
            stats: Stats::new(alloc),
        }),
        Err(NoMemory) => Err(NoMemory),
    }
}

/// What a record is kept as of a table that is altered at this moment. `old` is what was kept of it
/// so far.
pub fn altered_table(
    alloc: Global,
    old: &TableRec,
    rec: &TableRec,
    moment: u64,
) -> Result<TableRec, NoMemory>
    ensures { IfOk result (λ made. made ≡ altered_table old.now rec.now moment) }
{
    let mut made = made_table(alloc, rec, moment)?;
    made.created = old.created;
    made.stats = kept_stats(alloc, &old.sd.cols, &made.sd.cols, &old.stats)?;
    Ok(made)
}
