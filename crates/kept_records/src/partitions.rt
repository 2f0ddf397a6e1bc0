//! Records of partitions.

ghost use Rattle.std.specs.Prelude.{◌≡◌, IfOk};
ghost use Rattle.kept_records.specs.Partitions.{altered_part, appended_part, lower_storage_if_any, made_part, without_location};

use crate::dates::{Dated, cut_moment};
use crate::lowering::{InLower, NamesColumns};
use cat_values::{CopyParts, NoMemory, Params, PartRec, Stats, Storage, TableRec};
use std::alloc::Global;

impl NamesColumns for Option<Storage> {
    ghost lowered = { lower_storage_if_any };

    fn lower_names(&self, alloc: Global) -> Result<Option<Storage>, NoMemory> {
        match self {
            None => Ok(None),
            Some(sd) => Ok(Some(sd.lower_names(alloc)?)),
        }
    }
}

/// What a record is kept as of a partition that is made at this moment, in seconds since 1970.
pub fn made_part(alloc: Global, rec: &PartRec, moment: u64) -> Result<PartRec, NoMemory>
    ensures { IfOk result (λ made. made ≡ made_part rec.now moment) }
{
    let params = Dated {
        params: &rec.params,
        moment,
    };
    match (params, InLower(&rec.sd)).copy_parts(alloc) {
        Ok((params, sd)) => Ok(PartRec {
            created: cut_moment(moment),
            accessed: rec.accessed,
            sd,
            params,
            stats: Stats::new(alloc),
        }),
        Err(NoMemory) => Err(NoMemory),
    }
}

/// What a record is kept as of a partition that is altered at this moment. `old` is what was kept of
/// it so far.
pub fn altered_part(
    alloc: Global,
    old: &PartRec,
    rec: &PartRec,
    moment: u64,
) -> Result<PartRec, NoMemory>
    ensures { IfOk result (λ made. made ≡ altered_part old.now rec.now moment) }
{
    let params = Dated {
        params: &rec.params,
        moment,
    };
    match (params, &old.stats, InLower(&rec.sd)).copy_parts(alloc) {
        Ok((params, stats, sd)) => Ok(PartRec {
            created: old.created,
            accessed: rec.accessed,
            sd,
            params,
            stats,
        }),
        Err(NoMemory) => Err(NoMemory),
    }
}

/// What is kept of a partition that is made at this moment of its table alone.
pub fn appended_part(alloc: Global, table: &TableRec, moment: u64) -> Result<PartRec, NoMemory>
    ensures { IfOk result (λ made. made ≡ appended_part table.now moment) }
{
    let none = Params::new(alloc);
    let params = Dated {
        params: &none,
        moment,
    };
    let params = params.copy_parts(alloc)?;
    match unplaced_storage(alloc, &table.sd) {
        Ok(sd) => Ok(PartRec {
            created: cut_moment(moment),
            accessed: 0,
            sd: Some(sd),
            params,
            stats: Stats::new(alloc),
        }),
        Err(NoMemory) => Err(NoMemory),
    }
}

// A storage without its location.
fn unplaced_storage(alloc: Global, sd: &Storage) -> Result<Storage, NoMemory>
    ensures { IfOk result (λ made. made ≡ without_location sd.now) }
{
    match (
        (&sd.cols, &sd.input, &sd.output),
        (&sd.serde, &sd.bucket_cols, &sd.sort_cols),
        (&sd.params, &sd.skew),
    )
        .copy_parts(alloc)
    {
        Ok(((cols, input, output), (serde, bucket_cols, sort_cols), (params, skew))) => Ok(
            Storage {
                cols,
                location: None,
                input,
                output,
                compressed: sd.compressed,
                buckets: sd.buckets,
                serde,
                bucket_cols,
                sort_cols,
                params,
                skew,
                sub_dirs: sd.sub_dirs,
            },
        ),
        Err(NoMemory) => Err(NoMemory),
    }
}
