//! Copies of the calls on statistics of columns.

ghost use Rattle.std.specs.Prelude.{◌≡◌, IfOk};

use crate::{Call, StatsArg};
use cat_values::{CopyParts, NoMemory, Text, Texts, TryCopy};
use std::alloc::Global;

pub(crate) fn copy_update_table_statistics(
    stats: &StatsArg,
    alloc: Global,
) -> Result<Call, NoMemory>
    ensures { IfOk result (λ made. made ≡ Call.UpdateTableColumnStatistics stats.now) }
{
    match stats.copy(alloc) {
        Ok(stats) => Ok(Call::UpdateTableColumnStatistics { stats }),
        Err(NoMemory) => Err(NoMemory),
    }
}

pub(crate) fn copy_update_partition_statistics(
    stats: &StatsArg,
    alloc: Global,
) -> Result<Call, NoMemory>
    ensures { IfOk result (λ made. made ≡ Call.UpdatePartitionColumnStatistics stats.now) }
{
    match stats.copy(alloc) {
        Ok(stats) => Ok(Call::UpdatePartitionColumnStatistics { stats }),
        Err(NoMemory) => Err(NoMemory),
    }
}

pub(crate) fn copy_get_table_statistics(
    db: &Text,
    table: &Text,
    col: &Text,
    alloc: Global,
) -> Result<Call, NoMemory>
    ensures { IfOk result (λ made. made ≡ Call.GetTableColumnStatistics db.now table.now col.now) }
{
    match (db, table, col).copy_parts(alloc) {
        Ok((db, table, col)) => Ok(Call::GetTableColumnStatistics { db, table, col }),
        Err(NoMemory) => Err(NoMemory),
    }
}

pub(crate) fn copy_get_partition_statistics(
    db: &Text,
    table: &Text,
    part: &Text,
    col: &Text,
    alloc: Global,
) -> Result<Call, NoMemory>
    ensures { IfOk result (λ made. made ≡ Call.GetPartitionColumnStatistics db.now table.now part.now col.now) }
{
    match (db, table, part, col).copy_parts(alloc) {
        Ok((db, table, part, col)) => Ok(Call::GetPartitionColumnStatistics {
            db,
            table,
            part,
            col,
        }),
        Err(NoMemory) => Err(NoMemory),
    }
}

pub(crate) fn copy_delete_table_statistics(
    db: &Text,
    table: &Text,
    col: &Option<Text>,
    alloc: Global,
) -> Result<Call, NoMemory>
    ensures { IfOk result (λ made. made ≡ Call.DeleteTableColumnStatistics db.now table.now col.now) }
{
    match (db, table, col).copy_parts(alloc) {
        Ok((db, table, col)) => Ok(Call::DeleteTableColumnStatistics { db, table, col }),
        Err(NoMemory) => Err(NoMemory),
    }
}

pub(crate) fn copy_delete_partition_statistics(
    db: &Text,
    table: &Text,
    part: &Text,
    col: &Option<Text>,
    alloc: Global,
) -> Result<Call, NoMemory>
    ensures { IfOk result (λ made. made ≡ Call.DeletePartitionColumnStatistics db.now table.now part.now col.now) }
{
    match (db, table, part, col).copy_parts(alloc) {
        Ok((db, table, part, col)) => Ok(Call::DeletePartitionColumnStatistics {
            db,
            table,
            part,
            col,
        }),
        Err(NoMemory) => Err(NoMemory),
    }
}

pub(crate) fn copy_get_statistics_req(
    db: &Option<Text>,
    table: &Option<Text>,
    cols: &Texts,
    alloc: Global,
) -> Result<Call, NoMemory>
    ensures { IfOk result (λ made. made ≡ Call.GetTableStatisticsReq db.now table.now cols.now) }
{
    match (db, table, cols).copy_parts(alloc) {
        Ok((db, table, cols)) => Ok(Call::GetTableStatisticsReq { db, table, cols }),
        Err(NoMemory) => Err(NoMemory),
    }
}
