//! Copies of the calls on partitions.

ghost use Rattle.std.specs.Prelude.{◌≡◌, IfOk};

use crate::{Call, PartArg, PartArgs};
use cat_values::{CopyParts, NoMemory, Text, Texts, TryCopy};
use std::alloc::Global;

pub(crate) fn copy_add_partition(part: &PartArg, alloc: Global) -> Result<Call, NoMemory>
    ensures { IfOk result (λ made. made ≡ Call.AddPartition part.now) }
{
    match part.copy(alloc) {
        Ok(part) => Ok(Call::AddPartition { part }),
        Err(NoMemory) => Err(NoMemory),
    }
}

pub(crate) fn copy_add_partitions(parts: &PartArgs, alloc: Global) -> Result<Call, NoMemory>
    ensures { IfOk result (λ made. made ≡ Call.AddPartitions parts.now) }
{
    match parts.copy(alloc) {
        Ok(parts) => Ok(Call::AddPartitions { parts }),
        Err(NoMemory) => Err(NoMemory),
    }
}

pub(crate) fn copy_add_partitions_req(
    db: &Option<Text>,
    table: &Option<Text>,
    parts: &PartArgs,
    if_not_exists: bool,
    need_result: bool,
    alloc: Global,
) -> Result<Call, NoMemory>
    ensures { IfOk result (λ made. made ≡ Call.AddPartitionsReq db.now table.now parts.now if_not_exists need_result) }
{
    match (db, table, parts).copy_parts(alloc) {
        Ok((db, table, parts)) => Ok(Call::AddPartitionsReq {
            db,
            table,
            parts,
            if_not_exists,
            need_result,
        }),
        Err(NoMemory) => Err(NoMemory),
    }
}

pub(crate) fn copy_append_partition(
    db: &Text,
    table: &Text,
    values: &Texts,
    alloc: Global,
) -> Result<Call, NoMemory>
    ensures { IfOk result (λ made. made ≡ Call.AppendPartition db.now table.now values.now) }
{
    match (db, table, values).copy_parts(alloc) {
        Ok((db, table, values)) => Ok(Call::AppendPartition { db, table, values }),
        Err(NoMemory) => Err(NoMemory),
    }
}

pub(crate) fn copy_append_partition_by_name(
    db: &Text,
    table: &Text,
    name: &Text,
    alloc: Global,
) -> Result<Call, NoMemory>
    ensures { IfOk result (λ made. made ≡ Call.AppendPartitionByName db.now table.now name.now) }
{
    match (db, table, name).copy_parts(alloc) {
        Ok((db, table, name)) => Ok(Call::AppendPartitionByName { db, table, name }),
        Err(NoMemory) => Err(NoMemory),
    }
}

pub(crate) fn copy_drop_partition(
    db: &Text,
    table: &Text,
    values: &Texts,
    alloc: Global,
) -> Result<Call, NoMemory>
    ensures { IfOk result (λ made. made ≡ Call.DropPartition db.now table.now values.now) }
{
    match (db, table, values).copy_parts(alloc) {
        Ok((db, table, values)) => Ok(Call::DropPartition { db, table, values }),
        Err(NoMemory) => Err(NoMemory),
    }
}

pub(crate) fn copy_drop_partition_by_name(
    db: &Text,
    table: &Text,
    name: &Text,
    alloc: Global,
) -> Result<Call, NoMemory>
    ensures { IfOk result (λ made. made ≡ Call.DropPartitionByName db.now table.now name.now) }
{
    match (db, table, name).copy_parts(alloc) {
        Ok((db, table, name)) => Ok(Call::DropPartitionByName { db, table, name }),
        Err(NoMemory) => Err(NoMemory),
    }
}

pub(crate) fn copy_get_partition(
    db: &Text,
    table: &Text,
    values: &Texts,
    alloc: Global,
) -> Result<Call, NoMemory>
    ensures { IfOk result (λ made. made ≡ Call.GetPartition db.now table.now values.now) }
{
    match (db, table, values).copy_parts(alloc) {
        Ok((db, table, values)) => Ok(Call::GetPartition { db, table, values }),
        Err(NoMemory) => Err(NoMemory),
    }
}

pub(crate) fn copy_get_partition_by_name(
    db: &Text,
    table: &Text,
    name: &Text,
    alloc: Global,
) -> Result<Call, NoMemory>
    ensures { IfOk result (λ made. made ≡ Call.GetPartitionByName db.now table.now name.now) }
{
    match (db, table, name).copy_parts(alloc) {
        Ok((db, table, name)) => Ok(Call::GetPartitionByName { db, table, name }),
        Err(NoMemory) => Err(NoMemory),
    }
}

pub(crate) fn copy_get_partitions(
    db: &Text,
    table: &Text,
    max: i16,
    alloc: Global,
) -> Result<Call, NoMemory>
    ensures { IfOk result (λ made. made ≡ Call.GetPartitions db.now table.now max) }
{
    match (db, table).copy_parts(alloc) {
        Ok((db, table)) => Ok(Call::GetPartitions { db, table, max }),
        Err(NoMemory) => Err(NoMemory),
    }
}

pub(crate) fn copy_get_partition_names(
    db: &Text,
    table: &Text,
    max: i16,
    alloc: Global,
) -> Result<Call, NoMemory>
    ensures { IfOk result (λ made. made ≡ Call.GetPartitionNames db.now table.now max) }
{
    match (db, table).copy_parts(alloc) {
        Ok((db, table)) => Ok(Call::GetPartitionNames { db, table, max }),
        Err(NoMemory) => Err(NoMemory),
    }
}

pub(crate) fn copy_get_partitions_ps(
    db: &Text,
    table: &Text,
    values: &Texts,
    max: i16,
    alloc: Global,
) -> Result<Call, NoMemory>
    ensures { IfOk result (λ made. made ≡ Call.GetPartitionsPs db.now table.now values.now max) }
{
    match (db, table, values).copy_parts(alloc) {
        Ok((db, table, values)) => Ok(Call::GetPartitionsPs {
            db,
            table,
            values,
            max,
        }),
        Err(NoMemory) => Err(NoMemory),
    }
}

pub(crate) fn copy_get_partition_names_ps(
    db: &Text,
    table: &Text,
    values: &Texts,
    max: i16,
    alloc: Global,
) -> Result<Call, NoMemory>
    ensures { IfOk result (λ made. made ≡ Call.GetPartitionNamesPs db.now table.now values.now max) }
{
    match (db, table, values).copy_parts(alloc) {
        Ok((db, table, values)) => Ok(Call::GetPartitionNamesPs {
            db,
            table,
            values,
            max,
        }),
        Err(NoMemory) => Err(NoMemory),
    }
}

pub(crate) fn copy_get_partitions_by_filter(
    db: &Text,
    table: &Text,
    filter: &Text,
    max: i16,
    alloc: Global,
) -> Result<Call, NoMemory>
    ensures { IfOk result (λ made. made ≡ Call.GetPartitionsByFilter db.now table.now filter.now max) }
{
    match (db, table, filter).copy_parts(alloc) {
        Ok((db, table, filter)) => Ok(Call::GetPartitionsByFilter {
            db,
            table,
            filter,
            max,
        }),
        Err(NoMemory) => Err(NoMemory),
    }
}

pub(crate) fn copy_get_num_partitions_by_filter(
    db: &Text,
    table: &Text,
    filter: &Text,
    alloc: Global,
) -> Result<Call, NoMemory>
    ensures { IfOk result (λ made. made ≡ Call.GetNumPartitionsByFilter db.now table.now filter.now) }
{
    match (db, table, filter).copy_parts(alloc) {
        Ok((db, table, filter)) => Ok(Call::GetNumPartitionsByFilter { db, table, filter }),
        Err(NoMemory) => Err(NoMemory),
    }
}

pub(crate) fn copy_get_partitions_by_names(
    db: &Text,
    table: &Text,
    names: &Texts,
    alloc: Global,
) -> Result<Call, NoMemory>
    ensures { IfOk result (λ made. made ≡ Call.GetPartitionsByNames db.now table.now names.now) }
{
    match (db, table, names).copy_parts(alloc) {
        Ok((db, table, names)) => Ok(Call::GetPartitionsByNames { db, table, names }),
        Err(NoMemory) => Err(NoMemory),
    }
}

pub(crate) fn copy_alter_partition(
    db: &Text,
    table: &Text,
    part: &PartArg,
    alloc: Global,
) -> Result<Call, NoMemory>
    ensures { IfOk result (λ made. made ≡ Call.AlterPartition db.now table.now part.now) }
{
    match (db, table, part).copy_parts(alloc) {
        Ok((db, table, part)) => Ok(Call::AlterPartition { db, table, part }),
        Err(NoMemory) => Err(NoMemory),
    }
}

pub(crate) fn copy_alter_partitions(
    db: &Text,
    table: &Text,
    parts: &PartArgs,
    alloc: Global,
) -> Result<Call, NoMemory>
    ensures { IfOk result (λ made. made ≡ Call.AlterPartitions db.now table.now parts.now) }
{
    match (db, table, parts).copy_parts(alloc) {
        Ok((db, table, parts)) => Ok(Call::AlterPartitions { db, table, parts }),
        Err(NoMemory) => Err(NoMemory),
    }
}

pub(crate) fn copy_rename_partition(
    db: &Text,
    table: &Text,
    values: &Texts,
    part: &PartArg,
    alloc: Global,
) -> Result<Call, NoMemory>
    ensures { IfOk result (λ made. made ≡ Call.RenamePartition db.now table.now values.now part.now) }
{
    match (db, table, values, part).copy_parts(alloc) {
        Ok((db, table, values, part)) => Ok(Call::RenamePartition {
            db,
            table,
            values,
            part,
        }),
        Err(NoMemory) => Err(NoMemory),
    }
}
