//! What a caller asks of the catalogue.

ghost use Rattle.std.specs.Prelude.{◌≡◌, IfOk};

use crate::part_calls::{
    copy_add_partition, copy_add_partitions, copy_add_partitions_req, copy_alter_partition,
    copy_alter_partitions, copy_append_partition, copy_append_partition_by_name,
    copy_drop_partition, copy_drop_partition_by_name, copy_get_num_partitions_by_filter,
    copy_get_partition, copy_get_partition_by_name, copy_get_partition_names,
    copy_get_partition_names_ps, copy_get_partitions, copy_get_partitions_by_filter,
    copy_get_partitions_by_names, copy_get_partitions_ps, copy_rename_partition,
};
use crate::stat_calls::{
    copy_delete_partition_statistics, copy_delete_table_statistics, copy_get_partition_statistics,
    copy_get_statistics_req, copy_get_table_statistics, copy_update_partition_statistics,
    copy_update_table_statistics,
};
use crate::{DbArg, PartArg, PartArgs, StatsArg, TableArg};
use cat_values::{CopyParts, NoMemory, Text, Texts, TryCopy};
use std::alloc::Global;

/// A call of the catalogue with its arguments.
#[derive(Drop)]
pub enum Call {
    /// The names of all databases.
    GetAllDatabases,
    /// The database with this name.
    GetDatabase {
        name: Text,
    },
    /// Makes a database.
    CreateDatabase {
        db: DbArg,
    },
    /// Drops a database, with all that it holds where `cascade` is set.
    DropDatabase {
        name: Text,
        cascade: bool,
    },
    /// The names of the databases that a pattern asks for.
    GetDatabases {
        pattern: Text,
    },
    /// Gives a database this record.
    AlterDatabase {
        name: Text,
        db: DbArg,
    },
    /// Makes a table.
    CreateTable {
        table: TableArg,
    },
    /// Drops a table with its partitions.
    DropTable {
        db: Text,
        table: Text,
    },
    /// The names of a database's tables that a pattern asks for.
    GetTables {
        db: Text,
        pattern: Text,
    },
    /// The names of all tables of a database.
    GetAllTables {
        db: Text,
    },
    /// The table with this name.
    GetTable {
        db: Text,
        table: Text,
    },
    /// The same, by a request whose names may be absent.
    GetTableReq {
        db: Option<Text>,
        table: Option<Text>,
    },
    /// Those of the named tables that there are, in the order of first asking.
    GetTableObjectsByName {
        db: Text,
        tables: Texts,
    },
    /// Gives a table this record, or another name with it.
    AlterTable {
        db: Text,
        table: Text,
        new: TableArg,
    },
    /// The columns of a table.
    GetFields {
        db: Text,
        table: Text,
    },
    /// The columns of a table, and behind them its partition keys.
    GetSchema {
        db: Text,
        table: Text,
    },
    /// Adds a partition.
    AddPartition {
        part: PartArg,
    },
    /// Adds partitions, all to the table that the first of them names.
    AddPartitions {
        parts: PartArgs,
    },
    /// Adds partitions by a request; with `if_not_exists` those that are there are passed over, and with
    /// `need_result` those that were added are told.
    AddPartitionsReq {
        db: Option<Text>,
        table: Option<Text>,
        parts: PartArgs,
        if_not_exists: bool,
        need_result: bool,
    },
    /// Adds a partition with these values, stored as its table is.
    AppendPartition {
        db: Text,
        table: Text,
        values: Texts,
    },
    /// The same by the partition's name.
    AppendPartitionByName {
        db: Text,
        table: Text,
        name: Text,
    },
    /// Drops the partition with these values.
    DropPartition {
        db: Text,
        table: Text,
        values: Texts,
    },
    /// The same by the partition's name.
    DropPartitionByName {
        db: Text,
        table: Text,
        name: Text,
    },
    /// The partition with these values.
    GetPartition {
        db: Text,
        table: Text,
        values: Texts,
    },
    /// The same by the partition's name.
    GetPartitionByName {
        db: Text,
        table: Text,
        name: Text,
    },
    /// The first `max` partitions of a table; all where `max` is negative.
    GetPartitions {
        db: Text,
        table: Text,
        max: i16,
    },
    /// The names of the same.
    GetPartitionNames {
        db: Text,
        table: Text,
        max: i16,
    },
    /// The first `max` partitions whose values begin so, where an empty text stands for any value; all
    /// of them where `max` is negative.
    GetPartitionsPs {
        db: Text,
        table: Text,
        values: Texts,
        max: i16,
    },
    /// The names of the same.
    GetPartitionNamesPs {
        db: Text,
        table: Text,
        values: Texts,
        max: i16,
    },
    /// The first `max` partitions for which a filter holds; all of them where `max` is negative.
    GetPartitionsByFilter {
        db: Text,
        table: Text,
        filter: Text,
        max: i16,
    },
    /// How many partitions there are for which a filter holds.
    GetNumPartitionsByFilter {
        db: Text,
        table: Text,
        filter: Text,
    },
    /// Those of the named partitions that there are, each once.
    GetPartitionsByNames {
        db: Text,
        table: Text,
        names: Texts,
    },
    /// Gives a partition this record.
    AlterPartition {
        db: Text,
        table: Text,
        part: PartArg,
    },
    /// Gives partitions these records.
    AlterPartitions {
        db: Text,
        table: Text,
        parts: PartArgs,
    },
    /// Gives the partition with these values this record, and other values with it.
    RenamePartition {
        db: Text,
        table: Text,
        values: Texts,
        part: PartArg,
    },
    /// Gives columns of a table these statistics.
    UpdateTableColumnStatistics {
        stats: StatsArg,
    },
    /// Gives columns of a partition these statistics.
    UpdatePartitionColumnStatistics {
        stats: StatsArg,
    },
    /// The statistics of a table's column.
    GetTableColumnStatistics {
        db: Text,
        table: Text,
        col: Text,
    },
    /// The statistics of a column of the partition with this name.
    GetPartitionColumnStatistics {
        db: Text,
        table: Text,
        part: Text,
        col: Text,
    },
    /// Takes off the statistics of a table's column; of all columns where `col` is absent.
    DeleteTableColumnStatistics {
        db: Text,
        table: Text,
        col: Option<Text>,
    },
    /// The same of the partition with this name.
    DeletePartitionColumnStatistics {
        db: Text,
        table: Text,
        part: Text,
        col: Option<Text>,
    },
    /// The statistics of those of a table's columns that have some, in the order of first asking, by a
    /// request whose names may be absent.
    GetTableStatisticsReq {
        db: Option<Text>,
        table: Option<Text>,
        cols: Texts,
    },
    /// The kept events above the number `last`, `max` of them at most; all where `max` is absent, 0
    /// or negative.
    GetNextNotification {
        last: i64,
        max: Option<i32>,
    },
    /// The number of the newest event.
    GetCurrentNotificationEventId,
}

impl TryCopy for Call {
    fn copy(&self, alloc: Global) -> Result<Call, NoMemory> {
        match self {
            Call::GetAllDatabases => Ok(Call::GetAllDatabases),
            Call::GetCurrentNotificationEventId => Ok(Call::GetCurrentNotificationEventId),
            Call::GetNextNotification { last, max } => Ok(Call::GetNextNotification {
                last: *last,
                max: *max,
            }),
            Call::GetDatabase { name } => copy_get_database(name, alloc),
            Call::CreateDatabase { db } => copy_create_database(db, alloc),
            Call::DropDatabase { name, cascade } => copy_drop_database(name, *cascade, alloc),
            Call::GetDatabases { pattern } => copy_get_databases(pattern, alloc),
            Call::AlterDatabase { name, db } => copy_alter_database(name, db, alloc),
            Call::CreateTable { table } => copy_create_table(table, alloc),
            Call::DropTable { db, table } => copy_drop_table(db, table, alloc),
            Call::GetTables { db, pattern } => copy_get_tables(db, pattern, alloc),
            Call::GetAllTables { db } => copy_get_all_tables(db, alloc),
            Call::GetTable { db, table } => copy_get_table(db, table, alloc),
            Call::GetTableReq { db, table } => copy_get_table_req(db, table, alloc),
            Call::GetTableObjectsByName { db, tables } => copy_get_tables_named(db, tables, alloc),
            Call::AlterTable { db, table, new } => copy_alter_table(db, table, new, alloc),
            Call::GetFields { db, table } => copy_get_fields(db, table, alloc),
            Call::GetSchema { db, table } => copy_get_schema(db, table, alloc),
            Call::AddPartition { part } => copy_add_partition(part, alloc),
            Call::AddPartitions { parts } => copy_add_partitions(parts, alloc),
            Call::AddPartitionsReq {
                db,
                table,
                parts,
                if_not_exists,
                need_result,
            } => copy_add_partitions_req(db, table, parts, *if_not_exists, *need_result, alloc),
            Call::AppendPartition { db, table, values } => copy_append_partition(
                db, table, values, alloc,
            ),
            Call::AppendPartitionByName { db, table, name } => copy_append_partition_by_name(
                db, table, name, alloc,
            ),
            Call::DropPartition { db, table, values } => copy_drop_partition(
                db, table, values, alloc,
            ),
            Call::DropPartitionByName { db, table, name } => copy_drop_partition_by_name(
                db, table, name, alloc,
            ),
            Call::GetPartition { db, table, values } => copy_get_partition(
                db, table, values, alloc,
            ),
            Call::GetPartitionByName { db, table, name } => copy_get_partition_by_name(
                db, table, name, alloc,
            ),
            Call::GetPartitions { db, table, max } => copy_get_partitions(db, table, *max, alloc),
            Call::GetPartitionNames { db, table, max } => copy_get_partition_names(
                db, table, *max, alloc,
            ),
            Call::GetPartitionsPs {
                db,
                table,
                values,
                max,
            } => copy_get_partitions_ps(db, table, values, *max, alloc),
            Call::GetPartitionNamesPs {
                db,
                table,
                values,
                max,
            } => copy_get_partition_names_ps(db, table, values, *max, alloc),
            Call::GetPartitionsByFilter {
                db,
                table,
                filter,
                max,
            } => copy_get_partitions_by_filter(db, table, filter, *max, alloc),
            Call::GetNumPartitionsByFilter { db, table, filter } => {
                copy_get_num_partitions_by_filter(db, table, filter, alloc)
            }
            Call::GetPartitionsByNames { db, table, names } => copy_get_partitions_by_names(
                db, table, names, alloc,
            ),
            Call::AlterPartition { db, table, part } => copy_alter_partition(
                db, table, part, alloc,
            ),
            Call::AlterPartitions { db, table, parts } => copy_alter_partitions(
                db, table, parts, alloc,
            ),
            Call::RenamePartition {
                db,
                table,
                values,
                part,
            } => copy_rename_partition(db, table, values, part, alloc),
            Call::UpdateTableColumnStatistics { stats } => copy_update_table_statistics(
                stats, alloc,
            ),
            Call::UpdatePartitionColumnStatistics { stats } => copy_update_partition_statistics(
                stats, alloc,
            ),
            Call::GetTableColumnStatistics { db, table, col } => copy_get_table_statistics(
                db, table, col, alloc,
            ),
            Call::GetPartitionColumnStatistics {
                db,
                table,
                part,
                col,
            } => copy_get_partition_statistics(db, table, part, col, alloc),
            Call::DeleteTableColumnStatistics { db, table, col } => copy_delete_table_statistics(
                db, table, col, alloc,
            ),
            Call::DeletePartitionColumnStatistics {
                db,
                table,
                part,
                col,
            } => copy_delete_partition_statistics(db, table, part, col, alloc),
            Call::GetTableStatisticsReq { db, table, cols } => copy_get_statistics_req(
                db, table, cols, alloc,
            ),
        }
    }
}

fn copy_get_database(name: &Text, alloc: Global) -> Result<Call, NoMemory>
    ensures { IfOk result (λ made. made ≡ Call.GetDatabase name.now) }
{
    match name.copy(alloc) {
        Ok(name) => Ok(Call::GetDatabase { name }),
        Err(NoMemory) => Err(NoMemory),
    }
}

fn copy_create_database(db: &DbArg, alloc: Global) -> Result<Call, NoMemory>
    ensures { IfOk result (λ made. made ≡ Call.CreateDatabase db.now) }
{
    match db.copy(alloc) {
        Ok(db) => Ok(Call::CreateDatabase { db }),
        Err(NoMemory) => Err(NoMemory),
    }
}

fn copy_drop_database(name: &Text, cascade: bool, alloc: Global) -> Result<Call, NoMemory>
    ensures { IfOk result (λ made. made ≡ Call.DropDatabase name.now cascade) }
{
    match name.copy(alloc) {
        Ok(name) => Ok(Call::DropDatabase { name, cascade }),
        Err(NoMemory) => Err(NoMemory),
    }
}

fn copy_get_databases(pattern: &Text, alloc: Global) -> Result<Call, NoMemory>
    ensures { IfOk result (λ made. made ≡ Call.GetDatabases pattern.now) }
{
    match pattern.copy(alloc) {
        Ok(pattern) => Ok(Call::GetDatabases { pattern }),
        Err(NoMemory) => Err(NoMemory),
    }
}

fn copy_alter_database(name: &Text, db: &DbArg, alloc: Global) -> Result<Call, NoMemory>
    ensures { IfOk result (λ made. made ≡ Call.AlterDatabase name.now db.now) }
{
    match (name, db).copy_parts(alloc) {
        Ok((name, db)) => Ok(Call::AlterDatabase { name, db }),
        Err(NoMemory) => Err(NoMemory),
    }
}

fn copy_create_table(table: &TableArg, alloc: Global) -> Result<Call, NoMemory>
    ensures { IfOk result (λ made. made ≡ Call.CreateTable table.now) }
{
    match table.copy(alloc) {
        Ok(table) => Ok(Call::CreateTable { table }),
        Err(NoMemory) => Err(NoMemory),
    }
}

fn copy_drop_table(db: &Text, table: &Text, alloc: Global) -> Result<Call, NoMemory>
    ensures { IfOk result (λ made. made ≡ Call.DropTable db.now table.now) }
{
    match (db, table).copy_parts(alloc) {
        Ok((db, table)) => Ok(Call::DropTable { db, table }),
        Err(NoMemory) => Err(NoMemory),
    }
}

fn copy_get_tables(db: &Text, pattern: &Text, alloc: Global) -> Result<Call, NoMemory>
    ensures { IfOk result (λ made. made ≡ Call.GetTables db.now pattern.now) }
{
    match (db, pattern).copy_parts(alloc) {
        Ok((db, pattern)) => Ok(Call::GetTables { db, pattern }),
        Err(NoMemory) => Err(NoMemory),
    }
}

fn copy_get_all_tables(db: &Text, alloc: Global) -> Result<Call, NoMemory>
    ensures { IfOk result (λ made. made ≡ Call.GetAllTables db.now) }
{
    match db.copy(alloc) {
        Ok(db) => Ok(Call::GetAllTables { db }),
        Err(NoMemory) => Err(NoMemory),
    }
}

fn copy_get_table(db: &Text, table: &Text, alloc: Global) -> Result<Call, NoMemory>
    ensures { IfOk result (λ made. made ≡ Call.GetTable db.now table.now) }
{
    match (db, table).copy_parts(alloc) {
        Ok((db, table)) => Ok(Call::GetTable { db, table }),
        Err(NoMemory) => Err(NoMemory),
    }
}

fn copy_get_table_req(
    db: &Option<Text>,
    table: &Option<Text>,
    alloc: Global,
) -> Result<Call, NoMemory>
    ensures { IfOk result (λ made. made ≡ Call.GetTableReq db.now table.now) }
{
    match (db, table).copy_parts(alloc) {
        Ok((db, table)) => Ok(Call::GetTableReq { db, table }),
        Err(NoMemory) => Err(NoMemory),
    }
}

fn copy_get_tables_named(db: &Text, tables: &Texts, alloc: Global) -> Result<Call, NoMemory>
    ensures { IfOk result (λ made. made ≡ Call.GetTableObjectsByName db.now tables.now) }
{
    match (db, tables).copy_parts(alloc) {
        Ok((db, tables)) => Ok(Call::GetTableObjectsByName { db, tables }),
        Err(NoMemory) => Err(NoMemory),
    }
}

fn copy_alter_table(
    db: &Text,
    table: &Text,
    new: &TableArg,
    alloc: Global,
) -> Result<Call, NoMemory>
    ensures { IfOk result (λ made. made ≡ Call.AlterTable db.now table.now new.now) }
{
    match (db, table, new).copy_parts(alloc) {
        Ok((db, table, new)) => Ok(Call::AlterTable { db, table, new }),
        Err(NoMemory) => Err(NoMemory),
    }
}

fn copy_get_fields(db: &Text, table: &Text, alloc: Global) -> Result<Call, NoMemory>
    ensures { IfOk result (λ made. made ≡ Call.GetFields db.now table.now) }
{
    match (db, table).copy_parts(alloc) {
        Ok((db, table)) => Ok(Call::GetFields { db, table }),
        Err(NoMemory) => Err(NoMemory),
    }
}

fn copy_get_schema(db: &Text, table: &Text, alloc: Global) -> Result<Call, NoMemory>
    ensures { IfOk result (λ made. made ≡ Call.GetSchema db.now table.now) }
{
    match (db, table).copy_parts(alloc) {
        Ok((db, table)) => Ok(Call::GetSchema { db, table }),
        Err(NoMemory) => Err(NoMemory),
    }
}
