//! What a call is refused for, changes and results in.

ghost use Rattle.std.specs.Prelude.{◌≡◌, None, Some, true};
ghost use Rattle.cat_objects.specs.Changes.{takes_call};
ghost use Rattle.rulings.specs.Decisions.{Decides, IfChange, decided_by};
ghost use Rattle.catalogue.specs.Polls.{poll_of};
ghost use Rattle.catalogue.specs.Rules.{decision, lacks_number, ruled};

use cat_objects::{Cat, LAST_EVENT};
use cat_types::{Call, Change, Reply};
use filter_rules::{get_num_partitions_by_filter, get_partitions_by_filter};
use part_rules::{
    add_partition, add_partitions, add_requested, alter_partition, alter_partitions,
    append_partition, drop_partition, get_partition, get_partition_names, get_partition_names_ps,
    get_partitions, get_partitions_by_names, get_partitions_ps, rename_partition,
};
use rulings::{Bars, Decided, Meant, Refusal, refused};
use stat_rules::{
    delete_partition_column_statistics, delete_table_column_statistics,
    get_partition_column_statistics, get_table_column_statistics, get_table_statistics_req,
    update_partition_column_statistics, update_table_column_statistics,
};
use std::alloc::Global;
use table_rules::{
    alter_database, alter_table, create_database, create_table, drop_database, drop_table,
    get_all_databases, get_all_tables, get_database, get_databases, get_fields, get_schema,
    get_table, get_table_req, get_tables, get_tables_named,
};

/// Decides a call over a catalogue: its refusal, or its change and its result. It needs a call that
/// is no poll. `bars` says what bars changes, `moment` is the time in seconds since 1970, and `next`
/// the number that an event of this call would get. A change that it tells has one operation, or puts
/// partitions under one table, and it can be taken.
pub fn decide(alloc: Global, cat: &Cat, bars: &Bars, call: &Call, moment: u64, next: u64) -> Decided
    requires { poll_of call.now ≡ None }
    ensures decided { Decides (decision cat.now bars.now call.now moment next) result }
    ensures taken { IfChange result (λ change. takes_call cat.now next change ≡ true) }
{
    decide_call(alloc, cat, bars, call, moment, next)
}

// Decides a call: by its own rules, and then by whether a number is left for its event.
fn decide_call(
    alloc: Global,
    cat: &Cat,
    bars: &Bars,
    call: &Call,
    moment: u64,
    next: u64,
) -> Decided
    requires { poll_of call.now ≡ None }
    ensures { Decides (decision cat.now bars.now call.now moment next) result }
{
    match decide_by_rules(alloc, cat, bars, call, moment, next) {
        Decided::Change(change, reply) => number_event(alloc, change, reply, next),
        Decided::Reply(reply) => Decided::Reply(reply),
        Decided::NoMemory => Decided::NoMemory,
    }
}

// Accepts a change, unless it makes an event for which no number is left.
fn number_event(alloc: Global, change: Change, reply: Reply, next: u64) -> Decided
    ensures { Decides (decided_by (lacks_number (Some change) next) (Some change) reply) result }
{
    if !change.ops.is_empty() && next > LAST_EVENT {
        return refused(alloc, Refusal::EventNumbersUsedUp);
    }
    Decided::Change(change, reply)
}

// Decides a call by its own rules.
fn decide_by_rules(
    alloc: Global,
    cat: &Cat,
    bars: &Bars,
    call: &Call,
    moment: u64,
    next: u64,
) -> Decided
    requires { poll_of call.now ≡ None }
    ensures { Decides (ruled cat.now bars.now call.now moment next) result }
{
    match call {
        Call::GetAllDatabases => get_all_databases(alloc, cat),
        Call::GetDatabase { name } => get_database(alloc, cat, bars, name),
        Call::CreateDatabase { db } => create_database(alloc, cat, db, next),
        Call::DropDatabase { name, cascade } => drop_database(alloc, cat, bars, name, *cascade),
        Call::GetDatabases { pattern } => get_databases(alloc, cat, pattern),
        Call::AlterDatabase { name, db } => alter_database(alloc, cat, bars, name, db),
        Call::CreateTable { table } => create_table(alloc, cat, bars, table, moment, next),
        Call::DropTable { db, table } => drop_table(alloc, cat, bars, db, table),
        Call::GetTables { db, pattern } => get_tables(alloc, cat, db, pattern),
        Call::GetAllTables { db } => get_all_tables(alloc, cat, db),
        Call::GetTable { db, table } => get_table(alloc, cat, db, table),
        Call::GetTableReq { db, table } => get_table_req(alloc, cat, db, table),
        Call::GetTableObjectsByName { db, tables } => get_tables_named(alloc, cat, db, tables),
        Call::AlterTable { db, table, new } => {
            alter_table(alloc, cat, bars, db, table, new, moment)
        }
        Call::GetFields { db, table } => get_fields(alloc, cat, db, table),
        Call::GetSchema { db, table } => get_schema(alloc, cat, db, table),
        Call::AddPartition { part } => add_partition(alloc, cat, bars, part, moment),
        Call::AddPartitions { parts } => add_partitions(alloc, cat, bars, parts, moment),
        Call::AddPartitionsReq {
            db,
            table,
            parts,
            if_not_exists,
            need_result,
        } => add_requested(
            alloc,
            cat,
            bars,
            db,
            table,
            parts,
            *if_not_exists,
            *need_result,
            moment,
        ),
        Call::AppendPartition { db, table, values } => {
            let meant = Meant::Values(values);
            append_partition(alloc, cat, bars, db, table, &meant, moment)
        }
        Call::AppendPartitionByName { db, table, name } => {
            append_partition(alloc, cat, bars, db, table, &Meant::Name(name), moment)
        }
        Call::DropPartition { db, table, values } => {
            drop_partition(alloc, cat, bars, db, table, &Meant::Values(values))
        }
        Call::DropPartitionByName { db, table, name } => {
            drop_partition(alloc, cat, bars, db, table, &Meant::Name(name))
        }
        Call::GetPartition { db, table, values } => {
            get_partition(alloc, cat, db, table, &Meant::Values(values))
        }
        Call::GetPartitionByName { db, table, name } => {
            get_partition(alloc, cat, db, table, &Meant::Name(name))
        }
        Call::GetPartitions { db, table, max } => get_partitions(alloc, cat, db, table, *max),
        Call::GetPartitionNames { db, table, max } => {
            get_partition_names(alloc, cat, db, table, *max)
        }
        Call::GetPartitionsPs {
            db,
            table,
            values,
            max,
        } => get_partitions_ps(alloc, cat, db, table, values, *max),
        Call::GetPartitionNamesPs {
            db,
            table,
            values,
            max,
        } => get_partition_names_ps(alloc, cat, db, table, values, *max),
        Call::GetPartitionsByNames { db, table, names } => {
            get_partitions_by_names(alloc, cat, db, table, names)
        }
        Call::AlterPartition { db, table, part } => {
            alter_partition(alloc, cat, bars, db, table, part, moment)
        }
        Call::AlterPartitions { db, table, parts } => {
            alter_partitions(alloc, cat, bars, db, table, parts, moment)
        }
        Call::RenamePartition {
            db,
            table,
            values,
            part,
        } => rename_partition(alloc, cat, bars, db, table, values, part, moment),
        Call::GetPartitionsByFilter {
            db,
            table,
            filter,
            max,
        } => get_partitions_by_filter(alloc, cat, db, table, filter, *max),
        Call::GetNumPartitionsByFilter { db, table, filter } => {
            get_num_partitions_by_filter(alloc, cat, db, table, filter)
        }
        Call::UpdateTableColumnStatistics { stats } => {
            update_table_column_statistics(alloc, cat, bars, stats, moment)
        }
        Call::UpdatePartitionColumnStatistics { stats } => {
            update_partition_column_statistics(alloc, cat, bars, stats, moment)
        }
        Call::GetTableColumnStatistics { db, table, col } => {
            get_table_column_statistics(alloc, cat, db, table, col)
        }
        Call::GetPartitionColumnStatistics {
            db,
            table,
            part,
            col,
        } => get_partition_column_statistics(alloc, cat, db, table, part, col),
        Call::DeleteTableColumnStatistics { db, table, col } => {
            delete_table_column_statistics(alloc, cat, bars, db, table, col)
        }
        Call::DeletePartitionColumnStatistics {
            db,
            table,
            part,
            col,
        } => delete_partition_column_statistics(alloc, cat, bars, db, table, part, col),
        Call::GetTableStatisticsReq { db, table, cols } => {
            get_table_statistics_req(alloc, cat, db, table, cols)
        }
        Call::GetNextNotification { last: _, max: _ } => unreachable!(),
        Call::GetCurrentNotificationEventId => unreachable!(),
    }
}
