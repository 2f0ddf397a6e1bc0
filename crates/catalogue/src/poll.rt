//! The calls by which a follower polls.

ghost use Rattle.std.specs.Prelude.{◌≡◌};
ghost use Rattle.catalogue.specs.Polls.{poll_of};

use cat_types::Call;

/// What a follower polls for.
#[derive(Drop)]
pub enum Poll {
    /// The kept events above the number `last`, `max` of them at most; all where `max` is absent, 0
    /// or negative.
    After { last: i64, max: Option<i32> },
    /// The number of the newest event.
    Newest,
}

/// The poll that a call is, where it is one.
pub fn poll_of(call: &Call) -> Option<Poll>
    ensures { result ≡ poll_of call.now }
{
    match call {
        Call::GetAllDatabases => None,
        Call::GetDatabase { name: _ } => None,
        Call::CreateDatabase { db: _ } => None,
        Call::DropDatabase {
            name: _,
            cascade: _,
        } => None,
        Call::GetDatabases { pattern: _ } => None,
        Call::AlterDatabase { name: _, db: _ } => None,
        Call::CreateTable { table: _ } => None,
        Call::DropTable { db: _, table: _ } => None,
        Call::GetTables { db: _, pattern: _ } => None,
        Call::GetAllTables { db: _ } => None,
        Call::GetTable { db: _, table: _ } => None,
        Call::GetTableReq { db: _, table: _ } => None,
        Call::GetTableObjectsByName { db: _, tables: _ } => None,
        Call::AlterTable {
            db: _,
            table: _,
            new: _,
        } => None,
        Call::GetFields { db: _, table: _ } => None,
        Call::GetSchema { db: _, table: _ } => None,
        Call::AddPartition { part: _ } => None,
        Call::AddPartitions { parts: _ } => None,
        Call::AddPartitionsReq {
            db: _,
            table: _,
            parts: _,
            if_not_exists: _,
            need_result: _,
        } => None,
        Call::AppendPartition {
            db: _,
            table: _,
            values: _,
        } => None,
        Call::AppendPartitionByName {
            db: _,
            table: _,
            name: _,
        } => None,
        Call::DropPartition {
            db: _,
            table: _,
            values: _,
        } => None,
        Call::DropPartitionByName {
            db: _,
            table: _,
            name: _,
        } => None,
        Call::GetPartition {
            db: _,
            table: _,
            values: _,
        } => None,
        Call::GetPartitionByName {
            db: _,
            table: _,
            name: _,
        } => None,
        Call::GetPartitions {
            db: _,
            table: _,
            max: _,
        } => None,
        Call::GetPartitionNames {
            db: _,
            table: _,
            max: _,
        } => None,
        Call::GetPartitionsPs {
            db: _,
            table: _,
            values: _,
            max: _,
        } => None,
        Call::GetPartitionNamesPs {
            db: _,
            table: _,
            values: _,
            max: _,
        } => None,
        Call::GetPartitionsByNames {
            db: _,
            table: _,
            names: _,
        } => None,
        Call::AlterPartition {
            db: _,
            table: _,
            part: _,
        } => None,
        Call::AlterPartitions {
            db: _,
            table: _,
            parts: _,
        } => None,
        Call::RenamePartition {
            db: _,
            table: _,
            values: _,
            part: _,
        } => None,
        Call::GetPartitionsByFilter {
            db: _,
            table: _,
            filter: _,
            max: _,
        } => None,
        Call::GetNumPartitionsByFilter {
            db: _,
            table: _,
            filter: _,
        } => None,
        Call::UpdateTableColumnStatistics { stats: _ } => None,
        Call::UpdatePartitionColumnStatistics { stats: _ } => None,
        Call::GetTableColumnStatistics {
            db: _,
            table: _,
            col: _,
        } => None,
        Call::GetPartitionColumnStatistics {
            db: _,
            table: _,
            part: _,
            col: _,
        } => None,
        Call::DeleteTableColumnStatistics {
            db: _,
            table: _,
            col: _,
        } => None,
        Call::DeletePartitionColumnStatistics {
            db: _,
            table: _,
            part: _,
            col: _,
        } => None,
        Call::GetTableStatisticsReq {
            db: _,
            table: _,
            cols: _,
        } => None,
        Call::GetNextNotification { last, max } => Some(Poll::After {
            last: *last,
            max: *max,
        }),
        Call::GetCurrentNotificationEventId => Some(Poll::Newest),
    }
}
