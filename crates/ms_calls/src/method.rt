//! The calls that are known.

ghost use Rattle.std.specs.Prelude.{◌≡◌, ◌<◌, length};
ghost use Rattle.ms_calls.specs.Methods.{database_named, event_named, exceptions_of, held_part_named, method_named, new_part_named, replication_named, result_type, server_named, statistics_named, table_named};

use crate::Exception;

/// A call of the metastore's service that is known, with or without a part of the catalogue.
#[derive(Clone, Copy, Debug, PartialEq, Eq)]
pub enum Method {
    GetName,
    GetStatus,
    Shutdown,
    SetUgi,
    GetAllFunctions,
    PartitionNameHasValidCharacters,
    PartitionNameToVals,
    PartitionNameToSpec,
    CreateDatabase,
    GetDatabase,
    DropDatabase,
    GetDatabases,
    GetAllDatabases,
    AlterDatabase,
    CreateTable,
    CreateTableWithEnvironmentContext,
    DropTable,
    DropTableWithEnvironmentContext,
    GetTables,
    GetAllTables,
    GetTable,
    GetTableReq,
    GetTableObjectsByName,
    AlterTable,
    AlterTableWithEnvironmentContext,
    GetFields,
    GetSchema,
    AddPartition,
    AddPartitionWithEnvironmentContext,
    AddPartitions,
    AddPartitionsReq,
    AppendPartition,
    AppendPartitionByName,
    DropPartition,
    DropPartitionWithEnvironmentContext,
    DropPartitionByName,
    GetPartition,
    GetPartitionByName,
    GetPartitions,
    GetPartitionNames,
    GetPartitionsPs,
    GetPartitionNamesPs,
    GetPartitionsByFilter,
    GetNumPartitionsByFilter,
    GetPartitionsByNames,
    AlterPartition,
    AlterPartitionWithEnvironmentContext,
    AlterPartitions,
    RenamePartition,
    UpdateTableColumnStatistics,
    UpdatePartitionColumnStatistics,
    GetTableColumnStatistics,
    GetPartitionColumnStatistics,
    DeleteTableColumnStatistics,
    DeletePartitionColumnStatistics,
    GetTableStatisticsReq,
    GetNextNotification,
    GetCurrentNotificationEventId,
    ReplDump,
    TrimEvents,
}

/// What stands under field 0 of the struct that replies to a call.
#[derive(Clone, Copy, Debug, PartialEq, Eq)]
pub enum ResultType {
    /// The call is never replied to.
    NoReply,
    /// No field: the call has no result.
    NoField,
    /// A struct without fields.
    EmptyStruct,
    /// One text.
    OneText,
    /// A list of texts.
    TextList,
    /// Yes or no.
    Flag,
    /// A map from texts to texts.
    TextMap,
    /// A number of four bytes.
    Int,
    /// A database.
    Database,
    /// One table.
    OneTable,
    /// A struct with one table in it.
    TableResult,
    /// A list of tables.
    TableList,
    /// A list of columns.
    ColumnList,
    /// One partition.
    OnePart,
    /// A list of partitions.
    PartList,
    /// A struct with a list of partitions in it, or without one.
    PartsResult,
    /// Statistics of columns, and of which table or partition they are.
    Statistics,
    /// A struct with a list of statistics of columns in it.
    StatisticsResult,
    /// Events, each with its message.
    Events,
    /// The number of the newest event.
    NewestEvent,
    /// A struct with the folder of a dump in it, and the number of the event up to which it goes.
    DumpResult,
    /// A number of eight bytes.
    Long,
}

/// The call whose messages have this name.
#[tactic(auto, unfolding(crate::specs::Methods::method_named))]
pub fn method_named(name: &str) -> Option<Method>
    ensures { result ≡ method_named name.now }
{
    if let Some(method) = server_named(name) {
        return Some(method);
    }
    if let Some(method) = database_named(name) {
        return Some(method);
    }
    if let Some(method) = table_named(name) {
        return Some(method);
    }
    if let Some(method) = new_part_named(name) {
        return Some(method);
    }
    if let Some(method) = held_part_named(name) {
        return Some(method);
    }
    if let Some(method) = statistics_named(name) {
        return Some(method);
    }
    if let Some(method) = event_named(name) {
        return Some(method);
    }
    replication_named(name)
}

// The call of the server itself whose messages have this name.
#[tactic(auto, unfolding(crate::specs::Methods::server_named))]
fn server_named(name: &str) -> Option<Method>
    ensures { result ≡ server_named name.now }
{
    match name {
        "getName" => Some(Method::GetName),
        "getStatus" => Some(Method::GetStatus),
        "shutdown" => Some(Method::Shutdown),
        "set_ugi" => Some(Method::SetUgi),
        "get_all_functions" => Some(Method::GetAllFunctions),
        "partition_name_has_valid_characters" => Some(Method::PartitionNameHasValidCharacters),
        "partition_name_to_vals" => Some(Method::PartitionNameToVals),
        "partition_name_to_spec" => Some(Method::PartitionNameToSpec),
        _ => None,
    }
}

// The call of databases whose messages have this name.
#[tactic(auto, unfolding(crate::specs::Methods::database_named))]
fn database_named(name: &str) -> Option<Method>
    ensures { result ≡ database_named name.now }
{
    match name {
        "create_database" => Some(Method::CreateDatabase),
        "get_database" => Some(Method::GetDatabase),
        "drop_database" => Some(Method::DropDatabase),
        "get_databases" => Some(Method::GetDatabases),
        "get_all_databases" => Some(Method::GetAllDatabases),
        "alter_database" => Some(Method::AlterDatabase),
        _ => None,
    }
}

// The call of tables whose messages have this name.
#[tactic(auto, unfolding(crate::specs::Methods::table_named))]
fn table_named(name: &str) -> Option<Method>
    ensures { result ≡ table_named name.now }
{
    match name {
        "create_table" => Some(Method::CreateTable),
        "create_table_with_environment_context" => Some(Method::CreateTableWithEnvironmentContext),
        "drop_table" => Some(Method::DropTable),
        "drop_table_with_environment_context" => Some(Method::DropTableWithEnvironmentContext),
        "get_tables" => Some(Method::GetTables),
        "get_all_tables" => Some(Method::GetAllTables),
        "get_table" => Some(Method::GetTable),
        "get_table_req" => Some(Method::GetTableReq),
        "get_table_objects_by_name" => Some(Method::GetTableObjectsByName),
        "alter_table" => Some(Method::AlterTable),
        "alter_table_with_environment_context" => Some(Method::AlterTableWithEnvironmentContext),
        "get_fields" => Some(Method::GetFields),
        "get_schema" => Some(Method::GetSchema),
        _ => None,
    }
}

// The call that adds or drops partitions whose messages have this name.
#[tactic(auto, unfolding(crate::specs::Methods::new_part_named))]
fn new_part_named(name: &str) -> Option<Method>
    ensures { result ≡ new_part_named name.now }
{
    match name {
        "add_partition" => Some(Method::AddPartition),
        "add_partition_with_environment_context" => Some(
            Method::AddPartitionWithEnvironmentContext,
        ),
        "add_partitions" => Some(Method::AddPartitions),
        "add_partitions_req" => Some(Method::AddPartitionsReq),
        "append_partition" => Some(Method::AppendPartition),
        "append_partition_by_name" => Some(Method::AppendPartitionByName),
        "drop_partition" => Some(Method::DropPartition),
        "drop_partition_with_environment_context" => Some(
            Method::DropPartitionWithEnvironmentContext,
        ),
        "drop_partition_by_name" => Some(Method::DropPartitionByName),
        _ => None,
    }
}

// The call that tells or alters partitions whose messages have this name.
#[tactic(auto, unfolding(crate::specs::Methods::held_part_named))]
fn held_part_named(name: &str) -> Option<Method>
    ensures { result ≡ held_part_named name.now }
{
    match name {
        "get_partition" => Some(Method::GetPartition),
        "get_partition_by_name" => Some(Method::GetPartitionByName),
        "get_partitions" => Some(Method::GetPartitions),
        "get_partition_names" => Some(Method::GetPartitionNames),
        "get_partitions_ps" => Some(Method::GetPartitionsPs),
        "get_partition_names_ps" => Some(Method::GetPartitionNamesPs),
        "get_partitions_by_filter" => Some(Method::GetPartitionsByFilter),
        "get_num_partitions_by_filter" => Some(Method::GetNumPartitionsByFilter),
        "get_partitions_by_names" => Some(Method::GetPartitionsByNames),
        "alter_partition" => Some(Method::AlterPartition),
        "alter_partition_with_environment_context" => Some(
            Method::AlterPartitionWithEnvironmentContext,
        ),
        "alter_partitions" => Some(Method::AlterPartitions),
        "rename_partition" => Some(Method::RenamePartition),
        _ => None,
    }
}

// The call on statistics of columns whose messages have this name.
#[tactic(auto, unfolding(crate::specs::Methods::statistics_named))]
fn statistics_named(name: &str) -> Option<Method>
    ensures { result ≡ statistics_named name.now }
{
    match name {
        "update_table_column_statistics" => Some(Method::UpdateTableColumnStatistics),
        "update_partition_column_statistics" => Some(Method::UpdatePartitionColumnStatistics),
        "get_table_column_statistics" => Some(Method::GetTableColumnStatistics),
        "get_partition_column_statistics" => Some(Method::GetPartitionColumnStatistics),
        "delete_table_column_statistics" => Some(Method::DeleteTableColumnStatistics),
        "delete_partition_column_statistics" => Some(Method::DeletePartitionColumnStatistics),
        "get_table_statistics_req" => Some(Method::GetTableStatisticsReq),
        _ => None,
    }
}

// The call of events whose messages have this name.
#[tactic(auto, unfolding(crate::specs::Methods::event_named))]
fn event_named(name: &str) -> Option<Method>
    ensures { result ≡ event_named name.now }
{
    match name {
        "get_next_notification" => Some(Method::GetNextNotification),
        "get_current_notificationEventId" => Some(Method::GetCurrentNotificationEventId),
        _ => None,
    }
}

// The call of replication whose messages have this name.
#[tactic(auto, unfolding(crate::specs::Methods::replication_named))]
fn replication_named(name: &str) -> Option<Method>
    ensures { result ≡ replication_named name.now }
{
    match name {
        "repl_dump" => Some(Method::ReplDump),
        "trim_events" => Some(Method::TrimEvents),
        _ => None,
    }
}

impl Method {
    /// What the call results in.
    pub fn result_type(self) -> ResultType
        ensures { result ≡ result_type self }
    {
        match self {
            Method::GetName => ResultType::OneText,
            Method::GetStatus | Method::AddPartitions | Method::GetNumPartitionsByFilter => {
                ResultType::Int
            }
            Method::Shutdown => ResultType::NoReply,
            Method::SetUgi
            | Method::PartitionNameToVals
            | Method::GetDatabases
            | Method::GetAllDatabases
            | Method::GetTables
            | Method::GetAllTables
            | Method::GetPartitionNames
            | Method::GetPartitionNamesPs => ResultType::TextList,
            Method::PartitionNameHasValidCharacters
            | Method::DropPartition
            | Method::DropPartitionWithEnvironmentContext
            | Method::DropPartitionByName
            | Method::UpdateTableColumnStatistics
            | Method::UpdatePartitionColumnStatistics
            | Method::DeleteTableColumnStatistics
            | Method::DeletePartitionColumnStatistics => ResultType::Flag,
            Method::PartitionNameToSpec => ResultType::TextMap,
            Method::GetAllFunctions => ResultType::EmptyStruct,
            Method::CreateDatabase
            | Method::DropDatabase
            | Method::AlterDatabase
            | Method::CreateTable
            | Method::CreateTableWithEnvironmentContext
            | Method::DropTable
            | Method::DropTableWithEnvironmentContext
            | Method::AlterTable
            | Method::AlterTableWithEnvironmentContext
            | Method::AlterPartition
            | Method::AlterPartitionWithEnvironmentContext
            | Method::AlterPartitions
            | Method::RenamePartition => ResultType::NoField,
            Method::GetDatabase => ResultType::Database,
            Method::GetTable => ResultType::OneTable,
            Method::GetTableReq => ResultType::TableResult,
            Method::GetTableObjectsByName => ResultType::TableList,
            Method::GetFields | Method::GetSchema => ResultType::ColumnList,
            Method::AddPartition
            | Method::AddPartitionWithEnvironmentContext
            | Method::AppendPartition
            | Method::AppendPartitionByName
            | Method::GetPartition
            | Method::GetPartitionByName => ResultType::OnePart,
            Method::AddPartitionsReq => ResultType::PartsResult,
            Method::GetPartitions
            | Method::GetPartitionsPs
            | Method::GetPartitionsByFilter
            | Method::GetPartitionsByNames => ResultType::PartList,
            Method::GetTableColumnStatistics | Method::GetPartitionColumnStatistics => {
                ResultType::Statistics
            }
            Method::GetTableStatisticsReq => ResultType::StatisticsResult,
            Method::GetNextNotification => ResultType::Events,
            Method::GetCurrentNotificationEventId => ResultType::NewestEvent,
            Method::ReplDump => ResultType::DumpResult,
            Method::TrimEvents => ResultType::Long,
        }
    }

    /// The exceptions that the call declares, in the order of their ids: the first has the id 1.
    pub fn exceptions(self) -> &'static [Exception]
        ensures declared { result.now ≡ exceptions_of self }
        ensures few { length result.now < 8 }
    {
        match self {
            Method::GetName | Method::GetStatus | Method::Shutdown => &[],
            Method::SetUgi
            | Method::GetAllFunctions
            | Method::PartitionNameHasValidCharacters
            | Method::PartitionNameToVals
            | Method::PartitionNameToSpec
            | Method::GetDatabases
            | Method::GetAllDatabases
            | Method::GetTables
            | Method::GetAllTables
            | Method::GetTableObjectsByName
            | Method::GetFields
            | Method::GetSchema
            | Method::GetNextNotification
            | Method::GetCurrentNotificationEventId
            | Method::TrimEvents => &[Exception::Meta],
            Method::CreateDatabase => &[
                Exception::AlreadyExists,
                Exception::InvalidObject,
                Exception::Meta,
            ],
            Method::GetDatabase
            | Method::DropTable
            | Method::DropTableWithEnvironmentContext
            | Method::DropPartition
            | Method::DropPartitionWithEnvironmentContext
            | Method::DropPartitionByName
            | Method::GetPartitions
            | Method::GetPartitionNames
            | Method::GetTableStatisticsReq => &[Exception::NoSuchObject, Exception::Meta],
            Method::DropDatabase => &[
                Exception::NoSuchObject,
                Exception::InvalidOperation,
                Exception::Meta,
            ],
            Method::AlterDatabase
            | Method::GetTable
            | Method::GetTableReq
            | Method::GetPartition
            | Method::GetPartitionByName
            | Method::GetPartitionsPs
            | Method::GetPartitionNamesPs
            | Method::GetPartitionsByFilter
            | Method::GetNumPartitionsByFilter
            | Method::GetPartitionsByNames
            | Method::ReplDump => &[Exception::Meta, Exception::NoSuchObject],
            Method::CreateTable | Method::CreateTableWithEnvironmentContext => &[
                Exception::AlreadyExists,
                Exception::InvalidObject,
                Exception::Meta,
                Exception::NoSuchObject,
            ],
            Method::AddPartition
            | Method::AddPartitionWithEnvironmentContext
            | Method::AddPartitions
            | Method::AddPartitionsReq
            | Method::AppendPartition
            | Method::AppendPartitionByName => &[
                Exception::InvalidObject,
                Exception::AlreadyExists,
                Exception::Meta,
            ],
            Method::AlterTable
            | Method::AlterTableWithEnvironmentContext
            | Method::AlterPartition
            | Method::AlterPartitionWithEnvironmentContext
            | Method::AlterPartitions
            | Method::RenamePartition => &[Exception::InvalidOperation, Exception::Meta],
            Method::UpdateTableColumnStatistics | Method::UpdatePartitionColumnStatistics => &[
                Exception::NoSuchObject,
                Exception::InvalidObject,
                Exception::Meta,
                Exception::InvalidInput,
            ],
            Method::GetTableColumnStatistics | Method::GetPartitionColumnStatistics => &[
                Exception::NoSuchObject,
                Exception::Meta,
                Exception::InvalidInput,
                Exception::InvalidObject,
            ],
            Method::DeleteTableColumnStatistics | Method::DeletePartitionColumnStatistics => &[
                Exception::NoSuchObject,
                Exception::Meta,
                Exception::InvalidObject,
                Exception::InvalidInput,
            ],
        }
    }
}
