//! How the arguments of each call are read.

ghost use Rattle.std.specs.Prelude.{◌≡◌};
ghost use Rattle.ms_calls.specs.Asked.{asked_by};
ghost use Rattle.ms_calls.specs.Plans.{bare_asked, planned};
ghost use Rattle.thrift_binary.specs.Tree.{Fields};

use crate::of_partitions::{OfFirstValues, OfLimit, OfValues};
use crate::of_texts::{OfText, OfThreeTexts, OfTwoTexts};
use crate::part_texts::OfName;
use crate::statistics::UpdateStatistics;
use crate::{Asked, Method};
use cat_types::{Call, Reply};

/// How the arguments of a call are read, and what is made of them: calls with arguments of one
/// shape have one plan.
#[derive(Clone, Copy)]
pub enum Plan {
    Bare(Bare),
    GetName,
    SetUgi,
    OfText(OfText),
    OfTwoTexts(OfTwoTexts),
    OfThreeTexts(OfThreeTexts),
    OnDatabase(OnDatabase),
    OnTable(OnTable),
    OfName(OfName),
    HasValidCharacters,
    OfValues(OfValues),
    OfLimit(OfLimit),
    OfFirstValues(OfFirstValues),
    OnPartition(OnPartition),
    OnStatistics(OnStatistics),
    GetNextNotification,
    ReplDump,
    TrimEvents,
}

/// What asks for the same whatever its arguments are.
#[derive(Clone, Copy)]
pub enum Bare {
    Unknown,
    GetStatus,
    Shutdown,
    GetAllFunctions,
    GetAllDatabases,
    GetCurrentNotificationEventId,
}

/// A call on databases whose arguments have a shape of their own.
#[derive(Clone, Copy)]
pub enum OnDatabase {
    CreateDatabase,
    DropDatabase,
    AlterDatabase,
}

/// A call on tables whose arguments have a shape of their own.
#[derive(Clone, Copy)]
pub enum OnTable {
    CreateTable,
    CreateTableWithContext,
    DropTableWithContext,
    GetTableReq,
    GetTableObjectsByName,
    AlterTable,
    AlterTableWithContext,
}

/// A call on partitions whose arguments have a shape of their own.
#[derive(Clone, Copy)]
pub enum OnPartition {
    AddPartition,
    AddPartitionWithContext,
    AddPartitions,
    AddPartitionsReq,
    DropPartitionWithContext,
    GetPartitionsByFilter,
    AlterPartition,
    AlterPartitionWithContext,
    AlterPartitions,
    RenamePartition,
}

/// A call on statistics of columns whose arguments have a shape of their own.
#[derive(Clone, Copy)]
pub enum OnStatistics {
    Update(UpdateStatistics),
    GetPartition,
    DeleteTable,
    DeletePartition,
    GetByRequest,
}

impl Bare {
    /// What is asked.
    pub fn asked(self) -> Asked
        ensures { result ≡ bare_asked self }
    {
        match self {
            Bare::Unknown => Asked::Unknown,
            Bare::GetStatus => Asked::Plain(Reply::Number(2)),
            Bare::Shutdown => Asked::Shutdown,
            Bare::GetAllFunctions => Asked::Plain(Reply::Nothing),
            Bare::GetAllDatabases => Asked::Client(Call::GetAllDatabases),
            Bare::GetCurrentNotificationEventId => {
                Asked::Client(Call::GetCurrentNotificationEventId)
            }
        }
    }
}

/// How the arguments of a message with this method are read, or of one with a name that nobody
/// knows.
pub fn plan_of(method: Option<Method>) -> Plan
    ensures { (v : Fields) → planned result v ≡ asked_by method v }
{
    match method {
        None => Plan::Bare(Bare::Unknown),
        Some(Method::GetName) => Plan::GetName,
        Some(Method::GetStatus) => Plan::Bare(Bare::GetStatus),
        Some(Method::Shutdown) => Plan::Bare(Bare::Shutdown),
        Some(Method::SetUgi) => Plan::SetUgi,
        Some(Method::GetAllFunctions) => Plan::Bare(Bare::GetAllFunctions),
        Some(Method::PartitionNameHasValidCharacters) => Plan::HasValidCharacters,
        Some(Method::PartitionNameToVals) => Plan::OfName(OfName::Vals),
        Some(Method::PartitionNameToSpec) => Plan::OfName(OfName::Spec),
        Some(Method::CreateDatabase) => Plan::OnDatabase(OnDatabase::CreateDatabase),
        Some(Method::GetDatabase) => Plan::OfText(OfText::GetDatabase),
        Some(Method::DropDatabase) => Plan::OnDatabase(OnDatabase::DropDatabase),
        Some(Method::GetDatabases) => Plan::OfText(OfText::GetDatabases),
        Some(Method::GetAllDatabases) => Plan::Bare(Bare::GetAllDatabases),
        Some(Method::AlterDatabase) => Plan::OnDatabase(OnDatabase::AlterDatabase),
        Some(Method::CreateTable) => Plan::OnTable(OnTable::CreateTable),
        Some(Method::CreateTableWithEnvironmentContext) => {
            Plan::OnTable(OnTable::CreateTableWithContext)
        }
        Some(Method::DropTable) => Plan::OfTwoTexts(OfTwoTexts::DropTable),
        Some(Method::DropTableWithEnvironmentContext) => {
            Plan::OnTable(OnTable::DropTableWithContext)
        }
        Some(Method::GetTables) => Plan::OfTwoTexts(OfTwoTexts::GetTables),
        Some(Method::GetAllTables) => Plan::OfText(OfText::GetAllTables),
        Some(Method::GetTable) => Plan::OfTwoTexts(OfTwoTexts::GetTable),
        Some(Method::GetTableReq) => Plan::OnTable(OnTable::GetTableReq),
        Some(Method::GetTableObjectsByName) => Plan::OnTable(OnTable::GetTableObjectsByName),
        Some(Method::AlterTable) => Plan::OnTable(OnTable::AlterTable),
        Some(Method::AlterTableWithEnvironmentContext) => {
            Plan::OnTable(OnTable::AlterTableWithContext)
        }
        Some(Method::GetFields) => Plan::OfTwoTexts(OfTwoTexts::GetFields),
        Some(Method::GetSchema) => Plan::OfTwoTexts(OfTwoTexts::GetSchema),
        Some(Method::AddPartition) => Plan::OnPartition(OnPartition::AddPartition),
        Some(Method::AddPartitionWithEnvironmentContext) => Plan::OnPartition(
            OnPartition::AddPartitionWithContext,
        ),
        Some(Method::AddPartitions) => Plan::OnPartition(OnPartition::AddPartitions),
        Some(Method::AddPartitionsReq) => Plan::OnPartition(OnPartition::AddPartitionsReq),
        Some(Method::AppendPartition) => Plan::OfValues(OfValues::AppendPartition),
        Some(Method::AppendPartitionByName) => Plan::OfThreeTexts(
            OfThreeTexts::AppendPartitionByName,
        ),
        Some(Method::DropPartition) => Plan::OfValues(OfValues::DropPartition),
        Some(Method::DropPartitionWithEnvironmentContext) => Plan::OnPartition(
            OnPartition::DropPartitionWithContext,
        ),
        Some(Method::DropPartitionByName) => Plan::OfThreeTexts(OfThreeTexts::DropPartitionByName),
        Some(Method::GetPartition) => Plan::OfValues(OfValues::GetPartition),
        Some(Method::GetPartitionByName) => Plan::OfThreeTexts(OfThreeTexts::GetPartitionByName),
        Some(Method::GetPartitions) => Plan::OfLimit(OfLimit::GetPartitions),
        Some(Method::GetPartitionNames) => Plan::OfLimit(OfLimit::GetPartitionNames),
        Some(Method::GetPartitionsPs) => Plan::OfFirstValues(OfFirstValues::GetPartitionsPs),
        Some(Method::GetPartitionNamesPs) => Plan::OfFirstValues(
            OfFirstValues::GetPartitionNamesPs,
        ),
        Some(Method::GetPartitionsByFilter) => Plan::OnPartition(
            OnPartition::GetPartitionsByFilter,
        ),
        Some(Method::GetNumPartitionsByFilter) => Plan::OfThreeTexts(
            OfThreeTexts::GetNumPartitionsByFilter,
        ),
        Some(Method::GetPartitionsByNames) => Plan::OfValues(OfValues::GetPartitionsByNames),
        Some(Method::AlterPartition) => Plan::OnPartition(OnPartition::AlterPartition),
        Some(Method::AlterPartitionWithEnvironmentContext) => Plan::OnPartition(
            OnPartition::AlterPartitionWithContext,
        ),
        Some(Method::AlterPartitions) => Plan::OnPartition(OnPartition::AlterPartitions),
        Some(Method::RenamePartition) => Plan::OnPartition(OnPartition::RenamePartition),
        Some(Method::UpdateTableColumnStatistics) => Plan::OnStatistics(OnStatistics::Update(
            UpdateStatistics::OfTable,
        )),
        Some(Method::UpdatePartitionColumnStatistics) => Plan::OnStatistics(OnStatistics::Update(
            UpdateStatistics::OfPartition,
        )),
        Some(Method::GetTableColumnStatistics) => Plan::OfThreeTexts(
            OfThreeTexts::GetTableColumnStatistics,
        ),
        Some(Method::GetPartitionColumnStatistics) => Plan::OnStatistics(
            OnStatistics::GetPartition,
        ),
        Some(Method::DeleteTableColumnStatistics) => Plan::OnStatistics(OnStatistics::DeleteTable),
        Some(Method::DeletePartitionColumnStatistics) => Plan::OnStatistics(
            OnStatistics::DeletePartition,
        ),
        Some(Method::GetTableStatisticsReq) => Plan::OnStatistics(OnStatistics::GetByRequest),
        Some(Method::GetNextNotification) => Plan::GetNextNotification,
        Some(Method::GetCurrentNotificationEventId) => {
            Plan::Bare(Bare::GetCurrentNotificationEventId)
        }
        Some(Method::ReplDump) => Plan::ReplDump,
        Some(Method::TrimEvents) => Plan::TrimEvents,
    }
}
