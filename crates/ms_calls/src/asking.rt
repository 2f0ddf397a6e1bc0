//! What messages ask.

ghost use Rattle.std.specs.Prelude.{◌≡◌, ◌≤◌, [], ◌∷◌, None, IfOk, IsErrOf, OnOk, pos};
ghost use Rattle.hms_outside.specs.Causes.{Rose, StaysBut};
ghost use Rattle.cat_types.specs.declared.replies.Reply.TheVariants.{Names};
ghost use Rattle.ms_calls.specs.Arguments.{has_valid_characters_reply, set_ugi_reply};
ghost use Rattle.ms_calls.specs.Asked.{CameAs, HasOwnMethod, IfClient, IfPlain, asked_by, asked_of, flag_at, name_asked, plain, server_name, text_at, texts_at};
ghost use Rattle.ms_calls.specs.Methods.{method_named};
ghost use Rattle.ms_calls.specs.Plans.{bare_asked, planned, planned_on_database, planned_on_partition, planned_on_statistics, planned_on_table};
ghost use Rattle.ms_calls.specs.Replies.{CanReply};
ghost use Rattle.ms_structs.specs.Getting.{ReadsTree};
ghost use Rattle.thrift_binary.specs.Codes.{struct_code};
ghost use Rattle.thrift_binary.specs.Tree.{Struct};
ghost use Rattle.thrift_binary.specs.Wire.{IsWire, StopsWire};

use crate::arguments::read_call;
use crate::databases::{AlterDatabase, CreateDatabase, DropDatabase};
use crate::of_partitions::{OfFirstValues, OfLimit, OfValues};
use crate::of_texts::{OfText, OfThreeTexts, OfTwoTexts};
use crate::part_texts::{OfName, has_valid_characters};
use crate::partitions::{
    AddPartition, AddPartitionWithContext, AddPartitions, AddPartitionsReq, AlterPartition,
    AlterPartitionWithContext, AlterPartitions, DropPartitionWithContext, GetPartitionsByFilter,
    RenamePartition,
};
use crate::plan::{Bare, OnDatabase, OnPartition, OnStatistics, OnTable, Plan, plan_of};
use crate::replication::{ReplDump, TrimEvents, read_replication};
use crate::server::{GetNextNotification, server_name, set_ugi};
use crate::slots::{One, Shape, Two};
use crate::statistics::{
    DeletePartitionColumnStatistics, DeleteTableColumnStatistics, GetPartitionColumnStatistics,
    GetTableStatisticsReq, UpdateStatistics,
};
use crate::tables::{
    AlterTable, AlterTableWithContext, CreateTable, CreateTableWithContext, DropTableWithContext,
    GetTableObjectsByName, GetTableReq,
};
use crate::{Asked, Method, method_named};
use cat_types::{NoMemory, Reply, Text, Texts};
use hms_outside::Source;
use ms_structs::skip_field;
use std::alloc::Global;
use thrift_binary::{Head, WireFault, WireReader, type_code};

/// Reads the arguments of the message with this head, to the message's end, and says what it asks.
/// A plain reply is one that the call can have, and a call of the catalogue, a dump or a trim came
/// under its own name.
pub fn asked<S: Source>(
    alloc: Global,
    head: &Head,
    reader: &mut WireReader<'_, S>,
) -> Result<Asked, WireFault>
    ensures same_source { reader.new.source.ghost_name ≡ reader.old.source.ghost_name }
    ensures later { S.faults reader.old.source.now ≤ S.faults reader.new.source.now }
    ensures cause { reader.old.progress.fault ≡ None → IsErrOf result WireFault.ReadFault → Rose (S.faults reader.old.source.now) (S.faults reader.new.source.now) }
    ensures stays { StaysBut WireFault.ReadFault result (S.faults reader.old.source.now) (S.faults reader.new.source.now) }
    ensures reads { ReadsTree (S.left reader.old.source.now) (S.left reader.new.source.now) reader.old.progress reader.new.progress result (λ v. IsWire (Struct v) reader.old.progress.room struct_code) (λ v asked. asked ≡ asked_of head.now.name v) (StopsWire reader.old.progress.room struct_code) }
    ensures unspent { OnOk result (reader.new.progress.fault ≡ None) }
    ensures plain { IfOk result (λ asked. IfPlain asked (CanReply (method_named head.now.name))) }
    ensures client { IfOk result (λ asked. IfClient asked (CameAs (method_named head.now.name))) }
    ensures own { IfOk result (HasOwnMethod (method_named head.now.name)) }
{
    asked_by(alloc, method_named(head.name.as_str()), reader)
}

/// Reads the arguments of a message with this method, or with a name that nobody knows, to the
/// message's end, and says what it asks, as `asked` does.
pub fn asked_by<S: Source>(
    alloc: Global,
    method: Option<Method>,
    reader: &mut WireReader<'_, S>,
) -> Result<Asked, WireFault>
    ensures same_source { reader.new.source.ghost_name ≡ reader.old.source.ghost_name }
    ensures later { S.faults reader.old.source.now ≤ S.faults reader.new.source.now }
    ensures cause { reader.old.progress.fault ≡ None → IsErrOf result WireFault.ReadFault → Rose (S.faults reader.old.source.now) (S.faults reader.new.source.now) }
    ensures stays { StaysBut WireFault.ReadFault result (S.faults reader.old.source.now) (S.faults reader.new.source.now) }
    ensures reads { ReadsTree (S.left reader.old.source.now) (S.left reader.new.source.now) reader.old.progress reader.new.progress result (λ v. IsWire (Struct v) reader.old.progress.room struct_code) (λ v asked. asked ≡ asked_by method v) (StopsWire reader.old.progress.room struct_code) }
    ensures unspent { OnOk result (reader.new.progress.fault ≡ None) }
    ensures plain { IfOk result (λ asked. IfPlain asked (CanReply method)) }
    ensures client { IfOk result (λ asked. IfClient asked (CameAs method)) }
    ensures own { IfOk result (HasOwnMethod method) }
{
    read_asked(alloc, method, reader)
}

// Reads the arguments of a call by its plan.
fn read_asked<S: Source>(
    alloc: Global,
    method: Option<Method>,
    reader: &mut WireReader<'_, S>,
) -> Result<Asked, WireFault>
    ensures same_source { reader.new.source.ghost_name ≡ reader.old.source.ghost_name }
    ensures later { S.faults reader.old.source.now ≤ S.faults reader.new.source.now }
    ensures cause { reader.old.progress.fault ≡ None → IsErrOf result WireFault.ReadFault → Rose (S.faults reader.old.source.now) (S.faults reader.new.source.now) }
    ensures stays { StaysBut WireFault.ReadFault result (S.faults reader.old.source.now) (S.faults reader.new.source.now) }
    ensures reads { ReadsTree (S.left reader.old.source.now) (S.left reader.new.source.now) reader.old.progress reader.new.progress result (λ v. IsWire (Struct v) reader.old.progress.room struct_code) (λ v asked. asked ≡ asked_by method v) (StopsWire reader.old.progress.room struct_code) }
{
    read_plan(alloc, plan_of(method), reader)
}

// Reads the arguments as this plan has it, and says what the message asks.
fn read_plan<S: Source>(
    alloc: Global,
    plan: Plan,
    reader: &mut WireReader<'_, S>,
) -> Result<Asked, WireFault>
    ensures same_source { reader.new.source.ghost_name ≡ reader.old.source.ghost_name }
    ensures later { S.faults reader.old.source.now ≤ S.faults reader.new.source.now }
    ensures cause { reader.old.progress.fault ≡ None → IsErrOf result WireFault.ReadFault → Rose (S.faults reader.old.source.now) (S.faults reader.new.source.now) }
    ensures stays { StaysBut WireFault.ReadFault result (S.faults reader.old.source.now) (S.faults reader.new.source.now) }
    ensures reads { ReadsTree (S.left reader.old.source.now) (S.left reader.new.source.now) reader.old.progress reader.new.progress result (λ v. IsWire (Struct v) reader.old.progress.room struct_code) (λ v asked. asked ≡ planned plan v) (StopsWire reader.old.progress.room struct_code) }
{
    match plan {
        Plan::Bare(bare) => skip_arguments(bare, reader),
        Plan::GetName => ask_server_name(alloc, reader),
        Plan::SetUgi => ask_set_ugi(alloc, reader),
        Plan::OfText(call) => read_call::<OfText, S>(alloc, call, reader),
        Plan::OfTwoTexts(call) => read_call::<OfTwoTexts, S>(alloc, call, reader),
        Plan::OfThreeTexts(call) => read_call::<OfThreeTexts, S>(alloc, call, reader),
        Plan::OnDatabase(call) => read_database_call(alloc, call, reader),
        Plan::OnTable(call) => read_table_call(alloc, call, reader),
        Plan::OfName(call) => ask_name(alloc, call, reader),
        Plan::HasValidCharacters => ask_valid_characters(alloc, reader),
        Plan::OfValues(call) => read_call::<OfValues, S>(alloc, call, reader),
        Plan::OfLimit(call) => read_call::<OfLimit, S>(alloc, call, reader),
        Plan::OfFirstValues(call) => read_call::<OfFirstValues, S>(alloc, call, reader),
        Plan::OnPartition(call) => read_partition_call(alloc, call, reader),
        Plan::OnStatistics(call) => read_statistics_call(alloc, call, reader),
        Plan::GetNextNotification => read_call::<GetNextNotification, S>(
            alloc,
            GetNextNotification,
            reader,
        ),
        Plan::ReplDump => read_replication::<ReplDump, S>(alloc, ReplDump, reader),
        Plan::TrimEvents => read_replication::<TrimEvents, S>(alloc, TrimEvents, reader),
    }
}

// Reads the arguments of a call with a Database or with flags.
fn read_database_call<S: Source>(
    alloc: Global,
    call: OnDatabase,
    reader: &mut WireReader<'_, S>,
) -> Result<Asked, WireFault>
    ensures same_source { reader.new.source.ghost_name ≡ reader.old.source.ghost_name }
    ensures later { S.faults reader.old.source.now ≤ S.faults reader.new.source.now }
    ensures cause { reader.old.progress.fault ≡ None → IsErrOf result WireFault.ReadFault → Rose (S.faults reader.old.source.now) (S.faults reader.new.source.now) }
    ensures stays { StaysBut WireFault.ReadFault result (S.faults reader.old.source.now) (S.faults reader.new.source.now) }
    ensures reads { ReadsTree (S.left reader.old.source.now) (S.left reader.new.source.now) reader.old.progress reader.new.progress result (λ v. IsWire (Struct v) reader.old.progress.room struct_code) (λ v asked. asked ≡ planned_on_database call v) (StopsWire reader.old.progress.room struct_code) }
{
    match call {
        OnDatabase::CreateDatabase => read_call::<CreateDatabase, S>(alloc, CreateDatabase, reader),
        OnDatabase::DropDatabase => read_call::<DropDatabase, S>(alloc, DropDatabase, reader),
        OnDatabase::AlterDatabase => read_call::<AlterDatabase, S>(alloc, AlterDatabase, reader),
    }
}

// Reads the arguments of a call with a Table, a request, a list of tables or a context.
fn read_table_call<S: Source>(
    alloc: Global,
    call: OnTable,
    reader: &mut WireReader<'_, S>,
) -> Result<Asked, WireFault>
    ensures same_source { reader.new.source.ghost_name ≡ reader.old.source.ghost_name }
    ensures later { S.faults reader.old.source.now ≤ S.faults reader.new.source.now }
    ensures cause { reader.old.progress.fault ≡ None → IsErrOf result WireFault.ReadFault → Rose (S.faults reader.old.source.now) (S.faults reader.new.source.now) }
    ensures stays { StaysBut WireFault.ReadFault result (S.faults reader.old.source.now) (S.faults reader.new.source.now) }
    ensures reads { ReadsTree (S.left reader.old.source.now) (S.left reader.new.source.now) reader.old.progress reader.new.progress result (λ v. IsWire (Struct v) reader.old.progress.room struct_code) (λ v asked. asked ≡ planned_on_table call v) (StopsWire reader.old.progress.room struct_code) }
{
    match call {
        OnTable::CreateTable => read_call::<CreateTable, S>(alloc, CreateTable, reader),
        OnTable::CreateTableWithContext => read_call::<CreateTableWithContext, S>(
            alloc,
            CreateTableWithContext,
            reader,
        ),
        OnTable::DropTableWithContext => read_call::<DropTableWithContext, S>(
            alloc,
            DropTableWithContext,
            reader,
        ),
        OnTable::GetTableReq => read_call::<GetTableReq, S>(alloc, GetTableReq, reader),
        OnTable::GetTableObjectsByName => read_call::<GetTableObjectsByName, S>(
            alloc,
            GetTableObjectsByName,
            reader,
        ),
        OnTable::AlterTable => read_call::<AlterTable, S>(alloc, AlterTable, reader),
        OnTable::AlterTableWithContext => read_call::<AlterTableWithContext, S>(
            alloc,
            AlterTableWithContext,
            reader,
        ),
    }
}

// Reads the arguments of a call with partitions, a request or a context.
fn read_partition_call<S: Source>(
    alloc: Global,
    call: OnPartition,
    reader: &mut WireReader<'_, S>,
) -> Result<Asked, WireFault>
    ensures same_source { reader.new.source.ghost_name ≡ reader.old.source.ghost_name }
    ensures later { S.faults reader.old.source.now ≤ S.faults reader.new.source.now }
    ensures cause { reader.old.progress.fault ≡ None → IsErrOf result WireFault.ReadFault → Rose (S.faults reader.old.source.now) (S.faults reader.new.source.now) }
    ensures stays { StaysBut WireFault.ReadFault result (S.faults reader.old.source.now) (S.faults reader.new.source.now) }
    ensures reads { ReadsTree (S.left reader.old.source.now) (S.left reader.new.source.now) reader.old.progress reader.new.progress result (λ v. IsWire (Struct v) reader.old.progress.room struct_code) (λ v asked. asked ≡ planned_on_partition call v) (StopsWire reader.old.progress.room struct_code) }
{
    match call {
        OnPartition::AddPartition => read_call::<AddPartition, S>(alloc, AddPartition, reader),
        OnPartition::AddPartitionWithContext => read_call::<AddPartitionWithContext, S>(
            alloc,
            AddPartitionWithContext,
            reader,
        ),
        OnPartition::AddPartitions => read_call::<AddPartitions, S>(alloc, AddPartitions, reader),
        OnPartition::AddPartitionsReq => read_call::<AddPartitionsReq, S>(
            alloc,
            AddPartitionsReq,
            reader,
        ),
        OnPartition::DropPartitionWithContext => read_call::<DropPartitionWithContext, S>(
            alloc,
            DropPartitionWithContext,
            reader,
        ),
        OnPartition::GetPartitionsByFilter => read_call::<GetPartitionsByFilter, S>(
            alloc,
            GetPartitionsByFilter,
            reader,
        ),
        OnPartition::AlterPartition => read_call::<AlterPartition, S>(
            alloc,
            AlterPartition,
            reader,
        ),
        OnPartition::AlterPartitionWithContext => read_call::<AlterPartitionWithContext, S>(
            alloc,
            AlterPartitionWithContext,
            reader,
        ),
        OnPartition::AlterPartitions => read_call::<AlterPartitions, S>(
            alloc,
            AlterPartitions,
            reader,
        ),
        OnPartition::RenamePartition => read_call::<RenamePartition, S>(
            alloc,
            RenamePartition,
            reader,
        ),
    }
}

// Reads the arguments of a call on statistics of columns.
fn read_statistics_call<S: Source>(
    alloc: Global,
    call: OnStatistics,
    reader: &mut WireReader<'_, S>,
) -> Result<Asked, WireFault>
    ensures same_source { reader.new.source.ghost_name ≡ reader.old.source.ghost_name }
    ensures later { S.faults reader.old.source.now ≤ S.faults reader.new.source.now }
    ensures cause { reader.old.progress.fault ≡ None → IsErrOf result WireFault.ReadFault → Rose (S.faults reader.old.source.now) (S.faults reader.new.source.now) }
    ensures stays { StaysBut WireFault.ReadFault result (S.faults reader.old.source.now) (S.faults reader.new.source.now) }
    ensures reads { ReadsTree (S.left reader.old.source.now) (S.left reader.new.source.now) reader.old.progress reader.new.progress result (λ v. IsWire (Struct v) reader.old.progress.room struct_code) (λ v asked. asked ≡ planned_on_statistics call v) (StopsWire reader.old.progress.room struct_code) }
{
    match call {
        OnStatistics::Update(call) => read_call::<UpdateStatistics, S>(alloc, call, reader),
        OnStatistics::GetPartition => read_call::<GetPartitionColumnStatistics, S>(
            alloc,
            GetPartitionColumnStatistics,
            reader,
        ),
        OnStatistics::DeleteTable => read_call::<DeleteTableColumnStatistics, S>(
            alloc,
            DeleteTableColumnStatistics,
            reader,
        ),
        OnStatistics::DeletePartition => read_call::<DeletePartitionColumnStatistics, S>(
            alloc,
            DeletePartitionColumnStatistics,
            reader,
        ),
        OnStatistics::GetByRequest => read_call::<GetTableStatisticsReq, S>(
            alloc,
            GetTableStatisticsReq,
            reader,
        ),
    }
}

// Skips the argument struct of a message that asks for the same whatever its arguments are.
fn skip_arguments<S: Source>(bare: Bare, reader: &mut WireReader<'_, S>) -> Result<Asked, WireFault>
    ensures same_source { reader.new.source.ghost_name ≡ reader.old.source.ghost_name }
    ensures later { S.faults reader.old.source.now ≤ S.faults reader.new.source.now }
    ensures cause { reader.old.progress.fault ≡ None → IsErrOf result WireFault.ReadFault → Rose (S.faults reader.old.source.now) (S.faults reader.new.source.now) }
    ensures stays { StaysBut WireFault.ReadFault result (S.faults reader.old.source.now) (S.faults reader.new.source.now) }
    ensures reads { ReadsTree (S.left reader.old.source.now) (S.left reader.new.source.now) reader.old.progress reader.new.progress result (λ v. IsWire (Struct v) reader.old.progress.room struct_code) (λ _ asked. asked ≡ bare_asked bare) (StopsWire reader.old.progress.room struct_code) }
{
    skip_field(reader, type_code::STRUCT)?;
    Ok(bare.asked())
}

// Skips the argument struct of the call that asks for the server's name.
fn ask_server_name<S: Source>(
    alloc: Global,
    reader: &mut WireReader<'_, S>,
) -> Result<Asked, WireFault>
    ensures same_source { reader.new.source.ghost_name ≡ reader.old.source.ghost_name }
    ensures later { S.faults reader.old.source.now ≤ S.faults reader.new.source.now }
    ensures cause { reader.old.progress.fault ≡ None → IsErrOf result WireFault.ReadFault → Rose (S.faults reader.old.source.now) (S.faults reader.new.source.now) }
    ensures stays { StaysBut WireFault.ReadFault result (S.faults reader.old.source.now) (S.faults reader.new.source.now) }
    ensures reads { ReadsTree (S.left reader.old.source.now) (S.left reader.new.source.now) reader.old.progress reader.new.progress result (λ v. IsWire (Struct v) reader.old.progress.room struct_code) (λ _ asked. asked ≡ Asked.Plain (Names (server_name ∷ []))) (StopsWire reader.old.progress.room struct_code) }
{
    skip_field(reader, type_code::STRUCT)?;
    match server_name(alloc) {
        Ok(names) => Ok(Asked::Plain(Reply::Names(names))),
        Err(NoMemory) => Err(reader.refused()),
    }
}

// Reads the arguments of the call that names a user.
fn ask_set_ugi<S: Source>(alloc: Global, reader: &mut WireReader<'_, S>) -> Result<Asked, WireFault>
    ensures same_source { reader.new.source.ghost_name ≡ reader.old.source.ghost_name }
    ensures later { S.faults reader.old.source.now ≤ S.faults reader.new.source.now }
    ensures cause { reader.old.progress.fault ≡ None → IsErrOf result WireFault.ReadFault → Rose (S.faults reader.old.source.now) (S.faults reader.new.source.now) }
    ensures stays { StaysBut WireFault.ReadFault result (S.faults reader.old.source.now) (S.faults reader.new.source.now) }
    ensures reads { ReadsTree (S.left reader.old.source.now) (S.left reader.new.source.now) reader.old.progress reader.new.progress result (λ v. IsWire (Struct v) reader.old.progress.room struct_code) (λ v asked. asked ≡ plain (set_ugi_reply (text_at (pos 1) v) (texts_at (pos 2) v))) (StopsWire reader.old.progress.room struct_code) }
{
    let slots = Two::<Text, Texts>::read::<S>(alloc, reader)?;
    match set_ugi(alloc, slots.first, slots.second) {
        Ok(asked) => Ok(asked),
        Err(NoMemory) => Err(reader.refused()),
    }
}

// Reads the arguments of a call on the name of a partition.
fn ask_name<S: Source>(
    alloc: Global,
    call: OfName,
    reader: &mut WireReader<'_, S>,
) -> Result<Asked, WireFault>
    ensures same_source { reader.new.source.ghost_name ≡ reader.old.source.ghost_name }
    ensures later { S.faults reader.old.source.now ≤ S.faults reader.new.source.now }
    ensures cause { reader.old.progress.fault ≡ None → IsErrOf result WireFault.ReadFault → Rose (S.faults reader.old.source.now) (S.faults reader.new.source.now) }
    ensures stays { StaysBut WireFault.ReadFault result (S.faults reader.old.source.now) (S.faults reader.new.source.now) }
    ensures reads { ReadsTree (S.left reader.old.source.now) (S.left reader.new.source.now) reader.old.progress reader.new.progress result (λ v. IsWire (Struct v) reader.old.progress.room struct_code) (λ v asked. asked ≡ name_asked call (text_at (pos 1) v)) (StopsWire reader.old.progress.room struct_code) }
{
    let slots = One::<Text>::read::<S>(alloc, reader)?;
    match call.asked(alloc, slots.first) {
        Ok(asked) => Ok(asked),
        Err(NoMemory) => Err(reader.refused()),
    }
}

// Reads the arguments of the call that asks whether values are valid.
fn ask_valid_characters<S: Source>(
    alloc: Global,
    reader: &mut WireReader<'_, S>,
) -> Result<Asked, WireFault>
    ensures same_source { reader.new.source.ghost_name ≡ reader.old.source.ghost_name }
    ensures later { S.faults reader.old.source.now ≤ S.faults reader.new.source.now }
    ensures cause { reader.old.progress.fault ≡ None → IsErrOf result WireFault.ReadFault → Rose (S.faults reader.old.source.now) (S.faults reader.new.source.now) }
    ensures stays { StaysBut WireFault.ReadFault result (S.faults reader.old.source.now) (S.faults reader.new.source.now) }
    ensures reads { ReadsTree (S.left reader.old.source.now) (S.left reader.new.source.now) reader.old.progress reader.new.progress result (λ v. IsWire (Struct v) reader.old.progress.room struct_code) (λ v asked. asked ≡ plain (has_valid_characters_reply (texts_at (pos 1) v) (flag_at (pos 2) v))) (StopsWire reader.old.progress.room struct_code) }
{
    let slots = Two::<Texts, bool>::read::<S>(alloc, reader)?;
    match has_valid_characters(alloc, slots.first, slots.second) {
        Ok(asked) => Ok(asked),
        Err(NoMemory) => Err(reader.refused()),
    }
}
