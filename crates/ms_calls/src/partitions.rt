//! What the calls on partitions make of their arguments. Of a context nothing is used.

ghost use Rattle.std.specs.Prelude.{◌≡◌, ℤ, Result};
ghost use Rattle.cat_types.specs.declared.calls.Call.TheVariants.{GetPartitionsByFilter};
ghost use Rattle.ms_calls.specs.Arguments.{add_partition_call, add_partitions_call, add_partitions_req_call, alter_partition_call, alter_partitions_call, drop_partition_call, list_some_call, rename_partition_call};
ghost use Rattle.ms_structs.specs.declared.got.Got.TheVariants.{Nothing};

use crate::arguments::{Ask, given, needed, needed_four, needed_three, with_context};
use crate::limit::Limit;
use crate::of_partitions::NO_LIMIT;
use crate::slots::{Five, Four, One, Three, Two};
use cat_types::{Call, ListOf, Text, Texts};
use table_structs::{AddPartitionsFields, ContextFields, PartitionFields};

/// `add_partition`: the partition.
#[derive(Clone, Copy)]
pub struct AddPartition;

impl Ask for AddPartition {
    type Slots = One<PartitionFields>;

    ghost makes = { λ _ slots. add_partition_call slots.first Nothing };

    fn make(self, slots: One<PartitionFields>) -> Result<Call, i16> {
        let part = needed(1, slots.first)?;
        Ok(Call::AddPartition { part })
    }
}

/// `add_partition_with_environment_context`: the partition, and a context.
#[derive(Clone, Copy)]
pub struct AddPartitionWithContext;

impl Ask for AddPartitionWithContext {
    type Slots = Two<PartitionFields, ContextFields>;

    ghost makes = { λ _ slots. add_partition_call slots.first slots.second };

    fn make(self, slots: Two<PartitionFields, ContextFields>) -> Result<Call, i16> {
        let part = with_context(2, slots.second, needed(1, slots.first))?;
        Ok(Call::AddPartition { part })
    }
}

/// `add_partitions`: the partitions.
#[derive(Clone, Copy)]
pub struct AddPartitions;

impl Ask for AddPartitions {
    type Slots = One<ListOf<PartitionFields>>;

    ghost makes = { λ _ slots. add_partitions_call slots.first };

    fn make(self, slots: One<ListOf<PartitionFields>>) -> Result<Call, i16> {
        let parts = needed(1, slots.first)?;
        Ok(Call::AddPartitions { parts })
    }
}

/// `add_partitions_req`: a request, which is a call.
#[derive(Clone, Copy)]
pub struct AddPartitionsReq;

impl Ask for AddPartitionsReq {
    type Slots = One<AddPartitionsFields>;

    ghost makes = { λ _ slots. add_partitions_req_call slots.first };

    fn make(self, slots: One<AddPartitionsFields>) -> Result<Call, i16> {
        needed(1, slots.first)
    }
}

/// `drop_partition_with_environment_context`: the database, the table and the values, whether the
/// data is deleted, which is not used, and a context.
#[derive(Clone, Copy)]
pub struct DropPartitionWithContext;

impl Ask for DropPartitionWithContext {
    type Slots = Five<Text, Text, Texts, bool, ContextFields>;

    ghost makes = { λ _ slots. drop_partition_call slots.first slots.second slots.third slots.fifth };

    fn make(self, slots: Five<Text, Text, Texts, bool, ContextFields>) -> Result<Call, i16> {
        let (db, table, values) = with_context(
            5,
            slots.fifth,
            needed_three(slots.first, slots.second, slots.third),
        )?;
        Ok(Call::DropPartition { db, table, values })
    }
}

/// `get_partitions_by_filter`: the database, the table, the filter, and how many are wanted at most.
#[derive(Clone, Copy)]
pub struct GetPartitionsByFilter;

impl Ask for GetPartitionsByFilter {
    type Slots = Four<Text, Text, Text, Limit>;

    ghost makes = { λ _ slots. list_some_call slots.first slots.second slots.third slots.fourth GetPartitionsByFilter };

    fn make(self, slots: Four<Text, Text, Text, Limit>) -> Result<Call, i16> {
        let (db, table, filter) = needed_three(slots.first, slots.second, slots.third)?;
        let max = given(4, NO_LIMIT, slots.fourth)?;
        Ok(Call::GetPartitionsByFilter {
            db,
            table,
            filter,
            max,
        })
    }
}

/// `alter_partition`: the database, the table, and the partition's new record.
#[derive(Clone, Copy)]
pub struct AlterPartition;

impl Ask for AlterPartition {
    type Slots = Three<Text, Text, PartitionFields>;

    ghost makes = { λ _ slots. alter_partition_call slots.first slots.second slots.third Nothing };

    fn make(self, slots: Three<Text, Text, PartitionFields>) -> Result<Call, i16> {
        let (db, table, part) = needed_three(slots.first, slots.second, slots.third)?;
        Ok(Call::AlterPartition { db, table, part })
    }
}

/// `alter_partition_with_environment_context`: the same, and a context.
#[derive(Clone, Copy)]
pub struct AlterPartitionWithContext;

impl Ask for AlterPartitionWithContext {
    type Slots = Four<Text, Text, PartitionFields, ContextFields>;

    ghost makes = { λ _ slots. alter_partition_call slots.first slots.second slots.third slots.fourth };

    fn make(self, slots: Four<Text, Text, PartitionFields, ContextFields>) -> Result<Call, i16> {
        let (db, table, part) = with_context(
            4,
            slots.fourth,
            needed_three(slots.first, slots.second, slots.third),
        )?;
        Ok(Call::AlterPartition { db, table, part })
    }
}

/// `alter_partitions`: the database, the table, and the partitions' new records.
#[derive(Clone, Copy)]
pub struct AlterPartitions;

impl Ask for AlterPartitions {
    type Slots = Three<Text, Text, ListOf<PartitionFields>>;

    ghost makes = { λ _ slots. alter_partitions_call slots.first slots.second slots.third };

    fn make(self, slots: Three<Text, Text, ListOf<PartitionFields>>) -> Result<Call, i16> {
        let (db, table, parts) = needed_three(slots.first, slots.second, slots.third)?;
        Ok(Call::AlterPartitions { db, table, parts })
    }
}

/// `rename_partition`: the database, the table, the values, and the partition with its new values.
#[derive(Clone, Copy)]
pub struct RenamePartition;

impl Ask for RenamePartition {
    type Slots = Four<Text, Text, Texts, PartitionFields>;

    ghost makes = { λ _ slots. rename_partition_call slots.first slots.second slots.third slots.fourth };

    fn make(self, slots: Four<Text, Text, Texts, PartitionFields>) -> Result<Call, i16> {
        let (db, table, values, part) = needed_four(
            slots.first,
            slots.second,
            slots.third,
            slots.fourth,
        )?;
        Ok(Call::RenamePartition {
            db,
            table,
            values,
            part,
        })
    }
}
