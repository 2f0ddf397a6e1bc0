//! What the calls on statistics of columns make of their arguments.

ghost use Rattle.std.specs.Prelude.{◌≡◌, ℤ, Result};
ghost use Rattle.ms_calls.specs.Arguments.{call_of_statistics, delete_part_statistics_call, delete_statistics_call, from_one, get_part_statistics_call, get_statistics_req_call};

use crate::arguments::{Ask, needed, needed_four, needed_three, needed_two, optional};
use crate::slots::{Four, One, Three};
use cat_types::{Call, StatsArg, Text};
use stat_structs::{StatisticsFields, StatsRequest};

/// A call with statistics.
#[derive(Clone, Copy)]
pub enum UpdateStatistics {
    /// `update_table_column_statistics`.
    OfTable,
    /// `update_partition_column_statistics`.
    OfPartition,
}

impl UpdateStatistics {
    // The call with these statistics.
    fn call(self, stats: StatsArg) -> Call
        ensures { result ≡ call_of_statistics self stats }
    {
        match self {
            UpdateStatistics::OfTable => Call::UpdateTableColumnStatistics { stats },
            UpdateStatistics::OfPartition => Call::UpdatePartitionColumnStatistics { stats },
        }
    }
}

impl Ask for UpdateStatistics {
    type Slots = One<StatisticsFields>;

    ghost makes = { λ call slots. from_one slots.first (call_of_statistics call) };

    fn make(self, slots: One<StatisticsFields>) -> Result<Call, i16> {
        let stats = needed(1, slots.first)?;
        Ok(self.call(stats))
    }
}

/// `get_partition_column_statistics`: the database, the table, the partition's name and the column.
#[derive(Clone, Copy)]
pub struct GetPartitionColumnStatistics;

impl Ask for GetPartitionColumnStatistics {
    type Slots = Four<Text, Text, Text, Text>;

    ghost makes = { λ _ slots. get_part_statistics_call slots.first slots.second slots.third slots.fourth };

    fn make(self, slots: Four<Text, Text, Text, Text>) -> Result<Call, i16> {
        let (db, table, part, col) = needed_four(
            slots.first,
            slots.second,
            slots.third,
            slots.fourth,
        )?;
        Ok(Call::GetPartitionColumnStatistics {
            db,
            table,
            part,
            col,
        })
    }
}

/// `delete_table_column_statistics`: the database and the table, and the column, which may be absent.
#[derive(Clone, Copy)]
pub struct DeleteTableColumnStatistics;

impl Ask for DeleteTableColumnStatistics {
    type Slots = Three<Text, Text, Text>;

    ghost makes = { λ _ slots. delete_statistics_call slots.first slots.second slots.third };

    fn make(self, slots: Three<Text, Text, Text>) -> Result<Call, i16> {
        let (db, table) = needed_two(slots.first, slots.second)?;
        let col = optional(3, slots.third)?;
        Ok(Call::DeleteTableColumnStatistics { db, table, col })
    }
}

/// `delete_partition_column_statistics`: the database, the table and the partition's name, and the
/// column, which may be absent.
#[derive(Clone, Copy)]
pub struct DeletePartitionColumnStatistics;

impl Ask for DeletePartitionColumnStatistics {
    type Slots = Four<Text, Text, Text, Text>;

    ghost makes = { λ _ slots. delete_part_statistics_call slots.first slots.second slots.third slots.fourth };

    fn make(self, slots: Four<Text, Text, Text, Text>) -> Result<Call, i16> {
        let (db, table, part) = needed_three(slots.first, slots.second, slots.third)?;
        let col = optional(4, slots.fourth)?;
        Ok(Call::DeletePartitionColumnStatistics {
            db,
            table,
            part,
            col,
        })
    }
}

/// `get_table_statistics_req`: a request, whose names may be absent.
#[derive(Clone, Copy)]
pub struct GetTableStatisticsReq;

impl Ask for GetTableStatisticsReq {
    type Slots = One<StatsRequest>;

    ghost makes = { λ _ slots. get_statistics_req_call slots.first };

    fn make(self, slots: One<StatsRequest>) -> Result<Call, i16> {
        let StatsRequest { db, table, cols } = needed(1, slots.first)?;
        Ok(Call::GetTableStatisticsReq { db, table, cols })
    }
}
