//! What calls on partitions make of values and limits.

ghost use Rattle.std.specs.Prelude.{◌≡◌, ℤ, Result};
ghost use Rattle.ms_calls.specs.Arguments.{call_of_first_values, call_of_limit, call_of_values, from_three, list_call, list_some_call};

use crate::arguments::{Ask, given, needed_three, needed_two};
use crate::limit::Limit;
use crate::slots::{Four, Three};
use cat_types::{Call, Text, Texts};

/// The limit that counts where none is given: all are wanted.
pub const NO_LIMIT: i16 = -1;

/// A call with a database, a table, and values or names of partitions.
#[derive(Clone, Copy)]
pub enum OfValues {
    AppendPartition,
    DropPartition,
    GetPartition,
    GetPartitionsByNames,
}

impl OfValues {
    // The call with these arguments.
    fn call(self, db: Text, table: Text, values: Texts) -> Call
        ensures { result ≡ call_of_values self db table values }
    {
        match self {
            OfValues::AppendPartition => Call::AppendPartition { db, table, values },
            OfValues::DropPartition => Call::DropPartition { db, table, values },
            OfValues::GetPartition => Call::GetPartition { db, table, values },
            OfValues::GetPartitionsByNames => Call::GetPartitionsByNames {
                db,
                table,
                names: values,
            },
        }
    }
}

impl Ask for OfValues {
    type Slots = Three<Text, Text, Texts>;

    ghost makes = { λ call slots. from_three slots.first slots.second slots.third (call_of_values call) };

    fn make(self, slots: Three<Text, Text, Texts>) -> Result<Call, i16> {
        let (db, table, values) = needed_three(slots.first, slots.second, slots.third)?;
        Ok(self.call(db, table, values))
    }
}

/// A call with a database, a table, and how many are wanted at most.
#[derive(Clone, Copy)]
pub enum OfLimit {
    GetPartitions,
    GetPartitionNames,
}

impl OfLimit {
    // The call with these arguments.
    fn call(self, db: Text, table: Text, max: i16) -> Call
        ensures { result ≡ call_of_limit self db table max }
    {
        match self {
            OfLimit::GetPartitions => Call::GetPartitions { db, table, max },
            OfLimit::GetPartitionNames => Call::GetPartitionNames { db, table, max },
        }
    }
}

impl Ask for OfLimit {
    type Slots = Three<Text, Text, Limit>;

    ghost makes = { λ call slots. list_call slots.first slots.second slots.third (call_of_limit call) };

    fn make(self, slots: Three<Text, Text, Limit>) -> Result<Call, i16> {
        let (db, table) = needed_two(slots.first, slots.second)?;
        let max = given(3, NO_LIMIT, slots.third)?;
        Ok(self.call(db, table, max))
    }
}

/// A call with a database, a table, the first values of partitions, and how many are wanted at most.
#[derive(Clone, Copy)]
pub enum OfFirstValues {
    GetPartitionsPs,
    GetPartitionNamesPs,
}

impl OfFirstValues {
    // The call with these arguments.
    fn call(self, db: Text, table: Text, values: Texts, max: i16) -> Call
        ensures { result ≡ call_of_first_values self db table values max }
    {
        match self {
            OfFirstValues::GetPartitionsPs => Call::GetPartitionsPs {
                db,
                table,
                values,
                max,
            },
            OfFirstValues::GetPartitionNamesPs => Call::GetPartitionNamesPs {
                db,
                table,
                values,
                max,
            },
        }
    }
}

impl Ask for OfFirstValues {
    type Slots = Four<Text, Text, Texts, Limit>;

    ghost makes = { λ call slots. list_some_call slots.first slots.second slots.third slots.fourth (call_of_first_values call) };

    fn make(self, slots: Four<Text, Text, Texts, Limit>) -> Result<Call, i16> {
        let (db, table, values) = needed_three(slots.first, slots.second, slots.third)?;
        let max = given(4, NO_LIMIT, slots.fourth)?;
        Ok(self.call(db, table, values, max))
    }
}
