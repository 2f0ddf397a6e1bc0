//! What the calls on databases make of their arguments.

ghost use Rattle.std.specs.Prelude.{◌≡◌, ℤ, Result};
ghost use Rattle.ms_calls.specs.Arguments.{alter_database_call, create_database_call, drop_database_call};

use crate::arguments::{Ask, given, needed, needed_two};
use crate::slots::{One, Three, Two};
use cat_types::{Call, DbArg, Text};

/// `create_database`: the database.
#[derive(Clone, Copy)]
pub struct CreateDatabase;

impl Ask for CreateDatabase {
    type Slots = One<DbArg>;

    ghost makes = { λ _ slots. create_database_call slots.first };

    fn make(self, slots: One<DbArg>) -> Result<Call, i16> {
        let db = needed(1, slots.first)?;
        Ok(Call::CreateDatabase { db })
    }
}

/// `drop_database`: the name, whether its data is deleted, which is not used, and whether all that
/// it holds is dropped.
#[derive(Clone, Copy)]
pub struct DropDatabase;

impl Ask for DropDatabase {
    type Slots = Three<Text, bool, bool>;

    ghost makes = { λ _ slots. drop_database_call slots.first slots.third };

    fn make(self, slots: Three<Text, bool, bool>) -> Result<Call, i16> {
        let name = needed(1, slots.first)?;
        let cascade = given(3, false, slots.third)?;
        Ok(Call::DropDatabase { name, cascade })
    }
}

/// `alter_database`: the name, and the new record.
#[derive(Clone, Copy)]
pub struct AlterDatabase;

impl Ask for AlterDatabase {
    type Slots = Two<Text, DbArg>;

    ghost makes = { λ _ slots. alter_database_call slots.first slots.second };

    fn make(self, slots: Two<Text, DbArg>) -> Result<Call, i16> {
        let (name, db) = needed_two(slots.first, slots.second)?;
        Ok(Call::AlterDatabase { name, db })
    }
}
