//! What the calls on tables make of their arguments. Of a context nothing is used.

ghost use Rattle.std.specs.Prelude.{◌≡◌, ℤ, Result};
ghost use Rattle.ms_calls.specs.Arguments.{alter_table_call, create_table_call, drop_table_call, get_table_objects_by_name_call, get_table_req_call};
ghost use Rattle.ms_structs.specs.declared.got.Got.TheVariants.{Nothing};

use crate::arguments::{Ask, needed, needed_three, needed_two, with_context};
use crate::slots::{Four, One, Three, Two};
use cat_types::{Call, Text, Texts};
use table_structs::{ContextFields, TableFields, TableRequest};

/// `create_table`: the table.
#[derive(Clone, Copy)]
pub struct CreateTable;

impl Ask for CreateTable {
    type Slots = One<TableFields>;

    ghost makes = { λ _ slots. create_table_call slots.first Nothing };

    fn make(self, slots: One<TableFields>) -> Result<Call, i16> {
        let table = needed(1, slots.first)?;
        Ok(Call::CreateTable { table })
    }
}

/// `create_table_with_environment_context`: the table, and a context.
#[derive(Clone, Copy)]
pub struct CreateTableWithContext;

impl Ask for CreateTableWithContext {
    type Slots = Two<TableFields, ContextFields>;

    ghost makes = { λ _ slots. create_table_call slots.first slots.second };

    fn make(self, slots: Two<TableFields, ContextFields>) -> Result<Call, i16> {
        let table = with_context(2, slots.second, needed(1, slots.first))?;
        Ok(Call::CreateTable { table })
    }
}

/// `drop_table_with_environment_context`: the database and the table, whether its data is deleted,
/// which is not used, and a context.
#[derive(Clone, Copy)]
pub struct DropTableWithContext;

impl Ask for DropTableWithContext {
    type Slots = Four<Text, Text, bool, ContextFields>;

    ghost makes = { λ _ slots. drop_table_call slots.first slots.second slots.fourth };

    fn make(self, slots: Four<Text, Text, bool, ContextFields>) -> Result<Call, i16> {
        let (db, table) = with_context(4, slots.fourth, needed_two(slots.first, slots.second))?;
        Ok(Call::DropTable { db, table })
    }
}

/// `get_table_req`: a request, whose names may be absent.
#[derive(Clone, Copy)]
pub struct GetTableReq;

impl Ask for GetTableReq {
    type Slots = One<TableRequest>;

    ghost makes = { λ _ slots. get_table_req_call slots.first };

    fn make(self, slots: One<TableRequest>) -> Result<Call, i16> {
        let TableRequest { db, table } = needed(1, slots.first)?;
        Ok(Call::GetTableReq { db, table })
    }
}

/// `get_table_objects_by_name`: the database and the tables.
#[derive(Clone, Copy)]
pub struct GetTableObjectsByName;

impl Ask for GetTableObjectsByName {
    type Slots = Two<Text, Texts>;

    ghost makes = { λ _ slots. get_table_objects_by_name_call slots.first slots.second };

    fn make(self, slots: Two<Text, Texts>) -> Result<Call, i16> {
        let (db, tables) = needed_two(slots.first, slots.second)?;
        Ok(Call::GetTableObjectsByName { db, tables })
    }
}

/// `alter_table`: the database, the table, and its new record.
#[derive(Clone, Copy)]
pub struct AlterTable;

impl Ask for AlterTable {
    type Slots = Three<Text, Text, TableFields>;

    ghost makes = { λ _ slots. alter_table_call slots.first slots.second slots.third Nothing };

    fn make(self, slots: Three<Text, Text, TableFields>) -> Result<Call, i16> {
        let (db, table, new) = needed_three(slots.first, slots.second, slots.third)?;
        Ok(Call::AlterTable { db, table, new })
    }
}

/// `alter_table_with_environment_context`: the database, the table, its new record, and a context.
#[derive(Clone, Copy)]
pub struct AlterTableWithContext;

impl Ask for AlterTableWithContext {
    type Slots = Four<Text, Text, TableFields, ContextFields>;

    ghost makes = { λ _ slots. alter_table_call slots.first slots.second slots.third slots.fourth };

    fn make(self, slots: Four<Text, Text, TableFields, ContextFields>) -> Result<Call, i16> {
        let (db, table, new) = with_context(
            4,
            slots.fourth,
            needed_three(slots.first, slots.second, slots.third),
        )?;
        Ok(Call::AlterTable { db, table, new })
    }
}
