//! What calls make of one text, of two, and of three.

ghost use Rattle.std.specs.Prelude.{◌≡◌, ℤ, Result};
ghost use Rattle.ms_calls.specs.Arguments.{call_of_text, call_of_three_texts, call_of_two_texts, from_one, from_three, from_two};

use crate::arguments::{Ask, needed, needed_three, needed_two};
use crate::slots::{One, Three, Two};
use cat_types::{Call, Text};

/// A call with one text.
#[derive(Clone, Copy)]
pub enum OfText {
    GetDatabase,
    GetDatabases,
    GetAllTables,
}

impl OfText {
    // The call with this text.
    fn call(self, text: Text) -> Call
        ensures { result ≡ call_of_text self text }
    {
        match self {
            OfText::GetDatabase => Call::GetDatabase { name: text },
            OfText::GetDatabases => Call::GetDatabases { pattern: text },
            OfText::GetAllTables => Call::GetAllTables { db: text },
        }
    }
}

impl Ask for OfText {
    type Slots = One<Text>;

    ghost makes = { λ call slots. from_one slots.first (call_of_text call) };

    fn make(self, slots: One<Text>) -> Result<Call, i16> {
        let text = needed(1, slots.first)?;
        Ok(self.call(text))
    }
}

/// A call with a database and another text, a table's name or a pattern.
#[derive(Clone, Copy)]
pub enum OfTwoTexts {
    DropTable,
    GetTables,
    GetTable,
    GetFields,
    GetSchema,
}

impl OfTwoTexts {
    // The call with these texts.
    fn call(self, db: Text, second: Text) -> Call
        ensures { result ≡ call_of_two_texts self db second }
    {
        match self {
            OfTwoTexts::DropTable => Call::DropTable { db, table: second },
            OfTwoTexts::GetTables => Call::GetTables {
                db,
                pattern: second,
            },
            OfTwoTexts::GetTable => Call::GetTable { db, table: second },
            OfTwoTexts::GetFields => Call::GetFields { db, table: second },
            OfTwoTexts::GetSchema => Call::GetSchema { db, table: second },
        }
    }
}

impl Ask for OfTwoTexts {
    type Slots = Two<Text, Text>;

    ghost makes = { λ call slots. from_two slots.first slots.second (call_of_two_texts call) };

    fn make(self, slots: Two<Text, Text>) -> Result<Call, i16> {
        let (db, second) = needed_two(slots.first, slots.second)?;
        Ok(self.call(db, second))
    }
}

/// A call with a database, a table and another text: a partition's name, a filter, or a column.
#[derive(Clone, Copy)]
pub enum OfThreeTexts {
    AppendPartitionByName,
    DropPartitionByName,
    GetPartitionByName,
    GetNumPartitionsByFilter,
    GetTableColumnStatistics,
}

impl OfThreeTexts {
    // The call with these texts.
    fn call(self, db: Text, table: Text, third: Text) -> Call
        ensures { result ≡ call_of_three_texts self db table third }
    {
        match self {
            OfThreeTexts::AppendPartitionByName => Call::AppendPartitionByName {
                db,
                table,
                name: third,
            },
            OfThreeTexts::DropPartitionByName => Call::DropPartitionByName {
                db,
                table,
                name: third,
            },
            OfThreeTexts::GetPartitionByName => Call::GetPartitionByName {
                db,
                table,
                name: third,
            },
            OfThreeTexts::GetNumPartitionsByFilter => Call::GetNumPartitionsByFilter {
                db,
                table,
                filter: third,
            },
            OfThreeTexts::GetTableColumnStatistics => Call::GetTableColumnStatistics {
                db,
                table,
                col: third,
            },
        }
    }
}

impl Ask for OfThreeTexts {
    type Slots = Three<Text, Text, Text>;

    ghost makes = { λ call slots. from_three slots.first slots.second slots.third (call_of_three_texts call) };

    fn make(self, slots: Three<Text, Text, Text>) -> Result<Call, i16> {
        let (db, table, third) = needed_three(slots.first, slots.second, slots.third)?;
        Ok(self.call(db, table, third))
    }
}
