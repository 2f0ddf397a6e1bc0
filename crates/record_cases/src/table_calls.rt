//! Calls on tables in words.

use crate::outcome::words_of;
use crate::stat_calls::stat_call_of;
use crate::texts::texts_of;
use crate::worded::{table_owned_by, text_of};
use cat_types::{Call, TableArg, Text};
use std::alloc::Global;
use table_cases::Unable;

/// The call with this name, by the words of its arguments.
pub fn table_call_of(alloc: Global, call: &str, words: &str) -> Result<Call, Unable> {
    match call {
        "create_table" => Ok(Call::CreateTable {
            table: table_arg_of(alloc, words)?,
        }),
        "get_all_tables" => Ok(Call::GetAllTables {
            db: Text::of(alloc, words)?,
        }),
        "get_table_req" => get_table_req(alloc, words),
        "get_table_objects_by_name" => get_tables_named(alloc, words),
        "alter_table" => alter_table(alloc, words),
        "drop_table" | "get_tables" | "get_table" | "get_fields" | "get_schema" => {
            call_by_names(alloc, call, words)
        }
        _ => stat_call_of(alloc, call, words),
    }
}

// A call whose arguments are two names.
fn call_by_names(alloc: Global, call: &str, words: &str) -> Result<Call, Unable> {
    let (db, table) = names_of(alloc, words)?;
    match call {
        "drop_table" => Ok(Call::DropTable { db, table }),
        "get_tables" => Ok(Call::GetTables { db, pattern: table }),
        "get_table" => Ok(Call::GetTable { db, table }),
        "get_fields" => Ok(Call::GetFields { db, table }),
        "get_schema" => Ok(Call::GetSchema { db, table }),
        _ => Err(Unable::Form),
    }
}

/// Two names.
pub fn names_of(alloc: Global, words: &str) -> Result<(Text, Text), Unable> {
    let (first, second) = words_of(words);
    let first = Text::of(alloc, first)?;
    let second = Text::of(alloc, second)?;
    Ok((first, second))
}

// A request for a table, whose names may be absent.
fn get_table_req(alloc: Global, words: &str) -> Result<Call, Unable> {
    let (db, table) = words_of(words);
    let db = text_of(alloc, db)?;
    let table = text_of(alloc, table)?;
    Ok(Call::GetTableReq { db, table })
}

// The look-up of tables, by their database and their names with commas between them.
fn get_tables_named(alloc: Global, words: &str) -> Result<Call, Unable> {
    let (db, tables) = words_of(words);
    let db = Text::of(alloc, db)?;
    let tables = texts_of(alloc, tables)?;
    Ok(Call::GetTableObjectsByName { db, tables })
}

// The change of a table, by its names and the table that is handed in.
fn alter_table(alloc: Global, words: &str) -> Result<Call, Unable> {
    let (db, words) = words_of(words);
    let (table, new) = words_of(words);
    let db = Text::of(alloc, db)?;
    let table = Text::of(alloc, table)?;
    let new = table_arg_of(alloc, new)?;
    Ok(Call::AlterTable { db, table, new })
}

// A table that is handed in, by the words `DB TABLE STORED OWNER`.
fn table_arg_of(alloc: Global, words: &str) -> Result<TableArg, Unable> {
    let (db, words) = words_of(words);
    let (table, words) = words_of(words);
    let (stored, owner) = words_of(words);
    let has_sd = is_stored(stored)?;
    let db = text_of(alloc, db)?;
    let table = text_of(alloc, table)?;
    let rec = table_owned_by(alloc, owner)?;
    Ok(TableArg {
        table,
        db,
        has_sd,
        rec,
    })
}

// Whether a word says that something was said of a table's storage.
fn is_stored(word: &str) -> Result<bool, Unable> {
    match word {
        "stored" => Ok(true),
        "bare" => Ok(false),
        _ => Err(Unable::Form),
    }
}
