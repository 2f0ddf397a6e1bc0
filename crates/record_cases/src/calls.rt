//! Calls and steps in words.

use crate::dumping::dump_step;
use crate::outcome::words_of;
use crate::phases::number_of;
use crate::table_calls::table_call_of;
use crate::worded::{Worded, owned_by, text_of};
use cat_types::{Call, DbArg, Step, Text};
use std::alloc::Global;
use table_cases::Unable;

impl Worded for Call {
    fn of(alloc: Global, words: &str) -> Result<Call, Unable> {
        let (call, rest) = words_of(words);
        match call {
            "get_all_databases" => Ok(Call::GetAllDatabases),
            "get_database" => Ok(Call::GetDatabase {
                name: Text::of(alloc, rest)?,
            }),
            "create_database" => Ok(Call::CreateDatabase {
                db: db_arg_of(alloc, rest)?,
            }),
            "drop_database" => drop_database(alloc, rest),
            "get_databases" => Ok(Call::GetDatabases {
                pattern: Text::of(alloc, rest)?,
            }),
            "alter_database" => alter_database(alloc, rest),
            "get_next_notification" => next_notification(rest),
            "get_current_notificationEventId" => Ok(Call::GetCurrentNotificationEventId),
            _ => table_call_of(alloc, call, rest),
        }
    }
}

// A database that is handed in, by its name and owner.
fn db_arg_of(alloc: Global, words: &str) -> Result<DbArg, Unable> {
    let (name, owner) = words_of(words);
    let name = text_of(alloc, name)?;
    let rec = owned_by(alloc, owner)?;
    Ok(DbArg { name, rec })
}

// The drop of a database, by its name and how far it goes.
fn drop_database(alloc: Global, words: &str) -> Result<Call, Unable> {
    let (name, reach) = words_of(words);
    let cascade = match reach {
        "cascade" => true,
        "restrict" => false,
        _ => return Err(Unable::Form),
    };
    let name = Text::of(alloc, name)?;
    Ok(Call::DropDatabase { name, cascade })
}

// The change of a database, by its name and the database that is handed in.
fn alter_database(alloc: Global, words: &str) -> Result<Call, Unable> {
    let (name, db) = words_of(words);
    let name = Text::of(alloc, name)?;
    let db = db_arg_of(alloc, db)?;
    Ok(Call::AlterDatabase { name, db })
}

// A poll, by its number and how many events it asks for.
fn next_notification(words: &str) -> Result<Call, Unable> {
    let (last, max) = words_of(words);
    let last = last.parse::<i64>().or(Err(Unable::Form))?;
    if max == "-" {
        return Ok(Call::GetNextNotification { last, max: None });
    }
    let max = max.parse::<i32>().or(Err(Unable::Form))?;
    Ok(Call::GetNextNotification {
        last,
        max: Some(max),
    })
}

impl Worded for Step {
    fn of(alloc: Global, words: &str) -> Result<Step, Unable> {
        let (first, rest) = words_of(words);
        match first.parse::<u64>() {
            Ok(moment) => {
                let call = Call::of(alloc, rest)?;
                Ok(Step::Client { call, moment })
            }
            Err(_) => dump_step(alloc, first, rest),
        }
    }
}
