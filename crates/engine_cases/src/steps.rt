//! Steps in words.

use crate::calls::call_of;
use crate::words::{maybe_signed, maybe_text, maybe_texts, number_of, signed_of, words_of};
use cat_types::{Step, Text};
use std::alloc::Global;
use table_cases::Unable;

/// The step of these words. A call is one at the moment 5.
pub fn step_of(alloc: Global, words: &str) -> Result<Step, Unable> {
    let (kind, rest) = words_of(words);
    match kind {
        "begin" => begin_of(alloc, rest),
        "table" => table_of(alloc, rest),
        "parts" => parts_of(alloc, rest),
        "seal" => Ok(Step::DumpSeal {
            dump: number_of(rest)?,
        }),
        "events" => events_of(rest),
        "end" => Ok(Step::DumpEnd {
            dump: number_of(rest)?,
        }),
        "trim" => Ok(Step::Trim {
            upto: signed_of(rest)?,
        }),
        _ => Ok(Step::Client {
            call: call_of(alloc, kind, rest)?,
            moment: 5,
        }),
    }
}

// A dump that is begun, by the words `DB FROM TO LIMIT`.
fn begin_of(alloc: Global, words: &str) -> Result<Step, Unable> {
    let (db, rest) = words_of(words);
    let (from, rest) = words_of(rest);
    let (to, limit) = words_of(rest);
    let (from, to, limit) = (maybe_signed(from)?, maybe_signed(to)?, maybe_signed(limit)?);
    Ok(Step::DumpBegin {
        db: Text::of(alloc, db)?,
        from,
        to,
        limit,
    })
}

fn table_of(alloc: Global, words: &str) -> Result<Step, Unable> {
    let (dump, after) = words_of(words);
    let dump = number_of(dump)?;
    Ok(Step::DumpTable {
        dump,
        after: maybe_text(alloc, after)?,
    })
}

// Partitions of a dump, by the words `DUMP TABLE BORN AFTER`.
fn parts_of(alloc: Global, words: &str) -> Result<Step, Unable> {
    let (dump, rest) = words_of(words);
    let (table, rest) = words_of(rest);
    let (born, after) = words_of(rest);
    let (dump, born) = (number_of(dump)?, number_of(born)?);
    let after = maybe_texts(alloc, after)?;
    Ok(Step::DumpParts {
        dump,
        table: Text::of(alloc, table)?,
        born,
        after,
    })
}

fn events_of(words: &str) -> Result<Step, Unable> {
    let (dump, after) = words_of(words);
    Ok(Step::DumpEvents {
        dump: number_of(dump)?,
        after: number_of(after)?,
    })
}
