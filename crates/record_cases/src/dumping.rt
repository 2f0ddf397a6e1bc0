//! Steps of dumps and their answers, in words.

use crate::outcome::words_of;
use crate::phases::number_of;
use crate::texts::texts_of;
use crate::worded::text_of;
use cat_types::{Answer, DumpRefusal, Events, Item, Items, Step, Text, Texts};
use change_codec::{get_events, get_items};
use std::alloc::Global;
use table_cases::{Unable, bytes_of};

/// A step of a dump or a trim, by its kind and words.
pub fn dump_step(alloc: Global, kind: &str, words: &str) -> Result<Step, Unable> {
    match kind {
        "dump_begin" => begin_of(alloc, words),
        "dump_table" => table_step(alloc, words),
        "dump_parts" => parts_step(alloc, words),
        "dump_seal" => Ok(Step::DumpSeal {
            dump: number_of(words)?,
        }),
        "dump_events" => events_step(words),
        "dump_end" => Ok(Step::DumpEnd {
            dump: number_of(words)?,
        }),
        "trim" => Ok(Step::Trim {
            upto: signed_of(words)?,
        }),
        _ => Err(Unable::Form),
    }
}

// A dump that is begun, by its database and its range.
fn begin_of(alloc: Global, words: &str) -> Result<Step, Unable> {
    let (db, rest) = words_of(words);
    let (from, rest) = words_of(rest);
    let (to, limit) = words_of(rest);
    let (from, to, limit) = (maybe(from)?, maybe(to)?, maybe(limit)?);
    Ok(Step::DumpBegin {
        db: Text::of(alloc, db)?,
        from,
        to,
        limit,
    })
}

fn table_step(alloc: Global, words: &str) -> Result<Step, Unable> {
    let (dump, after) = words_of(words);
    let dump = number_of(dump)?;
    Ok(Step::DumpTable {
        dump,
        after: text_of(alloc, after)?,
    })
}

fn parts_step(alloc: Global, words: &str) -> Result<Step, Unable> {
    let (dump, rest) = words_of(words);
    let (table, rest) = words_of(rest);
    let (born, after) = words_of(rest);
    let (dump, born) = (number_of(dump)?, number_of(born)?);
    let after = values_of(alloc, after)?;
    Ok(Step::DumpParts {
        dump,
        table: Text::of(alloc, table)?,
        born,
        after,
    })
}

fn events_step(words: &str) -> Result<Step, Unable> {
    let (dump, after) = words_of(words);
    Ok(Step::DumpEvents {
        dump: number_of(dump)?,
        after: number_of(after)?,
    })
}

/// An answer to a step of a dump or to a trim, by its kind and words.
pub fn dump_answer(alloc: Global, kind: &str, words: &str) -> Result<Answer, Unable> {
    match kind {
        "began" => began_of(alloc, words),
        "table" => Ok(Answer::Table(item_of(alloc, words)?)),
        "no_table" => Ok(Answer::NoTable),
        "dumped_parts" => parts_answer(alloc, words),
        "sealed" => Ok(Answer::Sealed(number_of(words)?)),
        "dumped_events" => events_answer(alloc, words),
        "ended" => Ok(Answer::Ended),
        "no_such_db" => Ok(Answer::DumpRefused(DumpRefusal::NoSuchDb)),
        "is_replica" => Ok(Answer::DumpRefused(DumpRefusal::IsReplica)),
        "bad_range" => Ok(Answer::DumpRefused(DumpRefusal::BadRange)),
        "gone" => Ok(Answer::DumpRefused(DumpRefusal::DatabaseGone(number_of(words)?))),
        "missing" => Ok(Answer::DumpRefused(DumpRefusal::MissingEvents(number_of(words)?))),
        "used_up" => Ok(Answer::DumpRefused(DumpRefusal::UsedUp)),
        "kept" => Ok(Answer::Kept(number_of(words)?)),
        "not_open" => Ok(Answer::NotOpen),
        "store_fault" => Ok(Answer::StoreFault),
        "no_memory" => Ok(Answer::NoMemory),
        _ => Err(Unable::Form),
    }
}

// How a dump with this number began, with the item of these bytes where there are any.
fn began_of(alloc: Global, words: &str) -> Result<Answer, Unable> {
    let (dump, digits) = words_of(words);
    let dump = number_of(dump)?;
    let item = if digits == "-" {
        None
    } else {
        Some(item_of(alloc, digits)?)
    };
    Ok(Answer::Began {
        dump,
        source: [170; 16],
        born: 1,
        begin: 2,
        end: 3,
        item,
    })
}

fn parts_answer(alloc: Global, words: &str) -> Result<Answer, Unable> {
    let (more, digits) = words_of(words);
    let more = is_yes(more)?;
    Ok(Answer::Parts {
        parts: items_of(alloc, digits)?,
        more,
    })
}

fn events_answer(alloc: Global, words: &str) -> Result<Answer, Unable> {
    let (more, digits) = words_of(words);
    let more = is_yes(more)?;
    Ok(Answer::Events {
        events: events_of(alloc, digits)?,
        more,
    })
}

/// Events, by the digits of their bytes.
pub fn events_of(alloc: Global, digits: &str) -> Result<Events, Unable> {
    let bytes = bytes_of(alloc, digits)?;
    get_events(alloc, &bytes).or(Err(Unable::Form))
}

// Items, by the digits of their bytes.
fn items_of(alloc: Global, digits: &str) -> Result<Items, Unable> {
    let bytes = bytes_of(alloc, digits)?;
    get_items(alloc, &bytes).or(Err(Unable::Form))
}

// The last of these items.
fn item_of(alloc: Global, digits: &str) -> Result<Item, Unable> {
    items_of(alloc, digits)?
        .into_vec()
        .pop()
        .ok_or(Unable::Form)
}

fn values_of(alloc: Global, word: &str) -> Result<Option<Texts>, Unable> {
    if word == "-" {
        return Ok(None);
    }
    Ok(Some(texts_of(alloc, word)?))
}

fn is_yes(word: &str) -> Result<bool, Unable> {
    match word {
        "yes" => Ok(true),
        "no" => Ok(false),
        _ => Err(Unable::Form),
    }
}

// A number, where there is one.
fn maybe(word: &str) -> Result<Option<i64>, Unable> {
    if word == "-" {
        return Ok(None);
    }
    Ok(Some(signed_of(word)?))
}

fn signed_of(word: &str) -> Result<i64, Unable> {
    word.parse::<i64>().or(Err(Unable::Form))
}
