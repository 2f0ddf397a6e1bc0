//! Answers in words.

use cat_types::{Answer, DumpRefusal, Event, Events, Item, Items, Reply, Texts};
use std::fmt::Write;
use table_cases::Unable;

/// Adds the words of an answer.
pub fn tell(said: &mut String, answer: Answer) -> Result<(), Unable> {
    match &answer {
        Answer::Reply(reply) => tell_reply(said, reply)?,
        Answer::Began {
            dump,
            born,
            begin,
            end,
            item,
            ..
        } => {
            write!(said, "began {dump} born {born} from {begin} to {end}")?;
            if item.is_some() {
                said.push_str(" whole")?;
            }
        }
        Answer::Table(item) => tell_item(said, item)?,
        Answer::NoTable => said.push_str("no table")?,
        Answer::Parts { parts, more } => tell_parts(said, parts, *more)?,
        Answer::Sealed(end) => write!(said, "sealed {end}")?,
        Answer::Events { events, more } => tell_events(said, events, *more)?,
        Answer::Ended => said.push_str("ended")?,
        Answer::DumpRefused(refusal) => tell_refusal(said, *refusal)?,
        Answer::Kept(first) => write!(said, "kept {first}")?,
        Answer::NotOpen => said.push_str("not open")?,
        Answer::StoreFault => said.push_str("store fault")?,
        Answer::NoMemory => return Err(Unable::NoMemory),
    }
    drop(answer);
    Ok(())
}

fn tell_reply(said: &mut String, reply: &Reply) -> Result<(), Unable> {
    match reply {
        Reply::Refused(number, _) => write!(said, "refused {number}")?,
        _ => said.push_str("done")?,
    }
    Ok(())
}

fn tell_item(said: &mut String, item: &Item) -> Result<(), Unable> {
    match item {
        Item::Db { at, born, .. } => write!(said, "database born {born} at {at}")?,
        Item::Table {
            at,
            table,
            born,
            ..
        } => {
            let name = table.as_str();
            write!(said, "table {name} born {born} at {at}")?;
        }
        Item::Part { at, values, .. } => {
            tell_values(said, values)?;
            write!(said, " at {at}")?;
        }
    }
    Ok(())
}

// These texts, with commas between them.
fn tell_values(said: &mut String, values: &Texts) -> Result<(), Unable> {
    let mut between = "";
    for value in values.as_slice() {
        said.push_str(between)?;
        said.push_str(value.as_str())?;
        between = ",";
    }
    Ok(())
}

// How many partitions, the first and the last of them, and whether others follow.
fn tell_parts(said: &mut String, parts: &Items, more: bool) -> Result<(), Unable> {
    let count = parts.len();
    write!(said, "{count} parts")?;
    if let [first, .., last] = parts.as_slice() {
        said.push_str(": ")?;
        tell_item(said, first)?;
        said.push_str(" to ")?;
        tell_item(said, last)?;
    }
    if let [only] = parts.as_slice() {
        said.push_str(": ")?;
        tell_item(said, only)?;
    }
    tell_more(said, more)
}

// How many events at most are told one by one.
const TOLD_EVENTS: usize = 9;

// The numbers of events, of many the first and the last and how many they are, and whether others follow.
fn tell_events(said: &mut String, events: &Events, more: bool) -> Result<(), Unable> {
    said.push_str("events")?;
    match events.as_slice() {
        [first, .., last] if events.len() > TOLD_EVENTS => {
            let (first, last, count) = (first.id, last.id, events.len());
            write!(said, " {first} to {last}, {count} of them")?;
        }
        few => tell_numbers(said, few)?,
    }
    tell_more(said, more)
}

fn tell_numbers(said: &mut String, events: &[Event]) -> Result<(), Unable> {
    for event in events {
        let id = event.id;
        write!(said, " {id}")?;
    }
    Ok(())
}

fn tell_more(said: &mut String, more: bool) -> Result<(), Unable> {
    if more {
        said.push_str(" and more")?;
    }
    Ok(())
}

/// Adds the words of a refusal.
pub fn tell_refusal(said: &mut String, refusal: DumpRefusal) -> Result<(), Unable> {
    match refusal {
        DumpRefusal::NoSuchDb => said.push_str("no such database")?,
        DumpRefusal::IsReplica => said.push_str("is a replica")?,
        DumpRefusal::BadRange => said.push_str("bad range")?,
        DumpRefusal::DatabaseGone(born) => write!(said, "database gone, born {born}")?,
        DumpRefusal::MissingEvents(first) => write!(said, "missing events: first kept {first}")?,
        DumpRefusal::UsedUp => said.push_str("dump numbers used up")?,
    }
    Ok(())
}
