//! The event of a database's creation, made of its parts.

use crate::outcome::{said, said_fault};
use cat_types::{Bytes, Change, DbRec, Event, EventKind, ListOf, MapOf, Op, Ops, Text};
use change_codec::{get_event, put_event};
use std::alloc::Global;
use table_cases::{Unable, digits_of};

/// The bytes that are written behind one other byte.
pub fn written(alloc: Global) -> Result<String, Unable> {
    let event = creation(alloc)?;
    written_behind(alloc, &event)
}

// The bytes of an event behind one other byte.
fn written_behind(alloc: Global, event: &Event) -> Result<String, Unable> {
    let mut out = Bytes::from_slice(alloc, &[7])?;
    put_event(event, &mut out)?;
    Ok(digits_of(alloc, out.as_slice())?)
}

// The event that makes the database `x` at the moment 5, as event 1.
fn creation(alloc: Global) -> Result<Event, Unable> {
    let ops = operations(alloc)?;
    let change = Change {
        kind: EventKind::CreateDatabase,
        db: Text::of(alloc, "x")?,
        db_born: 1,
        ops,
    };
    Ok(Event {
        id: 1,
        moment: 5,
        change,
    })
}

// The one operation of that event.
fn operations(alloc: Global) -> Result<Ops, Unable> {
    let rec = DbRec {
        description: None,
        location: None,
        params: MapOf::new(alloc),
        owner: None,
    };
    let mut ops: Ops = ListOf::new(alloc);
    ops.push(Op::PutDb { rec })?;
    Ok(ops)
}

/// Whether these bytes spell that event.
pub fn judged(alloc: Global, bytes: &[u8]) -> Result<String, Unable> {
    match get_event(alloc, bytes) {
        Ok(event) => said(alloc, name_of(&event)),
        Err(fault) => said_fault(alloc, fault),
    }
}

// What an event is.
fn name_of(event: &Event) -> &'static str {
    if is_creation(event) {
        "the creation"
    } else {
        "another event"
    }
}

// Whether an event has the fields of the creation.
fn is_creation(event: &Event) -> bool {
    let change = &event.change;
    let known = event.id == 1 && event.moment == 5 && change.db_born == 1;
    let one = change.ops.len() == 1 && matches!(change.ops.get(0), Some(Op::PutDb { .. }));
    known && one && change.kind == EventKind::CreateDatabase && change.db.as_str() == "x"
}
