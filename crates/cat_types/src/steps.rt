//! Steps of a store, and their answers.

use crate::{Call, Events, Item, Items, Reply};
use cat_values::{CopyParts, NoMemory, Text, Texts, TryCopy};
use std::alloc::Global;

/// One step that a store is asked to take. A dump is named by its number, and its steps behind the
/// first are taken by the caller who began it. Names of databases count in any case of their letters.
#[derive(Drop)]
pub enum Step {
    /// A call of the catalogue, at a moment in seconds since 1970.
    Client {
        call: Call,
        moment: u64,
    },
    /// Begins a dump of the database `db`: of all of it, or of the events after `from`; these up to
    /// `to`, and at most `limit` numbers of them.
    DumpBegin {
        db: Text,
        from: Option<i64>,
        to: Option<i64>,
        limit: Option<i64>,
    },
    /// The next table, whose name is above `after`.
    DumpTable {
        dump: u64,
        after: Option<Text>,
    },
    /// The next partitions of the table with this name and born, whose values are above `after`.
    DumpParts {
        dump: u64,
        table: Text,
        born: u64,
        after: Option<Texts>,
    },
    /// Ends the objects of a dump: its events go up to the newest one.
    DumpSeal {
        dump: u64,
    },
    /// The next events, whose numbers are above `after`.
    DumpEvents {
        dump: u64,
        after: u64,
    },
    /// Ends a dump.
    DumpEnd {
        dump: u64,
    },
    /// Takes off the kept events up to a number.
    Trim {
        upto: i64,
    },
}

/// What a store answers to a step.
#[derive(Drop)]
pub enum Answer {
    Reply(Reply),
    /// A dump was begun: its number, the store's id, the database's born, between which event
    /// numbers it lies, and the database where it is a dump of all of it.
    Began {
        dump: u64,
        source: [u8; 16],
        born: u64,
        begin: u64,
        end: u64,
        item: Option<Item>,
    },
    /// A table of a dump.
    Table(Item),
    /// No further table is there.
    NoTable,
    /// Partitions of a dump, and whether others follow.
    Parts {
        parts: Items,
        more: bool,
    },
    /// The dump ends at the event with this number.
    Sealed(u64),
    /// Events of a dump, and whether others follow.
    Events {
        events: Events,
        more: bool,
    },
    /// The dump was ended.
    Ended,
    DumpRefused(DumpRefusal),
    /// The number of the first kept event.
    Kept(u64),
    /// This caller has no open dump of this number, or the step can't come next in it.
    NotOpen,
    /// A disk failed, and the step was not taken.
    StoreFault,
    /// Memory was refused, and the step was not taken.
    NoMemory,
}

/// Why a dump is refused.
#[derive(Clone, Copy, Debug, PartialEq, Eq)]
pub enum DumpRefusal {
    /// No database has this name.
    NoSuchDb,
    /// The database follows another store.
    IsReplica,
    /// The numbers of events aren't a range that can be asked for.
    BadRange,
    /// The database with this born is gone, or younger than the events that are asked for.
    DatabaseGone(u64),
    /// Events that are asked for were taken off; the number is that of the first kept one.
    MissingEvents(u64),
    /// The numbers of dumps are used up.
    UsedUp,
}

impl TryCopy for Step {
    fn copy(&self, alloc: Global) -> Result<Step, NoMemory> {
        match self {
            Step::Client { call, moment } => match call.copy(alloc) {
                Ok(call) => Ok(Step::Client {
                    call,
                    moment: *moment,
                }),
                Err(NoMemory) => Err(NoMemory),
            },
            Step::DumpBegin {
                db,
                from,
                to,
                limit,
            } => match db.copy(alloc) {
                Ok(db) => Ok(Step::DumpBegin {
                    db,
                    from: *from,
                    to: *to,
                    limit: *limit,
                }),
                Err(NoMemory) => Err(NoMemory),
            },
            Step::DumpTable { dump, after } => match after.copy(alloc) {
                Ok(after) => Ok(Step::DumpTable { dump: *dump, after }),
                Err(NoMemory) => Err(NoMemory),
            },
            Step::DumpParts {
                dump,
                table,
                born,
                after,
            } => match (table, after).copy_parts(alloc) {
                Ok((table, after)) => Ok(Step::DumpParts {
                    dump: *dump,
                    table,
                    born: *born,
                    after,
                }),
                Err(NoMemory) => Err(NoMemory),
            },
            Step::DumpSeal { dump } => Ok(Step::DumpSeal { dump: *dump }),
            Step::DumpEvents { dump, after } => Ok(Step::DumpEvents {
                dump: *dump,
                after: *after,
            }),
            Step::DumpEnd { dump } => Ok(Step::DumpEnd { dump: *dump }),
            Step::Trim { upto } => Ok(Step::Trim { upto: *upto }),
        }
    }
}

impl TryCopy for Answer {
    fn copy(&self, alloc: Global) -> Result<Answer, NoMemory> {
        match self {
            Answer::Reply(reply) => match reply.copy(alloc) {
                Ok(reply) => Ok(Answer::Reply(reply)),
                Err(NoMemory) => Err(NoMemory),
            },
            Answer::Began {
                dump,
                source,
                born,
                begin,
                end,
                item,
            } => match item.copy(alloc) {
                Ok(item) => Ok(Answer::Began {
                    dump: *dump,
                    source: *source,
                    born: *born,
                    begin: *begin,
                    end: *end,
                    item,
                }),
                Err(NoMemory) => Err(NoMemory),
            },
            Answer::Table(item) => match item.copy(alloc) {
                Ok(item) => Ok(Answer::Table(item)),
                Err(NoMemory) => Err(NoMemory),
            },
            Answer::NoTable => Ok(Answer::NoTable),
            Answer::Parts { parts, more } => match parts.copy(alloc) {
                Ok(parts) => Ok(Answer::Parts { parts, more: *more }),
                Err(NoMemory) => Err(NoMemory),
            },
            Answer::Sealed(end) => Ok(Answer::Sealed(*end)),
            Answer::Events { events, more } => match events.copy(alloc) {
                Ok(events) => Ok(Answer::Events {
                    events,
                    more: *more,
                }),
                Err(NoMemory) => Err(NoMemory),
            },
            Answer::Ended => Ok(Answer::Ended),
            Answer::DumpRefused(refusal) => Ok(Answer::DumpRefused(*refusal)),
            Answer::Kept(first) => Ok(Answer::Kept(*first)),
            Answer::NotOpen => Ok(Answer::NotOpen),
            Answer::StoreFault => Ok(Answer::StoreFault),
            Answer::NoMemory => Ok(Answer::NoMemory),
        }
    }
}
