//! What the catalogue replies.

use crate::{Events, NamedStats, Parts, Tables};
use cat_values::{Columns, CopyParts, DbRec, NoMemory, Params, Text, Texts, TryCopy};
use std::alloc::Global;

/// The result of a call, or its refusal.
#[derive(Drop)]
pub enum Reply {
    /// The call was done, and has no result.
    Nothing,
    /// Yes or no.
    Flag(bool),
    /// A number of four bytes.
    Number(i32),
    /// A number of eight bytes.
    Big(i64),
    /// Names, in byte order.
    Names(Texts),
    /// The values of a partition by its keys.
    Spec(Params),
    /// Columns, in their order.
    Fields(Columns),
    /// A database: its name and what is kept of it.
    Db(Text, DbRec),
    /// Tables; a result that is one table is a list with that one.
    Tables(Tables),
    /// Partitions; a result that is one partition is a list with that one.
    Parts(Parts),
    /// Statistics of columns.
    Stats(NamedStats),
    /// Statistics of columns, and of which table or partition they are.
    ColumnStats {
        db: Text,
        table: Text,
        part: Option<Text>,
        stats: NamedStats,
    },
    /// Events, in the order of their numbers.
    Events(Events),
    /// A database was dumped: into which folder, and up to which event.
    Dumped(Text, u64),
    /// The call was refused: the number of the refusal, and its text.
    Refused(u8, Text),
}

impl TryCopy for Reply {
    fn copy(&self, alloc: Global) -> Result<Reply, NoMemory> {
        match self {
            Reply::Nothing => Ok(Reply::Nothing),
            Reply::Flag(flag) => Ok(Reply::Flag(*flag)),
            Reply::Number(number) => Ok(Reply::Number(*number)),
            Reply::Big(number) => Ok(Reply::Big(*number)),
            Reply::Names(names) => match names.copy(alloc) {
                Ok(names) => Ok(Reply::Names(names)),
                Err(NoMemory) => Err(NoMemory),
            },
            Reply::Spec(spec) => match spec.copy(alloc) {
                Ok(spec) => Ok(Reply::Spec(spec)),
                Err(NoMemory) => Err(NoMemory),
            },
            Reply::Fields(columns) => match columns.copy(alloc) {
                Ok(columns) => Ok(Reply::Fields(columns)),
                Err(NoMemory) => Err(NoMemory),
            },
            Reply::Tables(tables) => match tables.copy(alloc) {
                Ok(tables) => Ok(Reply::Tables(tables)),
                Err(NoMemory) => Err(NoMemory),
            },
            Reply::Parts(parts) => match parts.copy(alloc) {
                Ok(parts) => Ok(Reply::Parts(parts)),
                Err(NoMemory) => Err(NoMemory),
            },
            Reply::Db(name, rec) => match (name, rec).copy_parts(alloc) {
                Ok((name, rec)) => Ok(Reply::Db(name, rec)),
                Err(NoMemory) => Err(NoMemory),
            },
            Reply::Stats(stats) => match stats.copy(alloc) {
                Ok(stats) => Ok(Reply::Stats(stats)),
                Err(NoMemory) => Err(NoMemory),
            },
            Reply::ColumnStats {
                db,
                table,
                part,
                stats,
            } => match (db, table, part, stats).copy_parts(alloc) {
                Ok((db, table, part, stats)) => Ok(Reply::ColumnStats {
                    db,
                    table,
                    part,
                    stats,
                }),
                Err(NoMemory) => Err(NoMemory),
            },
            Reply::Events(events) => match events.copy(alloc) {
                Ok(events) => Ok(Reply::Events(events)),
                Err(NoMemory) => Err(NoMemory),
            },
            Reply::Dumped(folder, end) => match folder.copy(alloc) {
                Ok(folder) => Ok(Reply::Dumped(folder, *end)),
                Err(NoMemory) => Err(NoMemory),
            },
            Reply::Refused(number, text) => match text.copy(alloc) {
                Ok(text) => Ok(Reply::Refused(*number, text)),
                Err(NoMemory) => Err(NoMemory),
            },
        }
    }
}
