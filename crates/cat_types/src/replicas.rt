//! Databases that follow a database of another store.

use crate::Op;
use cat_values::{CopyParts, ListOf, NoMemory, Text, TryCopy};
use std::alloc::Global;

/// How far a replica came.
#[derive(Clone, Copy, Debug, PartialEq, Eq)]
pub enum Phase {
    /// Of the dump with the first number, so many first items stand: at least one.
    Items(u64, u64),
    /// All items of the dump with the first number stand, and its events up to the second number
    /// were replayed.
    Events(u64, u64),
    /// The replica stands where its source stood after the event with this number.
    Live(u64),
}

/// Which source a replica follows, and how far it came.
#[derive(Drop)]
pub struct ReplicaRow {
    /// The source store's id.
    pub source: [u8; 16],
    pub source_db: Text,
    pub phase: Phase,
}

/// An operation of a load, with the number of the source's event that it shows. `db_born` is the
/// born of the replica's database.
#[derive(Drop)]
pub struct Marked {
    pub mark: u64,
    pub db_born: u64,
    pub op: Op,
}

/// A list of marked operations.
pub type MarkedOps = ListOf<Marked>;

impl TryCopy for Phase {
    fn copy(&self, _alloc: Global) -> Result<Phase, NoMemory> {
        Ok(*self)
    }
}

impl TryCopy for ReplicaRow {
    fn copy(&self, alloc: Global) -> Result<ReplicaRow, NoMemory> {
        match self.source_db.copy(alloc) {
            Ok(source_db) => Ok(ReplicaRow {
                source: self.source,
                source_db,
                phase: self.phase,
            }),
            Err(NoMemory) => Err(NoMemory),
        }
    }
}

impl TryCopy for Marked {
    fn copy(&self, alloc: Global) -> Result<Marked, NoMemory> {
        match self.op.copy(alloc) {
            Ok(op) => Ok(Marked {
                mark: self.mark,
                db_born: self.db_born,
                op,
            }),
            Err(NoMemory) => Err(NoMemory),
        }
    }
}
