//! What a catalogue holds at a name.

ghost use Rattle.std.specs.Prelude.{◌≡◌, []};
ghost use Rattle.cat_objects.specs.Catalogue.{empty_database};

use crate::HeldParts;
use cat_types::{DbRec, ListOf, MapOf, Storage, TableRec, Text};
use std::alloc::Global;

/// A table: its born, the number of the event that made it, its record, and its partitions by their
/// values.
#[derive(Drop)]
pub struct HeldTable {
    pub born: u64,
    pub rec: TableRec,
    pub parts: HeldParts,
}

impl HeldTable {
    // A table with nothing in it, which stands in the place of one that is being changed. It takes no
    // memory.
    pub(crate) fn empty(alloc: Global) -> HeldTable
        ensures { result.parts ≡ [] }
    {
        HeldTable {
            born: 0,
            rec: empty_record(alloc),
            parts: HeldParts::new(alloc),
        }
    }
}

fn empty_record(alloc: Global) -> TableRec {
    TableRec {
        owner: None,
        created: 0,
        accessed: 0,
        retention: 0,
        sd: empty_storage(alloc),
        keys: ListOf::new(alloc),
        params: MapOf::new(alloc),
        view_original: None,
        view_expanded: None,
        kind: None,
        stats: MapOf::new(alloc),
    }
}

fn empty_storage(alloc: Global) -> Storage {
    Storage {
        cols: ListOf::new(alloc),
        location: None,
        input: None,
        output: None,
        compressed: false,
        buckets: 0,
        serde: None,
        bucket_cols: ListOf::new(alloc),
        sort_cols: ListOf::new(alloc),
        params: MapOf::new(alloc),
        skew: None,
        sub_dirs: None,
    }
}

/// A database: its born, the number of the event that made it, its record, and its tables by name.
#[derive(Drop)]
pub struct HeldDb {
    pub born: u64,
    pub rec: DbRec,
    pub tables: MapOf<Text, HeldTable>,
}

impl HeldDb {
    // A database that no event made, with nothing in it. It takes no memory.
    pub(crate) fn empty(alloc: Global) -> HeldDb
        ensures { result ≡ empty_database }
    {
        HeldDb {
            born: 0,
            rec: DbRec {
                description: None,
                location: None,
                params: MapOf::new(alloc),
                owner: None,
            },
            tables: MapOf::new(alloc),
        }
    }
}
