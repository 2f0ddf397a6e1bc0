//! Databases, tables and partitions in bytes.

ghost use Rattle.change_codec.specs.Records.{db_rec, newest, part_rec, table_rec};

use crate::fault::Stop;
use crate::reading::Get;
use crate::version::Version;
use crate::writing::Put;
use cat_types::{Bytes, Columns, DbRec, NoMemory, Params, PartRec, Stats, Storage, TableRec, Text};
use std::alloc::Global;

#[tactic(auto, unfolding(crate::specs::Forms::made_read))]
impl Get for DbRec {
    ghost read = { λ version. (db_rec version).read };

    fn get(alloc: Global, version: Version, bytes: &[u8]) -> Result<(DbRec, &[u8]), Stop> {
        match <(Option<Text>, Option<Text>, Params, Option<Text>)>::get(alloc, version, bytes) {
            Ok(((description, location, params, owner), rest)) => Ok((
                DbRec {
                    description,
                    location,
                    params,
                    owner,
                },
                rest,
            )),
            Err(stop) => Err(stop),
        }
    }
}

impl Put for DbRec {
    ghost HasCode = { (db_rec newest).HasCode };

    ghost code = { (db_rec newest).code };

    fn put(&self, out: &mut Bytes) -> Result<(), NoMemory> {
        (&self.description, &self.location, &self.params, &self.owner).put(out)
    }
}

#[tactic(auto, unfolding(crate::specs::Forms::made_read))]
impl Get for TableRec {
    ghost read = { λ version. (table_rec version).read };

    fn get(alloc: Global, version: Version, bytes: &[u8]) -> Result<(TableRec, &[u8]), Stop> {
        match <(
            (Option<Text>, i32, i32, i32),
            (Storage, Columns, Params, Option<Text>),
            (Option<Text>, Option<Text>, Stats),
        )>::get(alloc, version, bytes)
        {
            Ok(
                (
                    (
                        (owner, created, accessed, retention),
                        (sd, keys, params, view_original),
                        (view_expanded, kind, stats),
                    ),
                    rest,
                ),
            ) => Ok((
                TableRec {
                    owner,
                    created,
                    accessed,
                    retention,
                    sd,
                    keys,
                    params,
                    view_original,
                    view_expanded,
                    kind,
                    stats,
                },
                rest,
            )),
            Err(stop) => Err(stop),
        }
    }
}

impl Put for TableRec {
    ghost HasCode = { (table_rec newest).HasCode };

    ghost code = { (table_rec newest).code };

    fn put(&self, out: &mut Bytes) -> Result<(), NoMemory> {
        (
            (&self.owner, &self.created, &self.accessed, &self.retention),
            (&self.sd, &self.keys, &self.params, &self.view_original),
            (&self.view_expanded, &self.kind, &self.stats),
        )
            .put(out)
    }
}

#[tactic(auto, unfolding(crate::specs::Forms::made_read))]
impl Get for PartRec {
    ghost read = { λ _. part_rec.read };

    fn get(alloc: Global, version: Version, bytes: &[u8]) -> Result<(PartRec, &[u8]), Stop> {
        match <((i32, i32), (Option<Storage>, Params, Stats))>::get(alloc, version, bytes) {
            Ok((((created, accessed), (sd, params, stats)), rest)) => Ok((
                PartRec {
                    created,
                    accessed,
                    sd,
                    params,
                    stats,
                },
                rest,
            )),
            Err(stop) => Err(stop),
        }
    }
}

impl Put for PartRec {
    ghost HasCode = { part_rec.HasCode };

    ghost code = { part_rec.code };

    fn put(&self, out: &mut Bytes) -> Result<(), NoMemory> {
        (
            (&self.created, &self.accessed),
            (&self.sd, &self.params, &self.stats),
        )
            .put(out)
    }
}
