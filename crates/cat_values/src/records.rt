//! Databases, tables and partitions.

use crate::{Columns, CopyParts, NoMemory, Params, Stats, Storage, Text, TryCopy};
use std::alloc::Global;

/// What is kept of a database beside its name.
#[derive(Drop)]
pub struct DbRec {
    pub description: Option<Text>,
    pub location: Option<Text>,
    pub params: Params,
    pub owner: Option<Text>,
}

/// What is kept of a table beside its names; the moments are seconds since 1970.
#[derive(Drop)]
pub struct TableRec {
    pub owner: Option<Text>,
    pub created: i32,
    pub accessed: i32,
    pub retention: i32,
    pub sd: Storage,
    pub keys: Columns,
    pub params: Params,
    pub view_original: Option<Text>,
    pub view_expanded: Option<Text>,
    pub kind: Option<Text>,
    pub stats: Stats,
}

/// What is kept of a partition beside its values; the moments are seconds since 1970.
#[derive(Drop)]
pub struct PartRec {
    pub created: i32,
    pub accessed: i32,
    pub sd: Option<Storage>,
    pub params: Params,
    pub stats: Stats,
}

impl TryCopy for DbRec {
    fn copy(&self, alloc: Global) -> Result<DbRec, NoMemory> {
        match (&self.description, &self.location, &self.params, &self.owner).copy_parts(alloc) {
            Ok((description, location, params, owner)) => Ok(DbRec {
                description,
                location,
                params,
                owner,
            }),
            Err(NoMemory) => Err(NoMemory),
        }
    }
}

impl TryCopy for TableRec {
    fn copy(&self, alloc: Global) -> Result<TableRec, NoMemory> {
        match (
            (&self.owner, &self.sd, &self.keys),
            (&self.params, &self.view_original, &self.view_expanded),
            (&self.kind, &self.stats),
        )
            .copy_parts(alloc)
        {
            Ok(((owner, sd, keys), (params, view_original, view_expanded), (kind, stats))) => Ok(
                TableRec {
                    owner,
                    created: self.created,
                    accessed: self.accessed,
                    retention: self.retention,
                    sd,
                    keys,
                    params,
                    view_original,
                    view_expanded,
                    kind,
                    stats,
                },
            ),
            Err(NoMemory) => Err(NoMemory),
        }
    }
}

impl TryCopy for PartRec {
    fn copy(&self, alloc: Global) -> Result<PartRec, NoMemory> {
        match (&self.sd, &self.params, &self.stats).copy_parts(alloc) {
            Ok((sd, params, stats)) => Ok(PartRec {
                created: self.created,
                accessed: self.accessed,
                sd,
                params,
                stats,
            }),
            Err(NoMemory) => Err(NoMemory),
        }
    }
}
