//! How rows are stored.

use crate::{CopyParts, ListOf, MapOf, NoMemory, Params, Text, Texts, TryCopy};
use std::alloc::Global;

pub type TextLists = ListOf<Texts>;

pub type PlaceMap = MapOf<Texts, Text>;

pub type Columns = ListOf<Column>;

pub type Orders = ListOf<Order>;

/// A column of a table, or a partition key.
#[derive(Drop)]
pub struct Column {
    pub name: Text,
    pub ty: Text,
    pub comment: Option<Text>,
}

/// A column that rows are sorted by; a direction of 1 rises and 0 falls.
#[derive(Drop)]
pub struct Order {
    pub col: Text,
    pub dir: i32,
}

/// How rows are turned into bytes and back.
#[derive(Drop)]
pub struct Serde {
    pub name: Option<Text>,
    pub lib: Option<Text>,
    pub params: Params,
}

/// Columns whose values are spread unevenly, with the places of such values.
#[derive(Drop)]
pub struct Skew {
    pub cols: Texts,
    pub values: TextLists,
    pub places: PlaceMap,
}

/// How and where the rows of a table or partition are stored.
#[derive(Drop)]
pub struct Storage {
    pub cols: Columns,
    pub location: Option<Text>,
    pub input: Option<Text>,
    pub output: Option<Text>,
    pub compressed: bool,
    pub buckets: i32,
    pub serde: Option<Serde>,
    pub bucket_cols: Texts,
    pub sort_cols: Orders,
    pub params: Params,
    pub skew: Option<Skew>,
    pub sub_dirs: Option<bool>,
}

impl TryCopy for Column {
    fn copy(&self, alloc: Global) -> Result<Column, NoMemory> {
        match (&self.name, &self.ty, &self.comment).copy_parts(alloc) {
            Ok((name, ty, comment)) => Ok(Column { name, ty, comment }),
            Err(NoMemory) => Err(NoMemory),
        }
    }
}

impl TryCopy for Order {
    fn copy(&self, alloc: Global) -> Result<Order, NoMemory> {
        match self.col.copy(alloc) {
            Ok(col) => Ok(Order { col, dir: self.dir }),
            Err(NoMemory) => Err(NoMemory),
        }
    }
}

impl TryCopy for Serde {
    fn copy(&self, alloc: Global) -> Result<Serde, NoMemory> {
        match (&self.name, &self.lib, &self.params).copy_parts(alloc) {
            Ok((name, lib, params)) => Ok(Serde { name, lib, params }),
            Err(NoMemory) => Err(NoMemory),
        }
    }
}

impl TryCopy for Skew {
    fn copy(&self, alloc: Global) -> Result<Skew, NoMemory> {
        match (&self.cols, &self.values, &self.places).copy_parts(alloc) {
            Ok((cols, values, places)) => Ok(Skew {
                cols,
                values,
                places,
            }),
            Err(NoMemory) => Err(NoMemory),
        }
    }
}

impl TryCopy for Storage {
    fn copy(&self, alloc: Global) -> Result<Storage, NoMemory> {
        match (
            (&self.cols, &self.location, &self.input),
            (&self.output, &self.serde, &self.bucket_cols),
            (&self.sort_cols, &self.params, &self.skew),
        )
            .copy_parts(alloc)
        {
            Ok(
                ((cols, location, input), (output, serde, bucket_cols), (sort_cols, params, skew)),
            ) => Ok(Storage {
                cols,
                location,
                input,
                output,
                compressed: self.compressed,
                buckets: self.buckets,
                serde,
                bucket_cols,
                sort_cols,
                params,
                skew,
                sub_dirs: self.sub_dirs,
            }),
            Err(NoMemory) => Err(NoMemory),
        }
    }
}
