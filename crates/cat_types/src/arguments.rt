//! What callers hand in.

use cat_values::{
    CopyParts, DbRec, ListOf, NoMemory, PartRec, StatValue, TableRec, Text, Texts, TryCopy,
};
use std::alloc::Global;

/// A database as a caller hands it in. An absent name names nothing.
#[derive(Drop)]
pub struct DbArg {
    pub name: Option<Text>,
    pub rec: DbRec,
}

impl TryCopy for DbArg {
    fn copy(&self, alloc: Global) -> Result<DbArg, NoMemory> {
        match (&self.name, &self.rec).copy_parts(alloc) {
            Ok((name, rec)) => Ok(DbArg { name, rec }),
            Err(NoMemory) => Err(NoMemory),
        }
    }
}

/// A table as a caller hands it in. An absent name names nothing. Without `has_sd` nothing was said
/// of how its rows are stored, and `rec.sd` is that of a storage of which nothing is said.
#[derive(Drop)]
pub struct TableArg {
    pub table: Option<Text>,
    pub db: Option<Text>,
    pub has_sd: bool,
    pub rec: TableRec,
}

impl TryCopy for TableArg {
    fn copy(&self, alloc: Global) -> Result<TableArg, NoMemory> {
        match (&self.table, &self.db, &self.rec).copy_parts(alloc) {
            Ok((table, db, rec)) => Ok(TableArg {
                table,
                db,
                has_sd: self.has_sd,
                rec,
            }),
            Err(NoMemory) => Err(NoMemory),
        }
    }
}

/// A partition as a caller hands it in. An absent name names nothing.
#[derive(Drop)]
pub struct PartArg {
    pub db: Option<Text>,
    pub table: Option<Text>,
    pub values: Texts,
    pub rec: PartRec,
}

/// A list of partitions as a caller hands them in.
pub type PartArgs = ListOf<PartArg>;

impl TryCopy for PartArg {
    fn copy(&self, alloc: Global) -> Result<PartArg, NoMemory> {
        match (&self.db, &self.table, &self.values, &self.rec).copy_parts(alloc) {
            Ok((db, table, values, rec)) => Ok(PartArg {
                db,
                table,
                values,
                rec,
            }),
            Err(NoMemory) => Err(NoMemory),
        }
    }
}

/// Of what a caller hands in statistics: of a table where `table_level` is set, else of its partition
/// `part`. An absent name names nothing. `analyzed` is when they were taken, in seconds since 1970.
#[derive(Drop)]
pub struct StatsDesc {
    pub table_level: bool,
    pub db: Option<Text>,
    pub table: Option<Text>,
    pub part: Option<Text>,
    pub analyzed: Option<i64>,
}

impl TryCopy for StatsDesc {
    fn copy(&self, alloc: Global) -> Result<StatsDesc, NoMemory> {
        match (&self.db, &self.table, &self.part).copy_parts(alloc) {
            Ok((db, table, part)) => Ok(StatsDesc {
                table_level: self.table_level,
                db,
                table,
                part,
                analyzed: self.analyzed,
            }),
            Err(NoMemory) => Err(NoMemory),
        }
    }
}

/// A column's statistics as a caller hands them in. An absent name names nothing, and an absent value
/// is none of those that are known.
#[derive(Drop)]
pub struct StatArg {
    pub col: Option<Text>,
    pub value: Option<StatValue>,
}

/// A list of statistics of columns as a caller hands them in.
pub type StatArgs = ListOf<StatArg>;

impl TryCopy for StatArg {
    fn copy(&self, alloc: Global) -> Result<StatArg, NoMemory> {
        match self.col.copy(alloc) {
            Ok(col) => Ok(StatArg {
                col,
                value: self.value,
            }),
            Err(NoMemory) => Err(NoMemory),
        }
    }
}

/// Statistics as a caller hands them in, and of what they are, where that was said.
#[derive(Drop)]
pub struct StatsArg {
    pub desc: Option<StatsDesc>,
    pub objects: StatArgs,
}

impl TryCopy for StatsArg {
    fn copy(&self, alloc: Global) -> Result<StatsArg, NoMemory> {
        match (&self.desc, &self.objects).copy_parts(alloc) {
            Ok((desc, objects)) => Ok(StatsArg { desc, objects }),
            Err(NoMemory) => Err(NoMemory),
        }
    }
}
