//! Statistics of columns.

use crate::{MapOf, NoMemory, Text, TryCopy};
use std::alloc::Global;

/// Statistics by the names of their columns.
pub type Stats = MapOf<Text, StatRec>;

/// What is known of a column's values.
#[derive(Clone, Copy)]
pub enum StatValue {
    Flags {
        trues: i64,
        falses: i64,
        nulls: i64,
    },
    Long {
        low: Option<i64>,
        high: Option<i64>,
        nulls: i64,
        distinct: i64,
    },
    /// `average` is the eight bytes of a double, which nothing here computes with.
    Str {
        longest: i64,
        average: [u8; 8],
        nulls: i64,
        distinct: i64,
    },
}

/// A column's statistics, and when they were taken, in seconds since 1970.
#[derive(Clone, Copy)]
pub struct StatRec {
    pub analyzed: i64,
    pub value: StatValue,
}

impl TryCopy for StatRec {
    fn copy(&self, _alloc: Global) -> Result<StatRec, NoMemory> {
        Ok(*self)
    }
}
