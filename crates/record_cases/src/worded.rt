//! Values that no bytes spell, written in words.

use crate::outcome::said;
use cat_types::{DbRec, ListOf, MapOf, Storage, TableRec, Text, TryCopy};
use std::alloc::Global;
use table_cases::Unable;

/// A value that words tell.
pub trait Worded: TryCopy {
    /// The value of these words.
    fn of(alloc: Global, words: &str) -> Result<Self, Unable>;
}

/// `copied` where there is memory for a copy of the value of these words. That a copy is equal is a
/// clause of `copy`.
pub fn copied<W: Worded>(alloc: Global, words: &str) -> Result<String, Unable> {
    let value = W::of(alloc, words)?;
    let _ = value.copy(alloc)?;
    said(alloc, "copied")
}

/// The text of a word, where `-` stands for none.
pub fn text_of(alloc: Global, word: &str) -> Result<Option<Text>, Unable> {
    if word == "-" {
        return Ok(None);
    }
    Ok(Some(Text::of(alloc, word)?))
}

/// A database's record with this owner alone.
pub fn owned_by(alloc: Global, owner: &str) -> Result<DbRec, Unable> {
    let owner = text_of(alloc, owner)?;
    Ok(DbRec {
        description: None,
        location: None,
        params: MapOf::new(alloc),
        owner,
    })
}

/// A table's record with this owner alone.
pub fn table_owned_by(alloc: Global, owner: &str) -> Result<TableRec, Unable> {
    let owner = text_of(alloc, owner)?;
    Ok(TableRec {
        owner,
        created: 0,
        accessed: 0,
        retention: 0,
        sd: no_storage(alloc),
        keys: ListOf::new(alloc),
        params: MapOf::new(alloc),
        view_original: None,
        view_expanded: None,
        kind: None,
        stats: MapOf::new(alloc),
    })
}

// A storage of which nothing is said.
fn no_storage(alloc: Global) -> Storage {
    Storage {
        cols: ListOf::new(alloc),
        location: None,
        input: None,
        output: None,
        compressed: false,
        buckets: 0,
        serde: None,
        bucket_cols: ListOf::new(alloc),
        sort_cols: ListOf::new(alloc),
        params: MapOf::new(alloc),
        skew: None,
        sub_dirs: None,
    }
}
