//! What a dump's beginning is refused for.

use crate::telling::tell_refusal;
use crate::words::{maybe_number, maybe_signed, number_of, words_of};
use cat_objects::HeldDb;
use cat_types::{DbRec, DumpRefusal, MapOf};
use dump_steps::{Asked, begin_refusal};
use std::alloc::Global;
use table_cases::{Answers, Unable};

/// Tells what a dump is refused for, by the words `BORN FIRST NEWEST LAST FROM TO LIMIT`: its database's
/// born, where `-` says that there is none, the numbers of the first kept and the newest event and of the
/// last dump, and what is asked for.
pub struct Refusals;

impl Answers for Refusals {
    fn answer(&self, alloc: Global, input: &str) -> Result<String, Unable> {
        let (born, rest) = words_of(input);
        let born = maybe_number(born)?;
        let held = born.map(|born| database(alloc, born));
        let mut said = String::new(alloc);
        match refusal_of(held.as_ref(), rest)? {
            Some(refusal) => tell_refusal(&mut said, refusal)?,
            None => said.push_str("begins")?,
        }
        Ok(said)
    }
}

// A database with nothing in it.
fn database(alloc: Global, born: u64) -> HeldDb {
    HeldDb {
        born,
        rec: DbRec {
            description: None,
            location: None,
            params: MapOf::new(alloc),
            owner: None,
        },
        tables: MapOf::new(alloc),
    }
}

// The refusal, by the words `FIRST NEWEST LAST FROM TO LIMIT`.
fn refusal_of(held: Option<&HeldDb>, words: &str) -> Result<Option<DumpRefusal>, Unable> {
    let (first, rest) = words_of(words);
    let (newest, rest) = words_of(rest);
    let (last, rest) = words_of(rest);
    let (first, newest, last) = (number_of(first)?, number_of(newest)?, number_of(last)?);
    Ok(begin_refusal(held, first, newest, last, asked_of(rest)?))
}

// What is asked for, by the words `FROM TO LIMIT`.
fn asked_of(words: &str) -> Result<Asked, Unable> {
    let (from, rest) = words_of(words);
    let (to, limit) = words_of(rest);
    let (from, to, limit) = (maybe_signed(from)?, maybe_signed(to)?, maybe_signed(limit)?);
    Ok(Asked { from, to, limit })
}
