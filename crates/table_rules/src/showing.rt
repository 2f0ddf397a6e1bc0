//! How records of databases are kept and shown.

ghost use Rattle.std.specs.Prelude.{◌≡◌, IfOk, decimal};
ghost use Rattle.table_rules.specs.Databases.{kept_record, placed_record, position_key, shown_record};
ghost use Rattle.rulings.specs.Bars.{position};

use cat_types::{DbRec, NoMemory, Text, TryCopy};
use rulings::{ReplicaAts, position_of};
use std::alloc::Global;

// A record as it is kept.
pub(crate) fn kept_record(alloc: Global, rec: &DbRec) -> Result<DbRec, NoMemory>
    ensures { IfOk result (λ made. made ≡ kept_record rec.now) }
{
    let key = position_key(alloc)?;
    let mut kept = rec.copy(alloc)?;
    let _ = kept.params.remove(&key);
    Ok(kept)
}

// The record of the database with this name, as it is shown.
pub(crate) fn shown_record(
    alloc: Global,
    replicas: &ReplicaAts,
    name: &Text,
    rec: &DbRec,
) -> Result<DbRec, NoMemory>
    ensures { IfOk result (λ made. made ≡ shown_record (position replicas.now name.now) rec.now) }
{
    match position_of(replicas, name) {
        None => rec.copy(alloc),
        Some(None) => kept_record(alloc, rec),
        Some(Some(at)) => placed_record(alloc, at, rec),
    }
}

// A record with this position.
fn placed_record(alloc: Global, at: u64, rec: &DbRec) -> Result<DbRec, NoMemory>
    ensures { IfOk result (λ made. made ≡ placed_record at rec.now) }
{
    let key = position_key(alloc)?;
    let digits = decimal_text(alloc, at)?;
    let mut placed = rec.copy(alloc)?;
    placed.params.put(key, digits)?;
    Ok(placed)
}

// The parameter that shows a replica's position.
fn position_key(alloc: Global) -> Result<Text, NoMemory>
    ensures { IfOk result (λ key. key ≡ position_key) }
{
    match Text::of(alloc, "repl.last.id") {
        Ok(key) => Ok(key),
        Err(_) => Err(NoMemory),
    }
}

// A number in decimal digits.
fn decimal_text(alloc: Global, number: u64) -> Result<Text, NoMemory>
    ensures { IfOk result (λ text. text ≡ decimal number) }
{
    let digits = format!(in alloc; "{number}")?;
    match Text::of(alloc, digits.as_str()) {
        Ok(text) => Ok(text),
        Err(_) => Err(NoMemory),
    }
}
