//! Which columns and partition keys a table may have.

ghost use Rattle.std.specs.Prelude.{◌≡◌, ◌↔◌, IsTrue, IfOk};
ghost use Rattle.cat_rules.specs.Tables.{AreApart, AreNamed, FitTogether, do_fit_together};

use cat_values::{Column, Columns, KEYS_LIMIT, NoMemory, has_name_length, object_name};
use std::alloc::Global;
use std::collections::BTreeSet;

/// Whether a table may have these columns and partition keys: each column has a name of 1 to 128
/// bytes, each key is named as an object is, there are at most 16 keys, and no two names of
/// columns and keys together are equal. Names are compared as they stand: whoever reads them
/// lower-cases them first.
pub fn columns_rule(alloc: Global, cols: &Columns, keys: &Columns) -> Result<bool, NoMemory>
    ensures rule { IfOk result (λ answer. IsTrue answer ↔ FitTogether cols.now keys.now) }
    ensures test { IfOk result (λ answer. answer ≡ do_fit_together cols.now keys.now) }
{
    fit_together(alloc, cols.as_slice(), keys.as_slice())
}

// Whether columns and keys may stand in one table.
fn fit_together(alloc: Global, cols: &[Column], keys: &[Column]) -> Result<bool, NoMemory>
    ensures { IfOk result (λ answer. IsTrue answer ↔ FitTogether cols.now keys.now) }
{
    if are_named(cols, keys) {
        are_apart(alloc, cols, keys)
    } else {
        Ok(false)
    }
}

// Whether each column and each key has a lawful name, and the keys are few enough.
fn are_named(cols: &[Column], keys: &[Column]) -> bool
    ensures { IsTrue result ↔ AreNamed cols.now keys.now }
{
    keys.len() <= KEYS_LIMIT
        && cols.iter().all(|col| has_name_length(&col.name))
        && keys.iter().all(|key| object_name(&key.name))
}

// Whether the names of columns and keys together are all different.
fn are_apart(alloc: Global, cols: &[Column], keys: &[Column]) -> Result<bool, NoMemory>
    ensures { IfOk result (λ apart. IsTrue apart ↔ AreApart cols.now keys.now) }
{
    let mut seen = BTreeSet::new(alloc);
    for column in cols.iter().chain(keys.iter()) {
        if !seen.insert(column.name.as_str())? {
            return Ok(false);
        }
    }
    Ok(true)
}
