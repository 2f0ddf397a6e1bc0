//! Names of partitions, and patterns.

ghost use Rattle.std.specs.Prelude.{◌≡◌, ◌≤◌, All, length};
ghost use Rattle.std.specs.Bool.{OnTrue};
ghost use Rattle.cat_values.specs.Names.{IsObjectName};
ghost use Rattle.part_names.specs.Making.{IsValidValue};
ghost use Rattle.cat_values.specs.declared.columns.TheConstants.{KEYS_LIMIT};

use crate::samples::texts_of;
use crate::stop::Stop;
use cat_rules::{matches, object_name};
use cat_values::{Text, Texts};
use part_names::{KEYS_LIMIT, make_name, spec_of, valid_value, vals_of};
use std::alloc::Global;

const KEYS: &str = "ds|hr|country";

// The last value is escaped in a name.
const VALUES: &str = "2026-01-01|23|a/b=c%41";

// The name that these keys and values have.
const NAME: &str = "ds=2026-01-01/hr=23/country=a%2Fb%3Dc%2541";

/// A pattern that a matcher which goes back to each run takes very long to refuse.
pub const FOUR_RUNS: &str = "*a*a*a*b";

/// The same with thirty runs.
pub const THIRTY_RUNS: &str = "*a*a*a*a*a*a*a*a*a*a*a*a*a*a*a*a*a*a*a*a*a*a*a*a*a*a*a*a*a*b";

// A name that patterns are tried on: 128 letters.
const LONG_NAME: &str = "aaaaaaaaaaaaaaaaaaaaaaaaaaaaaaaaaaaaaaaaaaaaaaaaaaaaaaaaaaaaaaaa\
    aaaaaaaaaaaaaaaaaaaaaaaaaaaaaaaaaaaaaaaaaaaaaaaaaaaaaaaaaaaaaaaa";

/// Makes a name so often, and adds up its bytes.
pub fn make(alloc: Global, count: u32) -> Result<u64, Stop> {
    let keys = texts_of(alloc, KEYS)?;
    let values = texts_of(alloc, VALUES)?;
    if have_name(&keys, &values) {
        make_names(alloc, &keys, &values, count)
    } else {
        Err(Stop::Sample)
    }
}

// Whether a name may be made of these keys and values.
fn have_name(keys: &Texts, values: &Texts) -> bool
    ensures as_many { OnTrue result (length keys.now ≡ length values.now) }
    ensures few { OnTrue result (length keys.now ≤ KEYS_LIMIT) }
    ensures object_names { OnTrue result (All IsObjectName keys.now) }
    ensures valid { OnTrue result (All IsValidValue values.now) }
{
    keys.len() == values.len()
        && keys.len() <= KEYS_LIMIT
        && keys.as_slice().iter().all(|key| object_name(key))
        && values.as_slice().iter().all(|value| valid_value(value))
}

fn make_names(alloc: Global, keys: &Texts, values: &Texts, count: u32) -> Result<u64, Stop>
    requires as_many { length keys.now ≡ length values.now }
    requires few { length keys.now ≤ KEYS_LIMIT }
    requires object_names { All IsObjectName keys.now }
    requires valid { All IsValidValue values.now }
{
    let mut sum: u64 = 0;
    for _ in 0..count {
        sum = sum.saturating_add(make_name(alloc, keys, values)?.len() as u64);
    }
    Ok(sum)
}

/// Reads the values of a name so often, and adds up the bytes of the last one.
pub fn read_values(alloc: Global, count: u32) -> Result<u64, Stop> {
    let name = Text::of(alloc, NAME)?;
    let mut sum: u64 = 0;
    for _ in 0..count {
        let values = vals_of(alloc, &name)?;
        let last = values.as_slice().last().ok_or(Stop::Sample)?;
        sum = sum.saturating_add(last.len() as u64);
    }
    Ok(sum)
}

/// Reads a name into a map so often, and adds up the numbers of entries.
pub fn read_maps(alloc: Global, count: u32) -> Result<u64, Stop> {
    let name = Text::of(alloc, NAME)?;
    let mut sum: u64 = 0;
    for _ in 0..count {
        sum = sum.saturating_add(spec_of(alloc, &name)?.len() as u64);
    }
    Ok(sum)
}

/// Tries a pattern so often on a long name, and counts how often it doesn't match.
pub fn refuse(alloc: Global, pattern: &str, count: u32) -> Result<u64, Stop> {
    let pattern = Text::of(alloc, pattern)?;
    let name = Text::of(alloc, LONG_NAME)?;
    let mut refused: u64 = 0;
    for _ in 0..count {
        if !matches(&pattern, &name) {
            refused = refused.saturating_add(1);
        }
    }
    Ok(refused)
}
