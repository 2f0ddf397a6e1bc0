//! Where columns stand in a list, so that each is found by its name in the time of one look-up.

ghost use Rattle.std.specs.Prelude.{◌≡◌, List, ℕ, IfOk, OnOk};
ghost use Rattle.std.specs.Option.{option_copied};
ghost use Rattle.cat_values.specs.Columns.{column_named};
ghost use Rattle.cat_objects.specs.Catalogue.{at_name};
ghost use Rattle.stat_rules.specs.Places.{LeadTo, placed_first};

use cat_types::{Column, Columns, NoMemory, Text, TryCopy};
use std::alloc::Global;
use std::collections::BTreeMap;

/// Where columns stand in a list, by their names.
pub(crate) type Places = BTreeMap<Text, usize>;

// Where the columns of a list stand; of columns with equal names the first.
pub(crate) fn places_of(alloc: Global, cols: &Columns) -> Result<Places, NoMemory>
    ensures { IfOk result (λ places. LeadTo places.entries cols.now) }
{
    let mut places = BTreeMap::new(alloc);
    for (at, column) in cols.as_slice().iter().enumerate() {
        add_place(alloc, &mut places, &column.name, at)?;
    }
    Ok(places)
}

// Adds where a column with this name stands, unless an earlier one has it.
fn add_place(alloc: Global, places: &mut Places, name: &Text, at: usize) -> Result<(), NoMemory>
    ensures { OnOk result ((other : List ℕ) → at_name other places.new.entries ≡ placed_first (at_name other places.old.entries) name.now at other) }
{
    if places.contains_key(name) {
        return Ok(());
    }
    let name = name.copy(alloc)?;
    places.insert(name, at)?;
    Ok(())
}

// The first column of a list with this name.
pub(crate) fn column_of<'a>(cols: &'a Columns, places: &Places, name: &Text) -> Option<&'a Column>
    requires { LeadTo places.now.entries cols.now }
    ensures { option_copied result ≡ column_named cols.now name.now }
{
    match places.get(name) {
        Some(at) => cols.get(*at),
        None => None,
    }
}
