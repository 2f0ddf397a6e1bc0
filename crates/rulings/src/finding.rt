//! Finding a table by the names that a call hands in.

ghost use Rattle.std.specs.Prelude.{◌≡◌, IfOk};
ghost use Rattle.std.specs.Option.{option_copied};
ghost use Rattle.cat_values.specs.Names.{lower};
ghost use Rattle.cat_objects.specs.Catalogue.{table};

use cat_objects::{Cat, HeldTable};
use cat_types::{LowerName, NoMemory, Text};
use std::alloc::Global;

/// The table with these names, whatever the case of their letters.
pub fn find_table<'a>(
    alloc: Global,
    cat: &'a Cat,
    db: &Text,
    name: &Text,
) -> Result<Option<&'a HeldTable>, NoMemory>
    ensures { IfOk result (λ found. option_copied found ≡ table cat.now (lower db.now) (lower name.now)) }
{
    let db = LowerName::of(alloc, db)?;
    let name = LowerName::of(alloc, name)?;
    Ok(cat.held_table(db.as_text(), name.as_text()))
}
