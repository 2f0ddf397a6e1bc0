//! Statistics as they are told.

ghost use Rattle.std.specs.Prelude.{◌≡◌, ◌++◌, [], ◌∷◌, List, ℕ, IfOk, OnOk, map};
ghost use Rattle.std.specs.Option.{option_copied};
ghost use Rattle.cat_objects.specs.Catalogue.{at_name};
ghost use Rattle.cat_values.specs.Names.{lower};
ghost use Rattle.stat_rules.specs.Places.{LeadTo};
ghost use Rattle.stat_rules.specs.Records.{first_asked, stats_asked, stats_there, told_stat, type_of};

use crate::places::{Places, column_of, places_of};
use cat_types::{
    Column, Columns, CopyParts, ListOf, LowerName, NamedStat, NamedStats, NoMemory, StatRec, Stats,
    TableRec, Text, Texts, TryCopy,
};
use cat_values::find_column;
use std::alloc::Global;
use std::collections::BTreeSet;

// The statistics of one column, where there are any, with the type that a table with these columns
// has for it.
pub(crate) fn told_stat(
    alloc: Global,
    stats: &Stats,
    cols: &Columns,
    col: &Text,
) -> Result<NamedStats, NoMemory>
    ensures { IfOk result (λ told. told ≡ told_stat (at_name col.now stats.now) cols.now col.now) }
{
    let mut told = ListOf::new(alloc);
    if let Some(rec) = stats.get(col) {
        push_stat(
            alloc,
            &mut told,
            col,
            find_column(cols.as_slice(), col),
            rec,
        )?;
    }
    Ok(told)
}

// Adds the statistics of a column.
fn push_stat(
    alloc: Global,
    told: &mut NamedStats,
    col: &Text,
    column: Option<&Column>,
    rec: &StatRec,
) -> Result<(), NoMemory>
    ensures { OnOk result (told.new ≡ told.old ++ record { col = col.now; ty = type_of (option_copied column.entry); rec = rec.now } ∷ []) }
{
    let ty = type_of(alloc, column)?;
    let col = col.copy(alloc)?;
    told.push(NamedStat { col, ty, rec: *rec })
}

// The type of a column, and no text where there is none.
fn type_of(alloc: Global, column: Option<&Column>) -> Result<Text, NoMemory>
    ensures { IfOk result (λ ty. ty ≡ type_of (option_copied column.entry)) }
{
    match column {
        Some(column) => column.ty.copy(alloc),
        None => match Text::of(alloc, "") {
            Ok(text) => Ok(text),
            Err(_) => Err(NoMemory),
        },
    }
}

// The statistics that a table has of the columns that are asked for, each once, in the order of
// first asking.
pub(crate) fn stats_asked(
    alloc: Global,
    rec: &TableRec,
    names: &Texts,
) -> Result<NamedStats, NoMemory>
    ensures { IfOk result (λ told. told ≡ stats_asked rec.now names.now) }
{
    let once = each_once(alloc, names)?;
    stats_there(alloc, rec, &once)
}

// The statistics that a table has of these columns, in their order.
fn stats_there(alloc: Global, rec: &TableRec, names: &Texts) -> Result<NamedStats, NoMemory>
    ensures { IfOk result (λ told. told ≡ stats_there rec.now.stats rec.now.sd.cols names.now) }
{
    let places = places_of(alloc, &rec.sd.cols)?;
    let mut told = ListOf::new(alloc);
    for name in names.as_slice() {
        push_if_there(alloc, rec, &places, name, &mut told)?;
    }
    Ok(told)
}

// Adds the statistics of a column, where there are any. The table's columns stand at these places.
fn push_if_there(
    alloc: Global,
    rec: &TableRec,
    places: &Places,
    name: &Text,
    told: &mut NamedStats,
) -> Result<(), NoMemory>
    requires { LeadTo places.now.entries rec.now.sd.cols }
    ensures { OnOk result (told.new ≡ told.old ++ told_stat (at_name name.now rec.now.stats) rec.now.sd.cols name.now) }
{
    match rec.stats.get(name) {
        Some(stat) => {
            let column = column_of(&rec.sd.cols, places, name);
            push_stat(alloc, told, name, column, stat)
        }
        None => Ok(()),
    }
}

// Names in lower case, each once, in the order of first asking.
fn each_once(alloc: Global, names: &Texts) -> Result<Texts, NoMemory>
    ensures { IfOk result (λ once. once ≡ first_asked [] (map lower names.now)) }
{
    let mut asked = BTreeSet::new(alloc);
    let mut once = ListOf::new(alloc);
    for name in names.as_slice() {
        ask(alloc, name, &mut asked, &mut once)?;
    }
    Ok(once)
}

// Adds a name that wasn't asked for before.
fn ask(
    alloc: Global,
    name: &Text,
    asked: &mut BTreeSet<Text>,
    once: &mut Texts,
) -> Result<(), NoMemory>
    ensures { OnOk result ((later : List (List ℕ)) → once.new ++ first_asked asked.new.keys later ≡ once.old ++ first_asked asked.old.keys (lower name.now ∷ later)) }
{
    let name = LowerName::of(alloc, name)?;
    if asked.contains(name.as_text()) {
        return Ok(());
    }
    let text = name.into_text(alloc)?;
    once.push(text.copy(alloc)?)?;
    asked.insert(text)?;
    Ok(())
}
