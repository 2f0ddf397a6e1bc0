//! The calls on statistics of a table's columns.

ghost use Rattle.std.specs.Prelude.{◌≡◌, ◌∷◌, [], IfOk, None, OnErr, Some, true, if◌then◌else◌};
ghost use Rattle.cat_values.specs.Names.{lower};
ghost use Rattle.cat_types.specs.declared.changes.EventKind.TheVariants as kind;
ghost use Rattle.cat_types.specs.declared.changes.Op.TheVariants.{PutTable};
ghost use Rattle.cat_types.specs.declared.replies.Reply.TheVariants.{ColumnStats, Flag, Stats};
ghost use Rattle.cat_objects.specs.Catalogue.{at_name};
ghost use Rattle.rulings.specs.Decisions.{Decides, accepted, decided_by};
ghost use Rattle.rulings.specs.Rules.{first_broken};
ghost use Rattle.stat_rules.specs.Records.{put_all, told_stat, table_with, without_stats};
ghost use Rattle.stat_rules.specs.Statistics.{delete_at_rules, delete_table_rules, get_here_rules, get_stats_rules, get_table_stat_rules, put_at_rules, put_at_table, put_at_table_rules, requested_stats, table_deleted, table_stat, table_stat_in, table_updated, unless_empty, update_table_rules};

use crate::kept::{left_stats, put_all};
use crate::sites::Site;
use crate::taking::{taken_at, takes_all};
use crate::told::{stats_asked, told_stat};
use cat_objects::{Cat, HeldTable};
use cat_types::{
    CopyParts, LowerName, NamedStats, NoMemory, Reply, StatArgs, StatsArg, Text, Texts,
};
use rulings::{Bars, Decided, Refusal, find_table, flagged, refused};
use std::alloc::Global;

/// Updates statistics of a table's columns: those that are handed in come over those that are kept of
/// their columns. It answers yes; where none are handed in, nothing changes. `moment` is the time of
/// the call in seconds since 1970.
pub fn update_table_column_statistics(
    alloc: Global,
    cat: &Cat,
    bars: &Bars,
    new: &StatsArg,
    moment: u64,
) -> Decided
    ensures { Decides (decided_by (first_broken (update_table_rules cat.now bars.now new.now)) (table_updated cat.now new.now moment) (Flag true)) result }
{
    let Some(desc) = &new.desc else {
        return refused(alloc, Refusal::InvalidInput);
    };
    if !desc.table_level {
        return refused(alloc, Refusal::InvalidInput);
    }
    let at = taken_at(desc.analyzed, moment);
    put_at_table(alloc, cat, bars, &desc.db, &desc.table, &new.objects, at)
}

// Puts statistics at the table with these names.
fn put_at_table(
    alloc: Global,
    cat: &Cat,
    bars: &Bars,
    db: &Option<Text>,
    name: &Option<Text>,
    objects: &StatArgs,
    at: i64,
) -> Decided
    ensures { Decides (decided_by (first_broken (put_at_table_rules cat.now bars.now db.now name.now objects.now)) (put_at_table cat.now db.now name.now objects.now at) (Flag true)) result }
{
    let Some(db) = db else {
        return refused(alloc, Refusal::NoSuchObject);
    };
    let Ok(db) = LowerName::of(alloc, db) else {
        return Decided::NoMemory;
    };
    let Some(within) = cat.held_database(db.as_text()) else {
        return refused(alloc, Refusal::NoSuchObject);
    };
    if bars.is_replica(db.as_text()) {
        return refused(alloc, Refusal::IsReplica);
    }
    let Some(name) = name else {
        return refused(alloc, Refusal::NoSuchObject);
    };
    let Ok(name) = LowerName::of(alloc, name) else {
        return Decided::NoMemory;
    };
    let Some(held) = within.tables.get(name.as_text()) else {
        return refused(alloc, Refusal::NoSuchObject);
    };
    let site = Site {
        db: db.as_text(),
        db_born: within.born,
        name: name.as_text(),
        held,
    };
    put_here(alloc, &site, objects, at)
}

// Puts statistics at a table that is there.
fn put_here(alloc: Global, site: &Site<'_>, objects: &StatArgs, at: i64) -> Decided
    ensures { Decides (decided_by (first_broken (put_at_rules (Some site.now.held.now) site.now.name.now objects.now)) (unless_empty objects.now (record { kind = kind.AlterTable; db = site.now.db.now; db_born = site.now.db_born; ops = PutTable site.now.name.now site.now.held.now.born (table_with (put_all at site.now.held.now.rec.stats objects.now) site.now.held.now.rec) ∷ [] })) (Flag true)) result }
{
    match site.may_put(alloc) {
        Ok(true) => {}
        Ok(false) => return refused(alloc, Refusal::NoSuchObject),
        Err(NoMemory) => return Decided::NoMemory,
    }
    match takes_all(alloc, &site.held.rec, objects) {
        Ok(true) => {}
        Ok(false) => return refused(alloc, Refusal::InvalidObject),
        Err(NoMemory) => return Decided::NoMemory,
    }
    if objects.is_empty() {
        return Decided::Reply(Reply::Flag(true));
    }
    match put_all(alloc, &site.held.rec.stats, objects, at) {
        Ok(stats) => flagged(site.gives_table(alloc, stats)),
        Err(NoMemory) => Decided::NoMemory,
    }
}

/// Deletes the statistics of a table's column, or of all its columns where none is named. It answers
/// yes.
pub fn delete_table_column_statistics(
    alloc: Global,
    cat: &Cat,
    bars: &Bars,
    db: &Text,
    name: &Text,
    col: &Option<Text>,
) -> Decided
    ensures { Decides (decided_by (first_broken (delete_table_rules cat.now bars.now (lower db.now) (lower name.now) col.now)) (Some (table_deleted cat.now (lower db.now) (lower name.now) col.now)) (Flag true)) result }
{
    let Ok(db) = LowerName::of(alloc, db) else {
        return Decided::NoMemory;
    };
    let Ok(name) = LowerName::of(alloc, name) else {
        return Decided::NoMemory;
    };
    delete_at_table(alloc, cat, bars, db.as_text(), name.as_text(), col)
}

// The same; both names are in lower case.
fn delete_at_table(
    alloc: Global,
    cat: &Cat,
    bars: &Bars,
    db: &Text,
    name: &Text,
    col: &Option<Text>,
) -> Decided
    ensures { Decides (decided_by (first_broken (delete_table_rules cat.now bars.now db.now name.now col.now)) (Some (table_deleted cat.now db.now name.now col.now)) (Flag true)) result }
{
    let Some(within) = cat.held_database(db) else {
        return refused(alloc, Refusal::NoSuchObject);
    };
    if bars.is_replica(db) {
        return refused(alloc, Refusal::IsReplica);
    }
    let Some(held) = within.tables.get(name) else {
        return refused(alloc, Refusal::NoSuchObject);
    };
    let site = Site {
        db,
        db_born: within.born,
        name,
        held,
    };
    delete_here(alloc, &site, col)
}

// Deletes statistics of a table that is there.
fn delete_here(alloc: Global, site: &Site<'_>, col: &Option<Text>) -> Decided
    ensures { Decides (decided_by (first_broken (delete_at_rules (Some site.now.held.now) site.now.name.now col.now)) (Some (record { kind = kind.AlterTable; db = site.now.db.now; db_born = site.now.db_born; ops = PutTable site.now.name.now site.now.held.now.born (table_with (without_stats col.now site.now.held.now.rec.stats) site.now.held.now.rec) ∷ [] })) (Flag true)) result }
{
    match site.may_put(alloc) {
        Ok(true) => {}
        Ok(false) => return refused(alloc, Refusal::NoSuchObject),
        Err(NoMemory) => return Decided::NoMemory,
    }
    match left_stats(alloc, &site.held.rec.stats, col) {
        Ok(Some(stats)) => flagged(site.gives_table(alloc, stats)),
        Ok(None) => refused(alloc, Refusal::NoSuchObject),
        Err(NoMemory) => Decided::NoMemory,
    }
}

/// Reads the statistics of a table's column.
pub fn get_table_column_statistics(
    alloc: Global,
    cat: &Cat,
    db: &Text,
    name: &Text,
    col: &Text,
) -> Decided
    ensures { Decides (decided_by (first_broken (get_table_stat_rules cat.now (lower db.now) (lower name.now) (lower col.now))) None (table_stat cat.now (lower db.now) (lower name.now) (lower col.now))) result }
{
    let Ok(db) = LowerName::of(alloc, db) else {
        return Decided::NoMemory;
    };
    let Ok(name) = LowerName::of(alloc, name) else {
        return Decided::NoMemory;
    };
    let Some(held) = cat.held_table(db.as_text(), name.as_text()) else {
        return refused(alloc, Refusal::NoSuchObject);
    };
    let Ok(col) = LowerName::of(alloc, col) else {
        return Decided::NoMemory;
    };
    get_here(alloc, db.as_text(), name.as_text(), held, col.as_text())
}

// Reads the statistics of a column of a table that is there; the column's name is in lower case.
fn get_here(alloc: Global, db: &Text, name: &Text, held: &HeldTable, col: &Text) -> Decided
    ensures { Decides (decided_by (first_broken (get_here_rules (Some held.now) col.now)) None (table_stat_in (Some held.now) db.now name.now col.now)) result }
{
    if held.rec.stats.get(col).is_none() {
        return refused(alloc, Refusal::NoSuchObject);
    }
    let told = told_stat(alloc, &held.rec.stats, &held.rec.sd.cols, col);
    of_table(alloc, db, name, told)
}

// Tells statistics of a table's columns.
fn of_table(alloc: Global, db: &Text, name: &Text, told: Result<NamedStats, NoMemory>) -> Decided
    ensures ok { IfOk told (λ stats. Decides (accepted None (ColumnStats db.now name.now None stats)) result) }
    ensures err { OnErr told (result ≡ Decided.NoMemory) }
{
    let Ok(stats) = told else {
        return Decided::NoMemory;
    };
    match (db, name).copy_parts(alloc) {
        Ok((db, table)) => Decided::Reply(Reply::ColumnStats {
            db,
            table,
            part: None,
            stats,
        }),
        Err(NoMemory) => Decided::NoMemory,
    }
}

/// Reads the statistics of the named columns of a table that there are, each once, in the order of
/// first asking. An absent name of a database or table names nothing.
pub fn get_table_statistics_req(
    alloc: Global,
    cat: &Cat,
    db: &Option<Text>,
    name: &Option<Text>,
    cols: &Texts,
) -> Decided
    ensures { Decides (decided_by (first_broken (get_stats_rules cat.now db.now name.now)) None (requested_stats cat.now db.now name.now cols.now)) result }
{
    let Some(db) = db else {
        return refused(alloc, Refusal::NoSuchObject);
    };
    let Some(name) = name else {
        return refused(alloc, Refusal::NoSuchObject);
    };
    match find_table(alloc, cat, db, name) {
        Ok(Some(held)) => match stats_asked(alloc, &held.rec, cols) {
            Ok(stats) => Decided::Reply(Reply::Stats(stats)),
            Err(NoMemory) => Decided::NoMemory,
        },
        Ok(None) => refused(alloc, Refusal::NoSuchObject),
        Err(NoMemory) => Decided::NoMemory,
    }
}
