//! The calls on statistics of a partition's columns.

ghost use Rattle.std.specs.Prelude.{◌≡◌, ◌∷◌, [], IfOk, None, OnErr, Some, true};
ghost use Rattle.cat_values.specs.Names.{lower};
ghost use Rattle.cat_types.specs.declared.changes.EventKind.TheVariants as kind;
ghost use Rattle.cat_types.specs.declared.changes.Op.TheVariants.{PutPart};
ghost use Rattle.cat_types.specs.declared.replies.Reply.TheVariants.{ColumnStats, Flag};
ghost use Rattle.part_names.specs.Making.{part_name};
ghost use Rattle.part_names.specs.Reading.{vals};
ghost use Rattle.cat_objects.specs.Parts.{at_values};
ghost use Rattle.rulings.specs.Decisions.{Decides, accepted, decided_by};
ghost use Rattle.rulings.specs.Meant.{key_names};
ghost use Rattle.rulings.specs.Rules.{first_broken};
ghost use Rattle.stat_rules.specs.Statistics.{delete_at_values_rules, delete_in_rules, delete_part_rules, get_at_values_rules, get_in_rules, get_part_stat_rules, part_deleted, part_given, part_stat, part_stat_in, part_updated, put_at_part, put_at_part_rules, put_at_values_rules, put_in_rules, unless_empty, update_part_rules};
ghost use Rattle.stat_rules.specs.Records.{put_all, without_stats};

use crate::kept::{left_stats, put_all};
use crate::sites::Site;
use crate::taking::{taken_at, takes_all};
use crate::told::told_stat;
use cat_objects::{Cat, HeldTable};
use cat_types::{
    Columns, CopyParts, ListOf, LowerName, NamedStats, NoMemory, Reply, StatArgs, StatsArg, Text,
    Texts, TryCopy,
};
use part_names::join_name;
use rulings::{Bars, Decided, Refusal, flagged, may_have, named_values, refused};
use std::alloc::Global;

/// Updates statistics of a partition's columns: those that are handed in come over those that are kept
/// of their columns. They are judged by the columns of its table. It answers yes; where none are handed
/// in, nothing changes. `moment` is the time of the call in seconds since 1970.
pub fn update_partition_column_statistics(
    alloc: Global,
    cat: &Cat,
    bars: &Bars,
    new: &StatsArg,
    moment: u64,
) -> Decided
    ensures { Decides (decided_by (first_broken (update_part_rules cat.now bars.now new.now)) (part_updated cat.now new.now moment) (Flag true)) result }
{
    let Some(desc) = &new.desc else {
        return refused(alloc, Refusal::InvalidInput);
    };
    if desc.table_level {
        return refused(alloc, Refusal::InvalidInput);
    }
    let Some(called) = &desc.part else {
        return refused(alloc, Refusal::InvalidInput);
    };
    let at = taken_at(desc.analyzed, moment);
    put_at_part(
        alloc,
        cat,
        bars,
        &desc.db,
        &desc.table,
        called,
        &new.objects,
        at,
    )
}

// Puts statistics at a partition of the table with these names.
fn put_at_part(
    alloc: Global,
    cat: &Cat,
    bars: &Bars,
    db: &Option<Text>,
    name: &Option<Text>,
    called: &Text,
    objects: &StatArgs,
    at: i64,
) -> Decided
    ensures { Decides (decided_by (first_broken (put_at_part_rules cat.now bars.now db.now name.now called.now objects.now)) (put_at_part cat.now db.now name.now called.now objects.now at) (Flag true)) result }
{
    let Some(db) = db else {
        return refused(alloc, Refusal::NoSuchObject);
    };
    let Ok(db) = LowerName::of(alloc, db) else {
        return Decided::NoMemory;
    };
    let Some(within) = cat.held_database(db.as_text()) else {
        return refused(alloc, Refusal::NoSuchObject);
    };
    if bars.is_replica(db.as_text()) {
        return refused(alloc, Refusal::IsReplica);
    }
    let Some(name) = name else {
        return refused(alloc, Refusal::NoSuchObject);
    };
    let Ok(name) = LowerName::of(alloc, name) else {
        return Decided::NoMemory;
    };
    let Some(held) = within.tables.get(name.as_text()) else {
        return refused(alloc, Refusal::NoSuchObject);
    };
    let site = Site {
        db: db.as_text(),
        db_born: within.born,
        name: name.as_text(),
        held,
    };
    put_in(alloc, &site, called, objects, at)
}

// Puts statistics at the partition with this name of a table that is there.
fn put_in(alloc: Global, site: &Site<'_>, called: &Text, objects: &StatArgs, at: i64) -> Decided
    ensures { Decides (decided_by (first_broken (put_in_rules (Some site.now.held.now) called.now objects.now)) (unless_empty objects.now (record { kind = kind.AlterPartition; db = site.now.db.now; db_born = site.now.db_born; ops = part_given (at_values (vals called.now) site.now.held.now.parts) site.now.name.now site.now.held.now.born (vals called.now) (λ stats. put_all at stats objects.now) })) (Flag true)) result }
{
    match named_values(alloc, &site.held.rec.keys, called) {
        Ok(Some(values)) => put_at_values(alloc, site, &values, objects, at),
        Ok(None) => refused(alloc, Refusal::NoSuchObject),
        Err(NoMemory) => Decided::NoMemory,
    }
}

// The same of the partition with these values.
fn put_at_values(
    alloc: Global,
    site: &Site<'_>,
    values: &Texts,
    objects: &StatArgs,
    at: i64,
) -> Decided
    ensures { Decides (decided_by (first_broken (put_at_values_rules (Some site.now.held.now) values.now objects.now)) (unless_empty objects.now (record { kind = kind.AlterPartition; db = site.now.db.now; db_born = site.now.db_born; ops = part_given (at_values values.now site.now.held.now.parts) site.now.name.now site.now.held.now.born values.now (λ stats. put_all at stats objects.now) })) (Flag true)) result }
{
    let Some(rec) = site.held.parts.get(values) else {
        return refused(alloc, Refusal::NoSuchObject);
    };
    if !may_have(site.held, values) {
        return refused(alloc, Refusal::NoSuchObject);
    }
    match takes_all(alloc, &site.held.rec, objects) {
        Ok(true) => {}
        Ok(false) => return refused(alloc, Refusal::InvalidObject),
        Err(NoMemory) => return Decided::NoMemory,
    }
    if objects.is_empty() {
        return Decided::Reply(Reply::Flag(true));
    }
    match put_all(alloc, &rec.stats, objects, at) {
        Ok(stats) => flagged(site.gives_part(alloc, values, rec, stats)),
        Err(NoMemory) => Decided::NoMemory,
    }
}

/// Deletes the statistics of a partition's column, or of all its columns where none is named. It
/// answers yes.
pub fn delete_partition_column_statistics(
    alloc: Global,
    cat: &Cat,
    bars: &Bars,
    db: &Text,
    name: &Text,
    called: &Text,
    col: &Option<Text>,
) -> Decided
    ensures { Decides (decided_by (first_broken (delete_part_rules cat.now bars.now (lower db.now) (lower name.now) called.now col.now)) (Some (part_deleted cat.now (lower db.now) (lower name.now) called.now col.now)) (Flag true)) result }
{
    let Ok(db) = LowerName::of(alloc, db) else {
        return Decided::NoMemory;
    };
    let Ok(name) = LowerName::of(alloc, name) else {
        return Decided::NoMemory;
    };
    delete_at_part(alloc, cat, bars, db.as_text(), name.as_text(), called, col)
}

// The same; both names are in lower case.
fn delete_at_part(
    alloc: Global,
    cat: &Cat,
    bars: &Bars,
    db: &Text,
    name: &Text,
    called: &Text,
    col: &Option<Text>,
) -> Decided
    ensures { Decides (decided_by (first_broken (delete_part_rules cat.now bars.now db.now name.now called.now col.now)) (Some (part_deleted cat.now db.now name.now called.now col.now)) (Flag true)) result }
{
    let Some(within) = cat.held_database(db) else {
        return refused(alloc, Refusal::NoSuchObject);
    };
    if bars.is_replica(db) {
        return refused(alloc, Refusal::IsReplica);
    }
    let Some(held) = within.tables.get(name) else {
        return refused(alloc, Refusal::NoSuchObject);
    };
    let site = Site {
        db,
        db_born: within.born,
        name,
        held,
    };
    delete_in(alloc, &site, called, col)
}

// Deletes statistics of the partition with this name of a table that is there.
fn delete_in(alloc: Global, site: &Site<'_>, called: &Text, col: &Option<Text>) -> Decided
    ensures { Decides (decided_by (first_broken (delete_in_rules (Some site.now.held.now) called.now col.now)) (Some (record { kind = kind.AlterPartition; db = site.now.db.now; db_born = site.now.db_born; ops = part_given (at_values (vals called.now) site.now.held.now.parts) site.now.name.now site.now.held.now.born (vals called.now) (without_stats col.now) })) (Flag true)) result }
{
    match named_values(alloc, &site.held.rec.keys, called) {
        Ok(Some(values)) => delete_at_values(alloc, site, &values, col),
        Ok(None) => refused(alloc, Refusal::NoSuchObject),
        Err(NoMemory) => Decided::NoMemory,
    }
}

// The same of the partition with these values.
fn delete_at_values(alloc: Global, site: &Site<'_>, values: &Texts, col: &Option<Text>) -> Decided
    ensures { Decides (decided_by (first_broken (delete_at_values_rules (Some site.now.held.now) values.now col.now)) (Some (record { kind = kind.AlterPartition; db = site.now.db.now; db_born = site.now.db_born; ops = part_given (at_values values.now site.now.held.now.parts) site.now.name.now site.now.held.now.born values.now (without_stats col.now) })) (Flag true)) result }
{
    let Some(rec) = site.held.parts.get(values) else {
        return refused(alloc, Refusal::NoSuchObject);
    };
    if !may_have(site.held, values) {
        return refused(alloc, Refusal::NoSuchObject);
    }
    match left_stats(alloc, &rec.stats, col) {
        Ok(Some(stats)) => flagged(site.gives_part(alloc, values, rec, stats)),
        Ok(None) => refused(alloc, Refusal::NoSuchObject),
        Err(NoMemory) => Decided::NoMemory,
    }
}

/// Reads the statistics of a partition's column. They are told with the partition's own name, and with
/// the type that its table has for the column.
pub fn get_partition_column_statistics(
    alloc: Global,
    cat: &Cat,
    db: &Text,
    name: &Text,
    called: &Text,
    col: &Text,
) -> Decided
    ensures { Decides (decided_by (first_broken (get_part_stat_rules cat.now (lower db.now) (lower name.now) called.now (lower col.now))) None (part_stat cat.now (lower db.now) (lower name.now) called.now (lower col.now))) result }
{
    let Ok(db) = LowerName::of(alloc, db) else {
        return Decided::NoMemory;
    };
    let Ok(name) = LowerName::of(alloc, name) else {
        return Decided::NoMemory;
    };
    let Some(held) = cat.held_table(db.as_text(), name.as_text()) else {
        return refused(alloc, Refusal::NoSuchObject);
    };
    let Ok(col) = LowerName::of(alloc, col) else {
        return Decided::NoMemory;
    };
    get_in(
        alloc,
        db.as_text(),
        name.as_text(),
        held,
        called,
        col.as_text(),
    )
}

// Reads the statistics of a column of the partition with this name; the column's name is in lower case.
fn get_in(
    alloc: Global,
    db: &Text,
    name: &Text,
    held: &HeldTable,
    called: &Text,
    col: &Text,
) -> Decided
    ensures { Decides (decided_by (first_broken (get_in_rules (Some held.now) called.now col.now)) None (part_stat_in (Some held.now) db.now name.now (vals called.now) col.now)) result }
{
    match named_values(alloc, &held.rec.keys, called) {
        Ok(Some(values)) => get_at_values(alloc, db, name, held, &values, col),
        Ok(None) => refused(alloc, Refusal::NoSuchObject),
        Err(NoMemory) => Decided::NoMemory,
    }
}

// The same of the partition with these values.
fn get_at_values(
    alloc: Global,
    db: &Text,
    name: &Text,
    held: &HeldTable,
    values: &Texts,
    col: &Text,
) -> Decided
    ensures { Decides (decided_by (first_broken (get_at_values_rules (Some held.now) values.now col.now)) None (part_stat_in (Some held.now) db.now name.now values.now col.now)) result }
{
    let Some(rec) = held.parts.get(values) else {
        return refused(alloc, Refusal::NoSuchObject);
    };
    if rec.stats.get(col).is_none() {
        return refused(alloc, Refusal::NoSuchObject);
    }
    let Ok(called) = name_of(alloc, &held.rec.keys, values) else {
        return Decided::NoMemory;
    };
    let told = told_stat(alloc, &rec.stats, &held.rec.sd.cols, col);
    of_part(alloc, db, name, called, told)
}

// Tells statistics of the columns of the partition with this name.
fn of_part(
    alloc: Global,
    db: &Text,
    name: &Text,
    called: Text,
    told: Result<NamedStats, NoMemory>,
) -> Decided
    ensures ok { IfOk told (λ stats. Decides (accepted None (ColumnStats db.now name.now (Some called) stats)) result) }
    ensures err { OnErr told (result ≡ Decided.NoMemory) }
{
    let Ok(stats) = told else {
        return Decided::NoMemory;
    };
    match (db, name).copy_parts(alloc) {
        Ok((db, table)) => Decided::Reply(Reply::ColumnStats {
            db,
            table,
            part: Some(called),
            stats,
        }),
        Err(NoMemory) => Decided::NoMemory,
    }
}

// The name of a partition with these values.
fn name_of(alloc: Global, keys: &Columns, values: &Texts) -> Result<Text, NoMemory>
    ensures { IfOk result (λ name. name ≡ part_name (key_names keys.now) values.now) }
{
    let names = key_names(alloc, keys)?;
    join_name(alloc, &names, values)
}

// The names of keys.
fn key_names(alloc: Global, keys: &Columns) -> Result<Texts, NoMemory>
    ensures { IfOk result (λ names. names ≡ key_names keys.now) }
{
    let mut names = ListOf::new(alloc);
    for key in keys.as_slice() {
        names.push(key.name.copy(alloc)?)?;
    }
    Ok(names)
}
