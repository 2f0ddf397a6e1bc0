//! The calls that drop, alter and rename partitions.

ghost use Rattle.std.specs.Prelude.{◌≡◌, [], ◌∷◌, ◌++◌, List, IfOk, IsErrOf, None, OnErr, OnOk, Some, true};
ghost use Rattle.cat_types.specs.declared.arguments.PartArg.{PartArg};
ghost use Rattle.cat_types.specs.declared.replies.Reply.TheVariants.{Flag, Nothing};
ghost use Rattle.cat_values.specs.Names.{lower};
ghost use Rattle.rulings.specs.Decisions.{Decides, accepted, decided_by};
ghost use Rattle.part_rules.specs.PartChanges.{all_altered, alter_partition_rules, alter_partitions_rules, drop_partition_rules, each_altered_rules, ops_under, partition_dropped, partition_renamed, parts_altered, rename_partition_rules, values_of};
ghost use Rattle.rulings.specs.Changes.{if_any};
ghost use Rattle.rulings.specs.Meant.{meaning, meant_values};
ghost use Rattle.rulings.specs.Rules.{first_broken};
ghost use Rattle.rulings.specs.declared.refusal.Refusal.{Refusal};

use crate::new_parts::NewParts;
use crate::part_site::Site;
use cat_objects::{Cat, HeldTable};
use cat_types::{Change, EventKind, LowerName, NoMemory, PartArg, PartArgs, Reply, Text, Texts};
use kept_records::altered_part;
use rulings::{
    Barred, Bars, Decided, Meant, Refusal, StoredValues, changed, flagged, may_have, refused,
};
use std::alloc::Global;

/// Dropping the partition that a call means.
pub fn drop_partition(
    alloc: Global,
    cat: &Cat,
    bars: &Bars,
    db: &Text,
    name: &Text,
    meant: &Meant<'_>,
) -> Decided
    ensures { Decides (decided_by (first_broken (drop_partition_rules cat.now bars.now (lower db.now) (lower name.now) (meaning meant.now))) (Some (partition_dropped cat.now (lower db.now) (lower name.now) (meant_values (meaning meant.now)))) (Flag true)) result }
{
    let Ok(db) = LowerName::of(alloc, db) else {
        return Decided::NoMemory;
    };
    let Ok(name) = LowerName::of(alloc, name) else {
        return Decided::NoMemory;
    };
    drop_meant(alloc, cat, bars, db.as_text(), name.as_text(), meant)
}

// The same; both names are in lower case.
fn drop_meant(
    alloc: Global,
    cat: &Cat,
    bars: &Bars,
    db: &Text,
    name: &Text,
    meant: &Meant<'_>,
) -> Decided
    ensures { Decides (decided_by (first_broken (drop_partition_rules cat.now bars.now db.now name.now (meaning meant.now))) (Some (partition_dropped cat.now db.now name.now (meant_values (meaning meant.now)))) (Flag true)) result }
{
    let Some(within) = cat.held_database(db) else {
        return refused(alloc, Refusal::NoSuchObject);
    };
    if bars.is_replica(db) {
        return refused(alloc, Refusal::IsReplica);
    }
    let Some(held) = within.tables.get(name) else {
        return refused(alloc, Refusal::NoSuchObject);
    };
    match meant.values(alloc, &held.rec.keys) {
        Ok(Some(values)) => {
            if held.parts.get(values.as_texts()).is_none() {
                return refused(alloc, Refusal::NoSuchObject);
            }
            let site = Site {
                db,
                db_born: within.born,
                name,
                held,
            };
            flagged(site.drops(alloc, values))
        }
        Ok(None) => refused(alloc, Refusal::NoSuchObject),
        Err(NoMemory) => Decided::NoMemory,
    }
}

/// Altering a partition.
pub fn alter_partition(
    alloc: Global,
    cat: &Cat,
    bars: &Bars,
    db: &Text,
    name: &Text,
    new: &PartArg,
    moment: u64,
) -> Decided
    ensures { Decides (decided_by (first_broken (alter_partition_rules cat.now bars.now (lower db.now) (lower name.now) new.now)) (parts_altered cat.now (lower db.now) (lower name.now) (new.now ∷ []) moment) Nothing) result }
{
    let Ok(db) = LowerName::of(alloc, db) else {
        return Decided::NoMemory;
    };
    let Ok(name) = LowerName::of(alloc, name) else {
        return Decided::NoMemory;
    };
    alter_part(alloc, cat, bars, db.as_text(), name.as_text(), new, moment)
}

// The same; both names are in lower case.
fn alter_part(
    alloc: Global,
    cat: &Cat,
    bars: &Bars,
    db: &Text,
    name: &Text,
    new: &PartArg,
    moment: u64,
) -> Decided
    ensures { Decides (decided_by (first_broken (alter_partition_rules cat.now bars.now db.now name.now new.now)) (parts_altered cat.now db.now name.now (new.now ∷ []) moment) Nothing) result }
{
    let Some(within) = cat.held_database(db) else {
        return refused(alloc, Refusal::InvalidOperation);
    };
    if bars.is_replica(db) {
        return refused(alloc, Refusal::IsReplica);
    }
    let Some(held) = within.tables.get(name) else {
        return refused(alloc, Refusal::InvalidOperation);
    };
    let Ok(values) = StoredValues::of(alloc, &new.values) else {
        return Decided::NoMemory;
    };
    let Some(old) = held.parts.get(values.as_texts()) else {
        return refused(alloc, Refusal::InvalidOperation);
    };
    if !may_have(held, values.as_texts()) {
        return refused(alloc, Refusal::InvalidOperation);
    }
    let site = Site {
        db,
        db_born: within.born,
        name,
        held,
    };
    changed(site.alters(alloc, values, old, &new.rec, moment))
}

/// Altering the partitions of a list.
pub fn alter_partitions(
    alloc: Global,
    cat: &Cat,
    bars: &Bars,
    db: &Text,
    name: &Text,
    parts: &PartArgs,
    moment: u64,
) -> Decided
    ensures { Decides (decided_by (first_broken (alter_partitions_rules cat.now bars.now (lower db.now) (lower name.now) parts.now)) (parts_altered cat.now (lower db.now) (lower name.now) parts.now moment) Nothing) result }
{
    let Ok(db) = LowerName::of(alloc, db) else {
        return Decided::NoMemory;
    };
    let Ok(name) = LowerName::of(alloc, name) else {
        return Decided::NoMemory;
    };
    alter_list(
        alloc,
        cat,
        bars,
        db.as_text(),
        name.as_text(),
        parts,
        moment,
    )
}

// The same; both names are in lower case.
fn alter_list(
    alloc: Global,
    cat: &Cat,
    bars: &Bars,
    db: &Text,
    name: &Text,
    parts: &PartArgs,
    moment: u64,
) -> Decided
    ensures { Decides (decided_by (first_broken (alter_partitions_rules cat.now bars.now db.now name.now parts.now)) (parts_altered cat.now db.now name.now parts.now moment) Nothing) result }
{
    let Some(within) = cat.held_database(db) else {
        return refused(alloc, Refusal::InvalidOperation);
    };
    if bars.is_replica(db) {
        return refused(alloc, Refusal::IsReplica);
    }
    let Some(held) = within.tables.get(name) else {
        return refused(alloc, Refusal::InvalidOperation);
    };
    let site = Site {
        db,
        db_born: within.born,
        name,
        held,
    };
    match alter_all(alloc, held, parts, moment) {
        Ok(news) => changed_if_any(alloc, &site, news),
        Err(Barred::Refused(refusal)) => refused(alloc, refusal),
        Err(Barred::NoMemory) => Decided::NoMemory,
    }
}

// Tells the change that puts partitions, where there are any.
fn changed_if_any(alloc: Global, site: &Site<'_>, news: NewParts) -> Decided
    ensures { Decides (accepted (if_any (record { kind = EventKind.AlterPartition; db = site.now.db.now; db_born = site.now.db_born; ops = ops_under site.now.name.now site.now.held.now.born news })) Nothing) result }
{
    if news.len() == 0 {
        return Decided::Reply(Reply::Nothing);
    }
    changed(site.puts(alloc, EventKind::AlterPartition, news))
}

// The partitions of a list with their other records, unless one of them isn't there or stands in the
// list twice.
fn alter_all(
    alloc: Global,
    held: &HeldTable,
    parts: &PartArgs,
    moment: u64,
) -> Result<NewParts, Barred>
    ensures ok { IfOk result (λ news. (first_broken (each_altered_rules (Some held.now) [] parts.now) ≡ None) × (news ≡ all_altered (Some held.now) parts.now moment)) }
    ensures err { (refusal : Refusal) → IsErrOf result (Barred.Refused refusal) → first_broken (each_altered_rules (Some held.now) [] parts.now) ≡ Some refusal }
{
    let mut news = NewParts::new(alloc);
    for new in parts.as_slice() {
        alter_one(alloc, held, new, moment, &mut news)?;
    }
    Ok(news)
}

// Adds a partition with its other record, unless it isn't there or was added before.
fn alter_one(
    alloc: Global,
    held: &HeldTable,
    new: &PartArg,
    moment: u64,
    news: &mut NewParts,
) -> Result<(), Barred>
    ensures broken { OnOk result ((more : List PartArg) → first_broken (each_altered_rules (Some held.now) (values_of news.new) more) ≡ first_broken (each_altered_rules (Some held.now) (values_of news.old) (new.now ∷ more))) }
    ensures made { OnOk result ((more : List PartArg) → news.new ++ all_altered (Some held.now) more moment ≡ news.old ++ all_altered (Some held.now) (new.now ∷ more) moment) }
    ensures err { (refusal : Refusal) → IsErrOf result (Barred.Refused refusal) → (more : List PartArg) → first_broken (each_altered_rules (Some held.now) (values_of news.old) (new.now ∷ more)) ≡ Some refusal }
{
    let values = StoredValues::of(alloc, &new.values)?;
    let Some(old) = held.parts.get(values.as_texts()) else {
        return Err(Barred::Refused(Refusal::InvalidOperation));
    };
    if !may_have(held, values.as_texts()) || news.has(values.as_texts()) {
        return Err(Barred::Refused(Refusal::InvalidOperation));
    }
    let rec = altered_part(alloc, old, &new.rec, moment)?;
    let values = values.into_texts(alloc)?;
    news.push(alloc, values, rec)?;
    Ok(())
}

/// Renaming a partition.
pub fn rename_partition(
    alloc: Global,
    cat: &Cat,
    bars: &Bars,
    db: &Text,
    name: &Text,
    values: &Texts,
    new: &PartArg,
    moment: u64,
) -> Decided
    ensures { Decides (decided_by (first_broken (rename_partition_rules cat.now bars.now (lower db.now) (lower name.now) values.now new.now)) (Some (partition_renamed cat.now (lower db.now) (lower name.now) values.now new.now moment)) Nothing) result }
{
    let Ok(db) = LowerName::of(alloc, db) else {
        return Decided::NoMemory;
    };
    let Ok(name) = LowerName::of(alloc, name) else {
        return Decided::NoMemory;
    };
    rename_part(
        alloc,
        cat,
        bars,
        db.as_text(),
        name.as_text(),
        values,
        new,
        moment,
    )
}

// The same; both names are in lower case.
fn rename_part(
    alloc: Global,
    cat: &Cat,
    bars: &Bars,
    db: &Text,
    name: &Text,
    values: &Texts,
    new: &PartArg,
    moment: u64,
) -> Decided
    ensures { Decides (decided_by (first_broken (rename_partition_rules cat.now bars.now db.now name.now values.now new.now)) (Some (partition_renamed cat.now db.now name.now values.now new.now moment)) Nothing) result }
{
    let Some(within) = cat.held_database(db) else {
        return refused(alloc, Refusal::InvalidOperation);
    };
    if bars.is_replica(db) {
        return refused(alloc, Refusal::IsReplica);
    }
    let Some(held) = within.tables.get(name) else {
        return refused(alloc, Refusal::InvalidOperation);
    };
    let Ok(from) = StoredValues::of(alloc, values) else {
        return Decided::NoMemory;
    };
    let Some(old) = held.parts.get(from.as_texts()) else {
        return refused(alloc, Refusal::InvalidOperation);
    };
    let Ok(to) = StoredValues::of(alloc, &new.values) else {
        return Decided::NoMemory;
    };
    if !may_have(held, to.as_texts()) {
        return refused(alloc, Refusal::InvalidOperation);
    }
    let site = Site {
        db,
        db_born: within.born,
        name,
        held,
    };
    if *to.as_texts() == *from.as_texts() {
        return changed(site.alters(alloc, from, old, &new.rec, moment));
    }
    if bars.is_dumping(db) || held.parts.get(to.as_texts()).is_some() {
        return refused(alloc, Refusal::InvalidOperation);
    }
    changed(site.moves(alloc, from, to, old, &new.rec, moment))
}
