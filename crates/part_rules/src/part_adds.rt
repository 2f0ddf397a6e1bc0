//! The calls that add partitions.

ghost use Rattle.std.specs.Prelude.{◌≡◌, ◌++◌, [], ◌∷◌, List, IfOk, IsErrOf, None, OnOk, Some, false, true};
ghost use Rattle.cat_types.specs.declared.arguments.PartArg.{PartArg};
ghost use Rattle.cat_values.specs.Names.{lower};
ghost use Rattle.rulings.specs.Decisions.{Decides, accepted, decided_by};
ghost use Rattle.part_rules.specs.PartChanges.{add_list_rules, add_partitions_rules, added, added_as, append_partition_rules, appended_as, count_added, each_added_rules, is_elsewhere, is_full, is_taken, list_change, list_told, names_other, new_part_rules, one_added_rules, partition_appended, partitions_added, put_here, told_if, values_of};
ghost use Rattle.rulings.specs.Listed.{all_named};
ghost use Rattle.rulings.specs.Meant.{meaning, meant_values, seen_values, stored_values};
ghost use Rattle.rulings.specs.Rules.{first_broken};
ghost use Rattle.rulings.specs.declared.refusal.Refusal.{Refusal};
ghost use Rattle.kept_records.specs.Partitions.{appended_part};

use crate::new_parts::NewParts;
use crate::part_site::Site;
use cat_objects::Cat;
use cat_types::{
    EventKind, ListOf, LowerName, NoMemory, PartArg, PartArgs, Parts, Reply, Text, Texts,
};
use kept_records::{appended_part, made_part};
use rulings::{Barred, Bars, Decided, Meant, Refusal, StoredValues, may_have, push_part, refused};
use std::alloc::Global;
use std::slice;

/// How many partitions a table has at most.
pub const PARTITION_LIMIT: u64 = 1_000_000;

/// What is told of partitions that were added.
#[derive(Clone, Copy)]
pub enum Told {
    /// All of them, with their names.
    All,
    /// How many they are.
    Count,
    Nothing,
}

/// Appending the partition that a call means, stored as its table is.
pub fn append_partition(
    alloc: Global,
    cat: &Cat,
    bars: &Bars,
    db: &Text,
    name: &Text,
    meant: &Meant<'_>,
    moment: u64,
) -> Decided
    ensures { Decides (decided_by (first_broken (append_partition_rules cat.now bars.now (lower db.now) (lower name.now) (meaning meant.now))) (partition_appended cat.now (lower db.now) (lower name.now) (meant_values (meaning meant.now)) moment) (appended_as cat.now (lower db.now) (lower name.now) (meant_values (meaning meant.now)) moment)) result }
{
    let Ok(db) = LowerName::of(alloc, db) else {
        return Decided::NoMemory;
    };
    let Ok(name) = LowerName::of(alloc, name) else {
        return Decided::NoMemory;
    };
    append_meant(
        alloc,
        cat,
        bars,
        db.as_text(),
        name.as_text(),
        meant,
        moment,
    )
}

// The same; both names are in lower case.
fn append_meant(
    alloc: Global,
    cat: &Cat,
    bars: &Bars,
    db: &Text,
    name: &Text,
    meant: &Meant<'_>,
    moment: u64,
) -> Decided
    ensures { Decides (decided_by (first_broken (append_partition_rules cat.now bars.now db.now name.now (meaning meant.now))) (partition_appended cat.now db.now name.now (meant_values (meaning meant.now)) moment) (appended_as cat.now db.now name.now (meant_values (meaning meant.now)) moment)) result }
{
    let Some(within) = cat.held_database(db) else {
        return refused(alloc, Refusal::InvalidObject);
    };
    if bars.is_replica(db) {
        return refused(alloc, Refusal::IsReplica);
    }
    let Some(held) = within.tables.get(name) else {
        return refused(alloc, Refusal::InvalidObject);
    };
    let site = Site {
        db,
        db_born: within.born,
        name,
        held,
    };
    match meant.values(alloc, &held.rec.keys) {
        Ok(Some(values)) => site.append(alloc, values, moment),
        Ok(None) => refused(alloc, Refusal::InvalidObject),
        Err(NoMemory) => Decided::NoMemory,
    }
}

// Whether and how partitions of a list are passed over or need the names of their table.
#[derive(Clone, Copy)]
struct Terms {
    // Each partition names its database and its table; else it names no others.
    needs_names: bool,
    // Partitions that are there are passed over.
    passes: bool,
    told: Told,
}

// Adding the partitions of a list to the table of these names.
fn add_list(
    alloc: Global,
    cat: &Cat,
    bars: &Bars,
    db: &Option<Text>,
    name: &Option<Text>,
    parts: &[PartArg],
    terms: Terms,
    moment: u64,
) -> Decided
    ensures { Decides (decided_by (first_broken (add_list_rules terms.needs_names terms.passes cat.now bars.now db.now name.now parts.now)) (list_change cat.now db.now name.now parts.now moment) (list_told terms.told cat.now db.now name.now parts.now moment)) result }
{
    let Some(db) = db else {
        return refused(alloc, Refusal::InvalidObject);
    };
    let Ok(db) = LowerName::of(alloc, db) else {
        return Decided::NoMemory;
    };
    let Some(within) = cat.held_database(db.as_text()) else {
        return refused(alloc, Refusal::InvalidObject);
    };
    if bars.is_replica(db.as_text()) {
        return refused(alloc, Refusal::IsReplica);
    }
    let Some(name) = name else {
        return refused(alloc, Refusal::InvalidObject);
    };
    let Ok(name) = LowerName::of(alloc, name) else {
        return Decided::NoMemory;
    };
    let Some(held) = within.tables.get(name.as_text()) else {
        return refused(alloc, Refusal::InvalidObject);
    };
    let site = Site {
        db: db.as_text(),
        db_born: within.born,
        name: name.as_text(),
        held,
    };
    site.add_all(alloc, parts, terms, moment)
}

/// Adding a partition to the table that it names.
pub fn add_partition(alloc: Global, cat: &Cat, bars: &Bars, part: &PartArg, moment: u64) -> Decided
    ensures { Decides (decided_by (first_broken (add_list_rules true false cat.now bars.now part.now.db part.now.table (part.now ∷ []))) (list_change cat.now part.now.db part.now.table (part.now ∷ []) moment) (list_told Told.All cat.now part.now.db part.now.table (part.now ∷ []) moment)) result }
{
    let terms = Terms {
        needs_names: true,
        passes: false,
        told: Told::All,
    };
    add_list(
        alloc,
        cat,
        bars,
        &part.db,
        &part.table,
        slice::from_ref(part),
        terms,
        moment,
    )
}

/// Adding partitions by a request.
pub fn add_requested(
    alloc: Global,
    cat: &Cat,
    bars: &Bars,
    db: &Option<Text>,
    name: &Option<Text>,
    parts: &PartArgs,
    passes: bool,
    need_result: bool,
    moment: u64,
) -> Decided
    ensures { Decides (decided_by (first_broken (add_list_rules false passes cat.now bars.now db.now name.now parts.now)) (list_change cat.now db.now name.now parts.now moment) (list_told (told_if need_result) cat.now db.now name.now parts.now moment)) result }
{
    let terms = Terms {
        needs_names: false,
        passes,
        told: told_if(need_result),
    };
    add_list(alloc, cat, bars, db, name, parts.as_slice(), terms, moment)
}

// All partitions that were added are told where they are wanted.
fn told_if(wanted: bool) -> Told
    ensures { result ≡ told_if wanted }
{
    if wanted { Told::All } else { Told::Nothing }
}

/// Adding partitions without a table of their own: to the one that the first of them names.
pub fn add_partitions(
    alloc: Global,
    cat: &Cat,
    bars: &Bars,
    parts: &PartArgs,
    moment: u64,
) -> Decided
    ensures { Decides (decided_by (first_broken (add_partitions_rules cat.now bars.now parts.now)) (partitions_added cat.now parts.now moment) (count_added cat.now parts.now moment)) result }
{
    let terms = Terms {
        needs_names: true,
        passes: false,
        told: Told::Count,
    };
    let Some(first) = parts.get(0) else {
        return Decided::Reply(Reply::Number(0));
    };
    add_list(
        alloc,
        cat,
        bars,
        &first.db,
        &first.table,
        parts.as_slice(),
        terms,
        moment,
    )
}

impl<'a> Site<'a> {
    // Appends the partition with these values.
    fn append(&self, alloc: Global, values: StoredValues<'_>, moment: u64) -> Decided
        ensures { Decides (decided_by (first_broken (new_part_rules (Some self.now.held.now) (seen_values values.entry))) (put_here self.now ((seen_values values.entry, appended_part self.now.held.now.rec moment) ∷ [])) (added_as Told.All self.now.db.now self.now.name.now ((seen_values values.entry, appended_part self.now.held.now.rec moment) ∷ []))) result }
    {
        if let Some(refusal) = self.new_part_bar(values.as_texts()) {
            return refused(alloc, refusal);
        }
        match self.appended(alloc, values, moment) {
            Ok(news) => self.added(alloc, news, Told::All),
            Err(NoMemory) => Decided::NoMemory,
        }
    }

    // Why a partition with these values can't be added.
    fn new_part_bar(&self, values: &Texts) -> Option<Refusal>
        ensures { result ≡ first_broken (new_part_rules (Some self.now.held.now) values.now) }
    {
        if !may_have(self.held, values) {
            return Some(Refusal::InvalidObject);
        }
        if self.held.parts.get(values).is_some() {
            return Some(Refusal::AlreadyExists);
        }
        if self.held.parts.len() as u64 >= PARTITION_LIMIT {
            return Some(Refusal::InvalidObject);
        }
        None
    }

    // The partition with these values, made of its table.
    fn appended(
        &self,
        alloc: Global,
        values: StoredValues<'_>,
        moment: u64,
    ) -> Result<NewParts, NoMemory>
        ensures { IfOk result (λ news. news ≡ (seen_values values.entry, appended_part self.now.held.now.rec moment) ∷ []) }
    {
        let mut news = NewParts::new(alloc);
        let values = values.into_texts(alloc)?;
        let rec = appended_part(alloc, &self.held.rec, moment)?;
        news.push(alloc, values, rec)?;
        Ok(news)
    }

    // Adds the partitions of a list.
    fn add_all(&self, alloc: Global, parts: &[PartArg], terms: Terms, moment: u64) -> Decided
        ensures { Decides (decided_by (first_broken (each_added_rules terms.needs_names terms.passes (Some self.now.held.now) self.now.db.now self.now.name.now [] parts.now)) (put_here self.now (added (Some self.now.held.now) [] parts.now moment)) (added_as terms.told self.now.db.now self.now.name.now (added (Some self.now.held.now) [] parts.now moment))) result }
    {
        match self.gather(alloc, parts, terms, moment) {
            Ok(news) => self.added(alloc, news, terms.told),
            Err(Barred::Refused(refusal)) => refused(alloc, refusal),
            Err(Barred::NoMemory) => Decided::NoMemory,
        }
    }

    // The partitions of a list that are added, unless one of them may not be.
    fn gather(
        &self,
        alloc: Global,
        parts: &[PartArg],
        terms: Terms,
        moment: u64,
    ) -> Result<NewParts, Barred>
        ensures ok { IfOk result (λ news. (first_broken (each_added_rules terms.needs_names terms.passes (Some self.now.held.now) self.now.db.now self.now.name.now [] parts.now) ≡ None) × (news ≡ added (Some self.now.held.now) [] parts.now moment)) }
        ensures err { (refusal : Refusal) → IsErrOf result (Barred.Refused refusal) → first_broken (each_added_rules terms.needs_names terms.passes (Some self.now.held.now) self.now.db.now self.now.name.now [] parts.now) ≡ Some refusal }
    {
        let mut news = NewParts::new(alloc);
        for new in parts {
            self.add(alloc, new, terms, moment, &mut news)?;
        }
        Ok(news)
    }

    // Adds a partition, unless it is passed over or may not be added.
    fn add(
        &self,
        alloc: Global,
        new: &PartArg,
        terms: Terms,
        moment: u64,
        news: &mut NewParts,
    ) -> Result<(), Barred>
        ensures broken { OnOk result ((more : List PartArg) → first_broken (each_added_rules terms.needs_names terms.passes (Some self.now.held.now) self.now.db.now self.now.name.now (values_of news.new) more) ≡ first_broken (each_added_rules terms.needs_names terms.passes (Some self.now.held.now) self.now.db.now self.now.name.now (values_of news.old) (new.now ∷ more))) }
        ensures made { OnOk result ((more : List PartArg) → news.new ++ added (Some self.now.held.now) (values_of news.new) more moment ≡ news.old ++ added (Some self.now.held.now) (values_of news.old) (new.now ∷ more) moment) }
        ensures err { (refusal : Refusal) → IsErrOf result (Barred.Refused refusal) → (more : List PartArg) → first_broken (each_added_rules terms.needs_names terms.passes (Some self.now.held.now) self.now.db.now self.now.name.now (values_of news.old) (new.now ∷ more)) ≡ Some refusal }
    {
        let values = StoredValues::of(alloc, &new.values)?;
        if let Some(refusal) = self.bar(alloc, new, values.as_texts(), news, terms)? {
            return Err(Barred::Refused(refusal));
        }
        if self.is_taken(values.as_texts(), news) {
            return Ok(());
        }
        let values = values.into_texts(alloc)?;
        let rec = made_part(alloc, &new.rec, moment)?;
        news.push(alloc, values, rec)?;
        Ok(())
    }

    // Why a partition of a list may not be added behind these. Its values are handed in as they are
    // stored.
    fn bar(
        &self,
        alloc: Global,
        new: &PartArg,
        values: &Texts,
        news: &NewParts,
        terms: Terms,
    ) -> Result<Option<Refusal>, NoMemory>
        requires { values.now ≡ stored_values new.now.values }
        ensures { IfOk result (λ bar. bar ≡ first_broken (one_added_rules terms.needs_names terms.passes (Some self.now.held.now) self.now.db.now self.now.name.now (values_of news.now) new.now)) }
    {
        if self.is_elsewhere(alloc, new, terms.needs_names)? {
            return Ok(Some(Refusal::InvalidObject));
        }
        if !may_have(self.held, values) {
            return Ok(Some(Refusal::InvalidObject));
        }
        let taken = self.is_taken(values, news);
        if taken && !terms.passes {
            return Ok(Some(Refusal::AlreadyExists));
        }
        if !taken && self.is_full(news) {
            return Ok(Some(Refusal::InvalidObject));
        }
        Ok(None)
    }

    // Whether a partition is handed in for another database or table.
    fn is_elsewhere(&self, alloc: Global, new: &PartArg, needs: bool) -> Result<bool, NoMemory>
        ensures { IfOk result (λ is. is ≡ is_elsewhere needs self.now.db.now self.now.name.now new.now) }
    {
        Ok(
            names_other(alloc, needs, &new.db, self.db)?
                || names_other(alloc, needs, &new.table, self.name)?,
        )
    }

    // Whether a partition with these values is there, or among these.
    fn is_taken(&self, values: &Texts, news: &NewParts) -> bool
        ensures { result ≡ is_taken (Some self.now.held.now) (values_of news.now) values.now }
    {
        news.has(values) || self.held.parts.get(values).is_some()
    }

    // Whether the table has as many partitions as it may have, with these.
    fn is_full(&self, news: &NewParts) -> bool
        ensures { result ≡ is_full (Some self.now.held.now) (values_of news.now) }
    {
        let held = self.held.parts.len() as u64;
        (news.len() as u64).saturating_add(held) >= PARTITION_LIMIT
    }

    // Tells the change that adds partitions, where there are any, and what is told of them.
    fn added(&self, alloc: Global, news: NewParts, what: Told) -> Decided
        ensures { Decides (accepted (put_here self.now news) (added_as what self.now.db.now self.now.name.now news)) result }
    {
        let Ok(reply) = self.reply(alloc, &news, what) else {
            return Decided::NoMemory;
        };
        if news.len() == 0 {
            return Decided::Reply(reply);
        }
        match self.puts(alloc, EventKind::AddPartition, news) {
            Ok(change) => Decided::Change(change, reply),
            Err(NoMemory) => Decided::NoMemory,
        }
    }

    // What is told of partitions that are added.
    fn reply(&self, alloc: Global, news: &NewParts, what: Told) -> Result<Reply, NoMemory>
        ensures { IfOk result (λ reply. reply ≡ added_as what self.now.db.now self.now.name.now news.now) }
    {
        match what {
            Told::All => Ok(Reply::Parts(self.named(alloc, news)?)),
            Told::Count => Ok(Reply::Number(news.len() as i32)),
            Told::Nothing => Ok(Reply::Nothing),
        }
    }

    // Partitions with their names.
    fn named(&self, alloc: Global, news: &NewParts) -> Result<Parts, NoMemory>
        ensures { IfOk result (λ parts. parts ≡ all_named self.now.db.now self.now.name.now news.now) }
    {
        let mut parts = ListOf::new(alloc);
        for (values, rec) in news.as_slice() {
            push_part(alloc, &mut parts, self.db, self.name, values, rec)?;
        }
        Ok(parts)
    }
}

// Whether a name is handed in that isn't this one, which is in lower case; where it needs to be
// there, also whether none is.
fn names_other(
    alloc: Global,
    needs: bool,
    other: &Option<Text>,
    name: &Text,
) -> Result<bool, NoMemory>
    ensures { IfOk result (λ another. another ≡ names_other needs other.now name.now) }
{
    match other {
        Some(other) => {
            let other = LowerName::of(alloc, other)?;
            Ok(*other.as_text() != *name)
        }
        None => Ok(needs),
    }
}
