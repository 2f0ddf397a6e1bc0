//! The calls that ask for partitions by a filter.

ghost use Rattle.std.specs.Prelude.{◌≡◌, None, Option, length, min, IfOk, pos};
ghost use Rattle.cat_values.specs.Names.{lower};
ghost use Rattle.filter_expr.specs.Reading.{IsTreeOf};
ghost use Rattle.filter_expr.specs.Trees.{Any};
ghost use Rattle.filter_expr.specs.declared.expr.Comparison.{Comparison};
ghost use Rattle.filter_rules.specs.Filters.{by_filter_rules, counted, fitting, parts_counted, parts_fitting};
ghost use Rattle.rulings.specs.Decisions.{Decides, decided_by};
ghost use Rattle.rulings.specs.Listed.{all_named, first_of};
ghost use Rattle.rulings.specs.Rules.{first_broken};

use crate::reading::read_filter;
use cat_objects::{Cat, HeldParts};
use cat_types::{ListOf, LowerName, NoMemory, Parts, Reply, Text};
use filter_expr::{Expr, holds};
use rulings::{Barred, Decided, Refusal, find_table, has_reached, push_part, refused, told_parts};
use std::alloc::Global;

/// Decides `get_partitions_by_filter`: the first `max` partitions of a table that fit a filter, in
/// the order of their values, each copied only if it is told. A negative `max` wants all. The
/// filter is read once, against the table's keys, and tried on each partition without taking
/// memory; behind the last partition that is told none is tried.
pub fn get_partitions_by_filter(
    alloc: Global,
    cat: &Cat,
    db: &Text,
    name: &Text,
    filter: &Text,
    max: i16,
) -> Decided
    ensures { Decides (decided_by (first_broken (by_filter_rules cat.now (lower db.now) (lower name.now) filter.now)) None (parts_fitting cat.now (lower db.now) (lower name.now) filter.now max)) result }
{
    let Ok(db) = LowerName::of(alloc, db) else {
        return Decided::NoMemory;
    };
    let Ok(name) = LowerName::of(alloc, name) else {
        return Decided::NoMemory;
    };
    let Some(held) = cat.held_table(db.as_text(), name.as_text()) else {
        return refused(alloc, Refusal::NoSuchObject);
    };
    match read_filter(alloc, filter, &held.rec.keys) {
        Ok(expr) => told_parts(list_fitting(
            alloc,
            &held.parts,
            db.as_text(),
            name.as_text(),
            &expr,
            max,
        )),
        Err(Barred::Refused(refusal)) => refused(alloc, refusal),
        Err(Barred::NoMemory) => Decided::NoMemory,
    }
}

/// Decides `get_num_partitions_by_filter`: how many partitions of a table fit a filter, cut to
/// 2,147,483,647. No partition is copied.
pub fn get_num_partitions_by_filter(
    alloc: Global,
    cat: &Cat,
    db: &Text,
    name: &Text,
    filter: &Text,
) -> Decided
    ensures { Decides (decided_by (first_broken (by_filter_rules cat.now (lower db.now) (lower name.now) filter.now)) None (parts_counted cat.now (lower db.now) (lower name.now) filter.now)) result }
{
    let Ok(found) = find_table(alloc, cat, db, name) else {
        return Decided::NoMemory;
    };
    let Some(held) = found else {
        return refused(alloc, Refusal::NoSuchObject);
    };
    match read_filter(alloc, filter, &held.rec.keys) {
        Ok(expr) => Decided::Reply(Reply::Number(count_fitting(&held.parts, &expr))),
        Err(Barred::Refused(refusal)) => refused(alloc, refusal),
        Err(Barred::NoMemory) => Decided::NoMemory,
    }
}

// The first `max` partitions that fit a filter, with their names.
fn list_fitting(
    alloc: Global,
    parts: &HeldParts,
    db: &Text,
    name: &Text,
    expr: &Expr,
    max: i16,
) -> Result<Parts, NoMemory>
    ensures { (tree : Option (Any Comparison)) → IsTreeOf tree expr.now → IfOk result (λ told. told ≡ all_named db.now name.now (first_of max (fitting tree parts.now))) }
{
    let mut told = ListOf::new(alloc);
    for (values, rec) in parts.iter() {
        if has_reached(max, told.len()) {
            return Ok(told);
        }
        if holds(expr, values) {
            push_part(alloc, &mut told, db, name, values, rec)?;
        }
    }
    Ok(told)
}

// How many partitions fit a filter.
fn count_fitting(parts: &HeldParts, expr: &Expr) -> i32
    ensures { (tree : Option (Any Comparison)) → IsTreeOf tree expr.now → result ≡ counted (fitting tree parts.now) }
{
    let mut count: u64 = 0;
    for (values, _) in parts.iter() {
        if holds(expr, values) {
            count = count.saturating_add(1);
        }
    }
    told_count(count)
}

// A count as it is told.
fn told_count(count: u64) -> i32
    ensures { result ≡ pos (min count 2147483647) }
{
    count.min(2_147_483_647) as i32
}
