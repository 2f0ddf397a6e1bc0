//! A filter, tried on lists of values in memory.

use crate::samples::texts_of;
use crate::stop::Stop;
use cat_values::{Column, Columns, Text, Texts};
use filter_expr::{Expr, holds, parse};
use std::alloc::Global;

const FILTER: &str = "ds = 'x' and n > 5";

/// How often the filter holds for so many lists of values, so many rounds over.
pub fn find(alloc: Global, lists: u32, rounds: u32) -> Result<u64, Stop> {
    let expr = expr(alloc)?;
    let lists = value_lists(alloc, lists)?;
    let mut found: u64 = 0;
    for _ in 0..rounds {
        found = found.saturating_add(found_in(&expr, &lists));
    }
    Ok(found)
}

// How many lists a filter holds for.
fn found_in(expr: &Expr, lists: &[Texts]) -> u64 {
    let mut found: u64 = 0;
    for values in lists {
        if holds(expr, values) {
            found = found.saturating_add(1);
        }
    }
    found
}

// The filter, read with the keys `ds string` and `n int`.
fn expr(alloc: Global) -> Result<Expr, Stop> {
    let mut keys = Columns::new(alloc);
    keys.push(column(alloc, "ds", "string")?)?;
    keys.push(column(alloc, "n", "int")?)?;
    Ok(parse(alloc, &Text::of(alloc, FILTER)?, &keys)?)
}

fn column(alloc: Global, name: &str, ty: &str) -> Result<Column, Stop> {
    let name = Text::of(alloc, name)?;
    let ty = Text::of(alloc, ty)?;
    Ok(Column {
        name,
        ty,
        comment: None,
    })
}

// So many lists of values: `x` and `y` in turn, and numbers from 0 to 999.
fn value_lists(alloc: Global, count: u32) -> Result<Vec<Texts>, Stop> {
    let mut lists = Vec::new(alloc);
    for number in 0..count {
        let day = if number % 2 == 0 { "x" } else { "y" };
        let values = format!(in alloc; "{day}|{}", number % 1000)?;
        lists.push(texts_of(alloc, values.as_str())?)?;
    }
    Ok(lists)
}
