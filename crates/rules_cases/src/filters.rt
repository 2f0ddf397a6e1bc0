//! Partition filters.

use crate::words::{columns_of, parts_of, text_of, texts_of, word};
use cat_values::Columns;
use filter_expr::{
    Expr, FilterFault, holds, no_filter_goes_on, parse, read_texts_not_refused, texts_read_one_way,
    texts_refused_one_way,
};
use std::alloc::Global;
use std::fs;
use std::rt::Files;
use table_cases::{Answers, Unable, run_table};

/// Runs the tables of filters.
pub fn run_filters(rt: &(impl Files + Print + AllocGlobal)) -> Result<(), Unable> {
    call_laws();
    let filters = Filters {
        keys: keys_in(rt, "filter_keys")?,
    };
    run_table(rt, "filters_and_their_refusals", &filters)?;
    run_table(rt, "filter_texts", &filters)?;
    run_table(rt, "sixty_four_parentheses_and_no_more", &filters)?;
    let filters = Filters {
        keys: keys_in(rt, "filter_keys_of_all_types")?,
    };
    run_table(rt, "filter_refusals", &filters)
}

// The laws of filters are functions that only have a contract.
fn call_laws() {
    texts_read_one_way();
    texts_refused_one_way();
    read_texts_not_refused();
    no_filter_goes_on();
}

// The partition keys in a file.
fn keys_in(rt: &(impl Files + AllocGlobal), file: &str) -> Result<Columns, Unable> {
    columns_of(rt.alloc(), fs::read_to_string(rt, file)?.as_str().trim())
}

/// `FILTER -- ROWS`: a `y` for each row that the filter holds for and an `n` for each other, or why
/// the filter was refused. A row has the values of the keys with commas between them.
#[derive(Drop)]
struct Filters {
    keys: Columns,
}

impl Answers for Filters {
    fn answer(&self, alloc: Global, input: &str) -> Result<String, Unable> {
        let (filter, rows) = parts_of(input);
        match parse(alloc, &text_of(alloc, filter)?, &self.keys) {
            Ok(expr) => marks_of(alloc, &expr, rows),
            Err(fault) => refusal(alloc, &fault),
        }
    }
}

fn marks_of(alloc: Global, expr: &Expr, rows: &str) -> Result<String, Unable> {
    let mut marks = String::new(alloc);
    for row in rows.split(' ') {
        let values = texts_of(alloc, row, ',')?;
        marks.push(if holds(expr, &values) { 'y' } else { 'n' })?;
    }
    Ok(marks)
}

fn refusal(alloc: Global, fault: &FilterFault) -> Result<String, Unable> {
    match fault {
        FilterFault::Syntax(place) => Ok(format!(in alloc; "syntax {place}")?),
        FilterFault::TooDeep => word(alloc, "too deep"),
        FilterFault::UnknownKey(key) => Ok(format!(in alloc; "unknown {}", key.as_str())?),
        FilterFault::WrongType(key) => Ok(format!(in alloc; "wrong {}", key.as_str())?),
        FilterFault::NoMemory => Err(Unable::NoMemory),
    }
}
