//! Names of objects, columns that may stand in one table, and names that a pattern asks for.

use crate::words::{columns_of, parts_of, text_of, word, yes_or_no};
use cat_rules::{columns_rule, matches, object_name};
use std::alloc::Global;
use std::rt::Files;
use table_cases::{Answers, Unable, run_table};

/// Runs the tables of names and patterns.
pub fn run_names(rt: &(impl Files + Print + AllocGlobal)) -> Result<(), Unable> {
    run_table(rt, "object_names", &Names)?;
    run_table(rt, "columns_rule_refusals", &ColumnLists)?;
    run_table(rt, "patterns", &Patterns)
}

/// A name: whether an object may have it.
struct Names;

impl Answers for Names {
    fn answer(&self, alloc: Global, input: &str) -> Result<String, Unable> {
        let answer = object_name(&text_of(alloc, input)?);
        word(alloc, yes_or_no(answer))
    }
}

/// `COLUMNS -- KEYS`: whether a table may have them.
struct ColumnLists;

impl Answers for ColumnLists {
    fn answer(&self, alloc: Global, input: &str) -> Result<String, Unable> {
        let (cols, keys) = parts_of(input);
        let cols = columns_of(alloc, cols)?;
        let keys = columns_of(alloc, keys)?;
        let answer = columns_rule(alloc, &cols, &keys)?;
        word(alloc, yes_or_no(answer))
    }
}

/// `PATTERN NAME`: whether the pattern matches the name whole.
struct Patterns;

impl Answers for Patterns {
    fn answer(&self, alloc: Global, input: &str) -> Result<String, Unable> {
        let (pattern, name) = input.split_once(' ').unwrap_or((input, ""));
        let pattern = text_of(alloc, pattern)?;
        let name = text_of(alloc, name)?;
        let answer = matches(&pattern, &name);
        word(alloc, yes_or_no(answer))
    }
}
