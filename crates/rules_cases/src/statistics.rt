//! Statistics of columns.

use crate::words::{columns_of, parts_of, push_space, push_text, text_of, word, yes_or_no};
use cat_values::{Columns, StatRec, StatValue, Stats};
use col_stats::{StatFault, check, put, remove};
use std::alloc::Global;
use std::fmt::Write;
use std::fs;
use std::rt::Files;
use table_cases::{Answers, Unable, run_table};

// The double 3.141592653589793.
const AVERAGE: [u8; 8] = [0x40, 0x09, 0x21, 0xfb, 0x54, 0x44, 0x2d, 0x18];

/// Runs the tables of statistics.
pub fn run_statistics(rt: &(impl Files + Print + AllocGlobal)) -> Result<(), Unable> {
    let told = fs::read_to_string(rt, "statistics_table")?;
    let (cols, keys) = parts_of(told.as_str());
    let cols = columns_of(rt.alloc(), cols)?;
    let keys = columns_of(rt.alloc(), keys)?;
    run_table(rt, "statistics_of_columns", &Table { cols, keys })?;
    run_table(rt, "column_types", &Types)?;
    run_table(rt, "records_by_column", &Records)
}

/// `COLUMN VALUE`: the first rule that the value breaks at a table's column, or `ok`.
#[derive(Drop)]
struct Table {
    cols: Columns,
    keys: Columns,
}

impl Answers for Table {
    fn answer(&self, alloc: Global, input: &str) -> Result<String, Unable> {
        let (col, told) = input.split_once(' ').ok_or(Unable::Form)?;
        let col = text_of(alloc, col)?;
        let value = value_of(alloc, told)?;
        word(alloc, word_for(check(&self.cols, &self.keys, &col, &value)))
    }
}

/// A type: what is said of flags, whole numbers and texts at a column of this type.
struct Types;

impl Answers for Types {
    fn answer(&self, alloc: Global, input: &str) -> Result<String, Unable> {
        let told = format!(in alloc; "c:{input}")?;
        let cols = columns_of(alloc, told.as_str())?;
        let keys = Columns::new(alloc);
        let col = text_of(alloc, "c")?;
        let mut line = String::new(alloc);
        for told in ["flags 3 4 0", "long -5 -1 0 2", "text 10 0 2"] {
            let value = value_of(alloc, told)?;
            push_space(&mut line)?;
            line.push_str(word_for(check(&cols, &keys, &col, &value)))?;
        }
        Ok(line)
    }
}

fn word_for(answer: Result<(), StatFault>) -> &'static str {
    match answer {
        Ok(()) => "ok",
        Err(StatFault::WrongKey) => "key",
        Err(StatFault::WrongColumn) => "column",
        Err(StatFault::WrongKind) => "kind",
        Err(StatFault::Negative) => "negative",
    }
}

// The value of `flags TRUES FALSES NULLS`, `long LOW HIGH NULLS DISTINCT` or
// `text LONGEST NULLS DISTINCT`.
fn value_of(alloc: Global, told: &str) -> Result<StatValue, Unable> {
    let (kind, rest) = told.split_once(' ').ok_or(Unable::Form)?;
    let mut numbers = Vec::new(alloc);
    for word in rest.split(' ') {
        numbers.push(number_of(word)?)?;
    }
    value_from(kind, numbers.as_slice()).ok_or(Unable::Form)
}

// The value of a kind with these numbers, if there is one.
fn value_from(kind: &str, numbers: &[i64]) -> Option<StatValue> {
    match (kind, numbers) {
        ("flags", &[trues, falses, nulls]) => Some(StatValue::Flags {
            trues,
            falses,
            nulls,
        }),
        ("long", &[low, high, nulls, distinct]) => Some(StatValue::Long {
            low: Some(low),
            high: Some(high),
            nulls,
            distinct,
        }),
        ("text", &[longest, nulls, distinct]) => Some(StatValue::Str {
            longest,
            average: AVERAGE,
            nulls,
            distinct,
        }),
        _ => None,
    }
}

fn number_of(word: &str) -> Result<i64, Unable> {
    match word.strip_prefix('-') {
        Some(digits) => Ok(-(count_of(digits)? as i64)),
        None => Ok(count_of(word)? as i64),
    }
}

fn count_of(digits: &str) -> Result<u32, Unable> {
    digits.parse::<u32>().or(Err(Unable::Form))
}

/// Steps from no records on: `COLUMN=MOMENT` puts a record of a moment, and `-COLUMN` removes one. What
/// is said of the removals, and behind that the records that are left.
struct Records;

impl Answers for Records {
    fn answer(&self, alloc: Global, input: &str) -> Result<String, Unable> {
        let mut stats = Stats::new(alloc);
        let mut line = String::new(alloc);
        for step in input.split(' ') {
            match step.split_once('=') {
                Some((col, moment)) => put_record(alloc, &mut stats, col, moment)?,
                None => {
                    let (_, col) = step.split_once('-').ok_or(Unable::Form)?;
                    let found = remove(&mut stats, &text_of(alloc, col)?);
                    push_text(&mut line, yes_or_no(found))?;
                }
            }
        }
        push_records(&mut line, &stats)?;
        Ok(line)
    }
}

fn put_record(alloc: Global, stats: &mut Stats, col: &str, moment: &str) -> Result<(), Unable> {
    let analyzed = number_of(moment)?;
    let value = StatValue::Flags {
        trues: 3,
        falses: 4,
        nulls: 0,
    };
    let col = text_of(alloc, col)?;
    Ok(put(stats, col, StatRec { analyzed, value })?)
}

// Adds each column that has a record, with its moment.
fn push_records(line: &mut String, stats: &Stats) -> Result<(), Unable> {
    for (col, rec) in stats.iter() {
        let moment = rec.analyzed;
        push_text(line, col.as_str())?;
        write!(line, "={moment}")?;
    }
    Ok(())
}
