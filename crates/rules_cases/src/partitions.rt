//! Names and values of partitions.

use crate::words::{parts_of, push_text, text_of, texts_of, word, yes_or_no};
use cat_rules::object_name;
use cat_values::{Params, Text, Texts};
use part_names::{
    KEYS_LIMIT, NameFault, keys_of, make_name, names_differ, names_read_back, spec_of, valid_value,
    vals_of,
};
use std::alloc::Global;
use std::rt::Files;
use table_cases::{Answers, Unable, push_word, run_table};

/// Runs the tables of names and values.
pub fn run_partitions(rt: &(impl Files + Print + AllocGlobal)) -> Result<(), Unable> {
    names_read_back();
    names_differ();
    run_table(rt, "partition_names_escape_and_read_back", &Making)?;
    run_table(rt, "part_name_reading", &Reading)?;
    run_table(rt, "part_name_faults", &Reading)?;
    run_table(rt, "values", &Values)
}

/// `KEYS -- VALUES`: the name, and in brackets the values that it is read back into; or `unfit` where
/// no name may be made of them.
struct Making;

impl Answers for Making {
    fn answer(&self, alloc: Global, input: &str) -> Result<String, Unable> {
        let (keys, values) = parts_of(input);
        let keys = texts_of(alloc, keys, ' ')?;
        let values = texts_of(alloc, values, ' ')?;
        if keys.len() == values.len()
            && keys.len() <= KEYS_LIMIT
            && keys.as_slice().iter().all(|key| object_name(key))
            && values.as_slice().iter().all(|value| valid_value(value))
        {
            name_and_values(alloc, &make_name(alloc, &keys, &values)?)
        } else {
            word(alloc, "unfit")
        }
    }
}

// A name and the values that it is read into.
fn name_and_values(alloc: Global, name: &Text) -> Result<String, Unable> {
    let mut line = String::new(alloc);
    push_word(&mut line, name.as_str())?;
    let values = texts_said(alloc, vals_of(alloc, name))?;
    Ok(format!(in alloc; "{line} [{values}]")?)
}

/// A name: the keys, values and pairs `KEY:VALUE` that it is read into, each in brackets.
struct Reading;

impl Answers for Reading {
    fn answer(&self, alloc: Global, input: &str) -> Result<String, Unable> {
        let name = text_of(alloc, input)?;
        let keys = texts_said(alloc, keys_of(alloc, &name))?;
        let values = texts_said(alloc, vals_of(alloc, &name))?;
        let pairs = pairs_said(alloc, spec_of(alloc, &name))?;
        Ok(format!(in alloc; "[{keys}] [{values}] [{pairs}]")?)
    }
}

// The words of the texts that a name was read into, or why it wasn't read.
fn texts_said(alloc: Global, read: Result<Texts, NameFault>) -> Result<String, Unable> {
    match read {
        Ok(texts) => words_of(alloc, &texts),
        Err(fault) => refusal(alloc, fault),
    }
}

// The pairs that a name was read into, or why it wasn't read.
fn pairs_said(alloc: Global, read: Result<Params, NameFault>) -> Result<String, Unable> {
    match read {
        Ok(pairs) => pairs_of(alloc, &pairs),
        Err(fault) => refusal(alloc, fault),
    }
}

fn words_of(alloc: Global, texts: &Texts) -> Result<String, Unable> {
    let mut line = String::new(alloc);
    for text in texts.as_slice() {
        push_text(&mut line, text.as_str())?;
    }
    Ok(line)
}

fn pairs_of(alloc: Global, pairs: &Params) -> Result<String, Unable> {
    let mut line = String::new(alloc);
    for (key, value) in pairs.iter() {
        push_text(&mut line, key.as_str())?;
        line.push(':')?;
        push_word(&mut line, value.as_str())?;
    }
    Ok(line)
}

fn refusal(alloc: Global, fault: NameFault) -> Result<String, Unable> {
    match fault {
        NameFault::BadName(number) => Ok(format!(in alloc; "bad {number}")?),
        NameFault::NoMemory => Err(Unable::NoMemory),
    }
}

/// A value: whether a partition may have it.
struct Values;

impl Answers for Values {
    fn answer(&self, alloc: Global, input: &str) -> Result<String, Unable> {
        word(alloc, yes_or_no(valid_value(&text_of(alloc, input)?)))
    }
}
