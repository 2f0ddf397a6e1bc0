//! Maps from texts to texts.

use crate::outcome::{said, words_of};
use crate::texts::joined;
use cat_values::{NoMemory, Params, Text, TryCopy};
use std::alloc::Global;
use table_cases::Unable;

/// What comes of a look at a map, or of a change: the first word tells what is done, and behind it
/// stand a key, or `-` where none is asked for, and the pairs that are put.
pub fn mapped(alloc: Global, words: &str) -> Result<String, Unable> {
    let (verb, words) = words_of(words);
    let (key, pairs) = words_of(words);
    let key = Text::of(alloc, key)?;
    let mut map = map_of(alloc, pairs)?;
    match verb {
        "pairs" => shown(alloc, &map.copy(alloc)?),
        "keys" => joined(alloc, &map.keys(alloc)?),
        "get" => said(alloc, text_or_none(map.get(&key))),
        "last_key" => said(alloc, text_or_none(map.last_key())),
        "remove" => removed(alloc, &mut map, &key),
        _ => Err(Unable::Form),
    }
}

// The map of words `KEY=VALUE`, put from left to right.
fn map_of(alloc: Global, pairs: &str) -> Result<Params, Unable> {
    let mut map = Params::new(alloc);
    for pair in pairs.split(' ') {
        let (key, value) = pair.split_once('=').ok_or(Unable::Form)?;
        put(alloc, &mut map, key, value)?;
    }
    Ok(map)
}

// Puts a pair.
fn put(alloc: Global, map: &mut Params, key: &str, value: &str) -> Result<(), Unable> {
    let key = Text::of(alloc, key)?;
    let value = Text::of(alloc, value)?;
    match map.put(key, value) {
        Ok(()) => Ok(()),
        Err(NoMemory) => Err(Unable::NoMemory),
    }
}

// A text, where there is one.
fn text_or_none<'a>(text: Option<&'a Text>) -> &'a str {
    match text {
        Some(text) => text.as_str(),
        None => "none",
    }
}

// How many pairs a map has, and the pairs.
fn shown(alloc: Global, map: &Params) -> Result<String, Unable> {
    let count = map.len();
    let mut words = format!(in alloc; "{count}:")?;
    for (key, value) in map.iter() {
        let key = key.as_str();
        let value = value.as_str();
        write!(words, " {key}={value}")?;
    }
    Ok(words)
}

// The value that is taken out at a key, and the map without it.
fn removed(alloc: Global, map: &mut Params, key: &Text) -> Result<String, Unable> {
    let value = map.remove(key);
    let value = text_or_none(value.as_ref());
    let rest = shown(alloc, map)?;
    Ok(format!(in alloc; "{value}, {rest}")?)
}
