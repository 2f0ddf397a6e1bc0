//! Texts, and how texts and lists of them are ordered.

use crate::outcome::{said, words_of};
use cat_values::{TEXT_LIMIT, Text, TextFault, Texts, TryCopy};
use std::alloc::Global;
use std::cmp::Ordering;
use std::str;
use table_cases::{Unable, bytes_of, digits_of};

/// How long the text is that is made of a `str` with these bytes.
pub fn from_str(alloc: Global, digits: &str) -> Result<String, Unable> {
    let bytes = bytes_of(alloc, digits)?;
    let words = str::from_utf8(&bytes).or(Err(Unable::Form))?;
    match Text::of(alloc, words) {
        Ok(text) => length_of(alloc, &text),
        Err(TextFault::TooLong) => said(alloc, "too long"),
        Err(TextFault::NoMemory) => Err(Unable::NoMemory),
    }
}

// How long a text is.
fn length_of(alloc: Global, text: &Text) -> Result<String, Unable> {
    if text.is_empty() {
        return said(alloc, "empty");
    }
    counted(alloc, text.len())
}

// A number of bytes.
fn counted(alloc: Global, count: usize) -> Result<String, Unable> {
    Ok(format!(in alloc; "{count} bytes")?)
}

/// The bytes of a copy of the text that is made of these bytes.
pub fn from_utf8(alloc: Global, digits: &str) -> Result<String, Unable> {
    let bytes = bytes_of(alloc, digits)?;
    if bytes.len() > TEXT_LIMIT {
        return said(alloc, "too long");
    }
    match Text::from_utf8(bytes) {
        Some(text) => Ok(digits_of(alloc, text.copy(alloc)?.as_str().as_bytes())?),
        None => said(alloc, "no text"),
    }
}

/// How two texts are ordered.
pub fn compared_texts(alloc: Global, words: &str) -> Result<String, Unable> {
    let (first, second) = words_of(words);
    let first = Text::of(alloc, first)?;
    let second = Text::of(alloc, second)?;
    said(alloc, compared(&first, &second))
}

/// How two lists of texts are ordered; commas part the texts of a list.
pub fn compared_lists(alloc: Global, words: &str) -> Result<String, Unable> {
    let (first, second) = words_of(words);
    let first = texts_of(alloc, first)?;
    let second = texts_of(alloc, second)?;
    said(alloc, compared(&first, &second))
}

/// The list of the texts between commas.
pub fn texts_of(alloc: Global, words: &str) -> Result<Texts, Unable> {
    let mut texts = Texts::new(alloc);
    for word in words.split(',') {
        texts.push(Text::of(alloc, word)?)?;
    }
    Ok(texts)
}

/// The texts of a list, with commas between them.
pub fn joined(alloc: Global, texts: &Texts) -> Result<String, Unable> {
    let mut words = String::new(alloc);
    let mut between = "";
    for text in texts.as_slice() {
        words.push_str(between)?;
        words.push_str(text.as_str())?;
        between = ",";
    }
    Ok(words)
}

// How two values are ordered, where all comparisons say the same.
fn compared<T: Ord>(first: &T, second: &T) -> &'static str {
    match (first.cmp(second), first < second, first == second) {
        (Ordering::Less, true, false) => "less",
        (Ordering::Equal, false, true) => "equal",
        (Ordering::Greater, false, false) => "greater",
        (_, _, _) => "no order",
    }
}
