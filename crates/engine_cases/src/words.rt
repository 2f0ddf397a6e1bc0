//! Words of the tables.

use cat_types::{Text, Texts};
use std::alloc::Global;
use table_cases::Unable;

/// An input's first word, and what stands after it.
pub fn words_of(input: &str) -> (&str, &str) {
    input.split_once(' ').unwrap_or((input, ""))
}

pub fn number_of(word: &str) -> Result<u64, Unable> {
    word.parse::<u64>().or(Err(Unable::Form))
}

pub fn signed_of(word: &str) -> Result<i64, Unable> {
    word.parse::<i64>().or(Err(Unable::Form))
}

/// A number, where `-` stands for none.
pub fn maybe_signed(word: &str) -> Result<Option<i64>, Unable> {
    if word == "-" {
        return Ok(None);
    }
    Ok(Some(signed_of(word)?))
}

/// A number that isn't negative, where `-` stands for none.
pub fn maybe_number(word: &str) -> Result<Option<u64>, Unable> {
    if word == "-" {
        return Ok(None);
    }
    Ok(Some(number_of(word)?))
}

/// The numbers between commas, where `-` stands for none.
pub fn numbers_of(alloc: Global, words: &str) -> Result<Vec<u64>, Unable> {
    let mut numbers = Vec::new(alloc);
    if words == "-" {
        return Ok(numbers);
    }
    for word in words.split(',') {
        numbers.push(number_of(word)?)?;
    }
    Ok(numbers)
}

/// The text of a word, where `-` stands for none.
pub fn maybe_text(alloc: Global, word: &str) -> Result<Option<Text>, Unable> {
    if word == "-" {
        return Ok(None);
    }
    Ok(Some(Text::of(alloc, word)?))
}

/// The texts between commas, where `-` stands for no list.
pub fn maybe_texts(alloc: Global, words: &str) -> Result<Option<Texts>, Unable> {
    if words == "-" {
        return Ok(None);
    }
    Ok(Some(texts_of(alloc, words)?))
}

/// The texts between commas.
pub fn texts_of(alloc: Global, words: &str) -> Result<Texts, Unable> {
    let mut texts = Texts::new(alloc);
    for word in words.split(',') {
        texts.push(Text::of(alloc, word)?)?;
    }
    Ok(texts)
}
