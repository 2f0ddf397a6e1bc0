//! What the inputs and outcomes of the tables are made of.

use cat_values::{Column, Columns, Text, Texts};
use std::alloc::{AllocError, Global};
use table_cases::{Unable, letters_of, push_word};

/// The text of a word.
pub fn text_of(alloc: Global, word: &str) -> Result<Text, Unable> {
    Ok(Text::of(alloc, letters_of(alloc, word)?.as_str())?)
}

/// The parts of an input before and behind `--`; the second is empty where there is no `--`.
pub fn parts_of(input: &str) -> (&str, &str) {
    let (front, back) = input.split_once("--").unwrap_or((input, ""));
    (front.trim(), back.trim())
}

/// The texts of the words between the marks of a text, of which none is empty: `\0*0;` stands for the
/// empty text.
pub fn texts_of(alloc: Global, words: &str, mark: char) -> Result<Texts, Unable> {
    let mut list = Texts::new(alloc);
    for word in words.split(mark) {
        if !word.is_empty() {
            list.push(text_of(alloc, word)?)?;
        }
    }
    Ok(list)
}

/// The columns of words `NAME` or `NAME:TYPE`, with spaces between them.
pub fn columns_of(alloc: Global, words: &str) -> Result<Columns, Unable> {
    let mut list = Columns::new(alloc);
    for word in words.split(' ') {
        if !word.is_empty() {
            list.push(column_of(alloc, word)?)?;
        }
    }
    Ok(list)
}

fn column_of(alloc: Global, word: &str) -> Result<Column, Unable> {
    let (name, ty) = word.split_once(':').unwrap_or((word, ""));
    let name = text_of(alloc, name)?;
    let ty = text_of(alloc, ty)?;
    Ok(Column {
        name,
        ty,
        comment: None,
    })
}

/// Adds a text to a line as one more word.
pub fn push_text(line: &mut String, text: &str) -> Result<(), AllocError> {
    push_space(line)?;
    push_word(line, text)
}

/// Adds a space to a line, unless it is empty.
pub fn push_space(line: &mut String) -> Result<(), AllocError> {
    if !line.is_empty() {
        line.push(' ')?;
    }
    Ok(())
}

/// An outcome of one word.
pub fn word(alloc: Global, said: &str) -> Result<String, Unable> {
    Ok(String::from_str(alloc, said)?)
}

/// The word for an answer that is yes or no.
pub fn yes_or_no(answer: bool) -> &'static str {
    if answer { "yes" } else { "no" }
}
