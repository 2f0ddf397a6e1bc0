//! Texts with characters that a line can't have.

use crate::unable::Unable;
use std::alloc::{AllocError, Global};
use std::fmt::Write;

/// The text of a word in which `\HEX;` stands for the character with this number, and `\HEX*COUNT;`
/// for so many of them.
pub fn letters_of(alloc: Global, word: &str) -> Result<String, Unable> {
    let mut text = String::new(alloc);
    let mut parts = word.split('\\');
    text.push_str(parts.next().unwrap_or(""))?;
    for part in parts {
        let (told, rest) = part.split_once(';').ok_or(Unable::Form)?;
        add_letters(told, &mut text)?;
        text.push_str(rest)?;
    }
    Ok(text)
}

// Adds the character with a number, so many times as is told.
fn add_letters(told: &str, text: &mut String) -> Result<(), Unable> {
    let (number, times) = match told.split_once('*') {
        Some((number, times)) => (number, times.parse::<u32>().or(Err(Unable::Form))?),
        None => (told, 1),
    };
    let number = u32::from_str_radix(number, 16).or(Err(Unable::Form))?;
    let letter = char::from_u32(number).ok_or(Unable::Form)?;
    for _ in 0..times {
        text.push(letter)?;
    }
    Ok(())
}

/// Adds a text to a line as one word that `letters_of` reads back: ASCII letters, digits and marks but
/// `\` stand for themselves, and the empty text is `\0*0;`.
pub fn push_word(line: &mut String, text: &str) -> Result<(), AllocError> {
    if text.is_empty() {
        line.push_str("\\0*0;")?;
    }
    for letter in text.chars() {
        if letter.is_ascii_graphic() && letter != '\\' {
            line.push(letter)?;
        } else {
            let number = letter as u32;
            write!(line, "\\{number:x};")?;
        }
    }
    Ok(())
}
