//! Samples that more than one piece of work needs, made of short parts.

use crate::stop::Stop;
use cat_values::{Text, Texts};
use std::alloc::Global;

/// Bytes, and how often they stand one behind the other.
pub type Part = (u32, &'static [u8]);

/// The bytes of parts, one behind the other.
pub fn bytes_of(alloc: Global, parts: &[Part]) -> Result<Vec<u8>, Stop> {
    let mut bytes = Vec::new(alloc);
    for (times, part) in parts {
        for _ in 0..*times {
            bytes.extend_from_slice(part)?;
        }
    }
    Ok(bytes)
}

/// The texts between the bars of a text.
pub fn texts_of(alloc: Global, joined: &str) -> Result<Texts, Stop> {
    let mut texts = Texts::new(alloc);
    for text in joined.split('|') {
        texts.push(Text::of(alloc, text)?)?;
    }
    Ok(texts)
}
