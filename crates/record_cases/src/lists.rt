//! Lists of bytes.

use crate::outcome::{said, words_of};
use cat_values::{Bytes, NoMemory, TryCopy};
use std::alloc::Global;
use table_cases::{Unable, bytes_of, digits_of};

/// What a copy of a list holds that is made of these bytes in the way that the first word tells.
pub fn listed(alloc: Global, words: &str) -> Result<String, Unable> {
    let (way, digits) = words_of(words);
    let list = made(alloc, way, bytes_of(alloc, digits)?)?;
    shown(alloc, list.copy(alloc)?)
}

// The list of these bytes, made in a way.
fn made(alloc: Global, way: &str, bytes: Vec<u8>) -> Result<Bytes, Unable> {
    match way {
        "put" => Ok(put(alloc, &bytes)?),
        "from_slice" => Ok(Bytes::from_slice(alloc, &bytes)?),
        "from_vec" => Ok(Bytes::from_vec(bytes)?),
        _ => Err(Unable::Form),
    }
}

// The list of these bytes, the first put alone and the others together.
fn put(alloc: Global, bytes: &[u8]) -> Result<Bytes, NoMemory> {
    let mut list = Bytes::new(alloc);
    if let [first, others @ ..] = bytes {
        list.push(*first)?;
        list.extend_from_slice(others)?;
    }
    Ok(list)
}

// How many bytes a list has, the second of them, and all.
fn shown(alloc: Global, list: Bytes) -> Result<String, Unable> {
    if list.is_empty() {
        return said(alloc, "empty");
    }
    let count = list.len();
    let second = list.get(1).copied().unwrap_or(0);
    let digits = digits_of(alloc, &list.into_vec())?;
    Ok(format!(in alloc; "{count}, second {second}, {digits}")?)
}
