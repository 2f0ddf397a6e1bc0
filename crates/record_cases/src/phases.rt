//! Phases of replicas in words.

use crate::outcome::words_of;
use crate::worded::Worded;
use cat_types::Phase;
use std::alloc::Global;
use table_cases::Unable;

impl Worded for Phase {
    fn of(_alloc: Global, words: &str) -> Result<Phase, Unable> {
        let (phase, numbers) = words_of(words);
        let (first, second) = words_of(numbers);
        let first = number_of(first)?;
        match phase {
            "items" => Ok(Phase::Items(first, number_of(second)?)),
            "events" => Ok(Phase::Events(first, number_of(second)?)),
            "live" => Ok(Phase::Live(first)),
            _ => Err(Unable::Form),
        }
    }
}

/// The number of a word.
pub fn number_of(word: &str) -> Result<u64, Unable> {
    word.parse().or(Err(Unable::Form))
}
