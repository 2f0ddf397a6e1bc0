//! Texts, lists and maps.

use crate::lists::listed;
use crate::maps::mapped;
use crate::outcome::words_of;
use crate::texts::{compared_lists, compared_texts, from_str, from_utf8};
use std::alloc::Global;
use table_cases::{Answers, Unable};

/// Makes the values that an input tells, and looks at them.
pub struct Values;

impl Answers for Values {
    fn answer(&self, alloc: Global, input: &str) -> Result<String, Unable> {
        let (verb, rest) = words_of(input);
        match verb {
            "of" => from_str(alloc, rest),
            "from_utf8" => from_utf8(alloc, rest),
            "texts" => compared_texts(alloc, rest),
            "lists" => compared_lists(alloc, rest),
            "list" => listed(alloc, rest),
            "map" => mapped(alloc, rest),
            _ => Err(Unable::Form),
        }
    }
}
