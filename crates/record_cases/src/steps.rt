//! Calls, steps, phases, replies and answers that are copied.

use crate::outcome::words_of;
use crate::worded::copied;
use cat_types::{Answer, Call, Phase, Reply, Step};
use std::alloc::Global;
use table_cases::{Answers, Unable};

/// Copies the value that an input tells: its kind, and its words.
pub struct Steps;

impl Answers for Steps {
    fn answer(&self, alloc: Global, input: &str) -> Result<String, Unable> {
        let (kind, words) = words_of(input);
        match kind {
            "call" => copied::<Call>(alloc, words),
            "step" => copied::<Step>(alloc, words),
            "phase" => copied::<Phase>(alloc, words),
            "reply" => copied::<Reply>(alloc, words),
            "answer" => copied::<Answer>(alloc, words),
            _ => Err(Unable::Form),
        }
    }
}
