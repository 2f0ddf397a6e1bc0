//! Entries of a history.

use cat_types::{Answer, Step};

/// Who asked, and for which step. With what was told it is one entry of a history.
#[derive(Drop)]
pub struct CallerStep {
    pub caller: u32,
    pub step: Step,
}

/// What was answered, and the store's fault number afterwards.
#[derive(Drop)]
pub struct Outcome {
    pub answer: Answer,
    pub fault: u64,
}
