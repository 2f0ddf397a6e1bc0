//! Turns of an engine.

use cat_types::Answer;
use desk::CallerStep;

/// Who asked for which step, and what was answered.
#[derive(Drop)]
pub struct Turned {
    pub asked: CallerStep,
    pub answer: Answer,
}
