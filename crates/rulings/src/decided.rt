//! What was decided of a call.

use cat_types::{Change, Reply};

/// What was decided of a call.
#[derive(Drop)]
pub enum Decided {
    /// The call is accepted, changes this and has this result.
    Change(Change, Reply),
    /// The call changes nothing, and this is its reply: its result, or its refusal.
    Reply(Reply),
    NoMemory,
}
