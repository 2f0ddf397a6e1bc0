//! The catalogue: what each call is refused for, changes and results in. The rules of the calls
//! stand in the crates below, by what the calls are about; how a change is done stands in
//! `cat_objects`. This crate hands their types on.
#![tactic(auto)]

mod decision;
mod poll;

pub use cat_objects::{Cat, HeldDb, HeldParts, HeldTable, LAST_EVENT, Placed};
pub use decision::decide;
pub use part_rules::PARTITION_LIMIT;
pub use poll::{Poll, poll_of};
pub use rulings::{Bars, Decided, Refusal, ReplicaAt, ReplicaAts};
pub use table_rules::{DATABASE_LIMIT, TABLE_LIMIT};
