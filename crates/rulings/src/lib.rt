//! What the rules of calls share: refusals, how a decision is told, what bars a change, and which
//! table and partition a call means.
#![tactic(auto)]

mod barred;
mod bars;
mod decided;
mod finding;
mod listed;
mod meant;
mod part_values;
mod refusal;
mod telling;

pub use barred::Barred;
pub use bars::{Bars, ReplicaAt, ReplicaAts, position_of};
pub use decided::Decided;
pub use finding::find_table;
pub use listed::{has_reached, push_part};
pub use meant::{Meant, StoredValues, named_values};
pub use part_values::may_have;
pub use refusal::Refusal;
pub use telling::{changed, flagged, one_op, refused, told_names, told_parts};
