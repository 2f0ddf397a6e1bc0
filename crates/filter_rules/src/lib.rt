//! The calls that ask for partitions by a filter: what they are refused for, and what they result
//! in.
#![tactic(auto)]

mod laws;
mod part_filters;
mod reading;

pub use laws::filters_are_read;
pub use part_filters::{get_num_partitions_by_filter, get_partitions_by_filter};
