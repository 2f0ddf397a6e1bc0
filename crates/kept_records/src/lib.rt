//! What records are kept as that callers hand in: with names of columns in lower case, the moment of
//! the change among their parameters, and the statistics of the columns that stayed.
#![tactic(auto)]

mod dates;
mod keys;
mod lowering;
mod partitions;
mod statistics;
mod tables;

pub use keys::have_same_keys;
pub use lowering::lower_columns;
pub use partitions::{altered_part, appended_part, made_part};
pub use tables::{altered_table, made_table};
