//! The rules of column statistics: which values a column takes, and how they are kept.
#![tactic(auto)]

mod checking;
mod keeping;

pub use checking::{StatFault, check, check_found};
pub use keeping::{put, remove};
