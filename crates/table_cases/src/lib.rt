//! Tables of cases, which programs read from files: a line for each case, with its name, its input and
//! the outcome that is wanted.
//!
//! A line is `NAME: INPUT => OUTCOME`. Empty lines and lines that begin with `#` are passed over. A
//! program prints how many cases of a table came out as wanted, and of each other one what came.
#![tactic(auto)]

mod case;
mod digits;
mod letters;
mod table;
mod unable;

pub use case::{Case, case_of};
pub use digits::{bytes_of, digits_of};
pub use letters::{letters_of, push_word};
pub use table::{Answers, run_table};
pub use unable::Unable;
