//! The names of partitions: `key=value` for each key of the table, joined by `/`.
//!
//! The characters that are escaped in values, as `%` and two hexadecimal digits, and the value that
//! stands for an empty one are those of Apache Hive (`FileUtils.makePartName`). Which names can't be
//! read, that a component is cut at its first `=`, and that keys are lower-cased are this project's
//! own rules.
#![tactic(auto)]

mod escapes;
mod fault;
mod laws;
mod making;
mod reading;
mod values;

pub use cat_values::{KEYS_LIMIT, NAME_LIMIT};
pub use fault::NameFault;
pub use laws::{names_differ, names_read_back};
pub use making::{join_name, make_name};
pub use reading::{keys_of, spec_of, vals_of};
pub use values::{stored_text, valid_value};

/// The value that stands for an empty one.
pub const DEFAULT_VALUE: &str = "__HIVE_DEFAULT_PARTITION__";

/// How many bytes a value has at most.
pub const VALUE_LIMIT: usize = 4_000;
