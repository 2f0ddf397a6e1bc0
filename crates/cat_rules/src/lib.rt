//! The rules of names: what a database, a table or a column may be called, which columns a table
//! may have, and which names a pattern asks for.
#![tactic(auto)]

mod columns;
mod patterns;

pub use cat_values::{KEYS_LIMIT, NAME_LIMIT, object_name};
pub use columns::columns_rule;
pub use patterns::matches;
