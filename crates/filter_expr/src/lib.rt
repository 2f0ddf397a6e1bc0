//! The filter language of partitions: comparisons of partition keys with literals, joined by `and`
//! and `or`. It is a profile of Apache Hive's partition filters (`Filter.g`).
//!
//! ```text
//! filter  = [ or ]
//! or      = and { "or" and }
//! and     = term { "and" term }
//! term    = "(" or ")" | compare
//! compare = key op literal | literal op key
//!         | ( key | "(" key ")" ) [ "not" ] "in" "(" literal { "," literal } ")"
//!         | key [ "not" ] "between" literal "and" literal
//! op      = "=" | "!=" | "<>" | "<" | ">" | "<=" | ">="
//! ```
#![tactic(auto)]

mod comparing;
mod expr;
mod fault;
mod integers;
mod keys;
mod laws;
mod lexer;
mod parsing;
mod token;
mod tree;
mod truth;
mod words;

pub use expr::{Expr, holds, parse};
pub use fault::FilterFault;
pub use laws::{
    no_filter_goes_on, read_texts_not_refused, texts_are_read_or_refused, texts_read_one_way,
    texts_refused_one_way,
};
