//! The files of a dump: what its answers make of them, and the functions that make their pieces.
#![tactic(auto)]

mod kinds;
mod pieces;

pub use kinds::FileKind;
pub use pieces::{event_file, file_line, file_name, item_file, one_item_file, path_in};
