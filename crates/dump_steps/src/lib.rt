//! The steps of a dump: for what one is refused, which dumps are open, and what each step is answered
//! from the catalogue and the log of events.
#![tactic(auto)]

mod beginning;
mod open_dumps;
mod pieces;
mod ranges;
mod taking;
mod trims;

pub use beginning::{begin, first_item, told_begun};
pub use open_dumps::{DumpKind, OpenDump, OpenDumps};
pub use pieces::{next_events, next_parts, next_table};
pub use ranges::{Asked, begin_refusal};
pub use taking::{Takes, dump_for};
pub use trims::trim_end;
