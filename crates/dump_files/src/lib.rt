//! The item and event files of a dump: each is read one element after the other, and each element
//! is judged as soon as it is read.
#![tactic(auto)]

mod bounds;
mod events;
mod fault;
mod items;
mod laws;
mod reading;
mod rows;

pub use bounds::Bounds;
pub use events::read_event_file;
pub use fault::FileFault;
pub use items::read_item_file;
pub use laws::{
    each_file_has_one_spelling, each_file_is_read_again, each_file_is_refused_in_place,
    each_file_is_spelled_as_read,
};
pub use rows::{event_files_are_in_order, item_files_are_in_order, item_files_are_of_one_kind};
