//! Records in bytes: changes, events, items and the entries of a journal, each value with one
//! spelling.
#![tactic(auto)]

mod calls;
mod changes;
mod entry;
mod fault;
mod items;
mod laws;
mod reading;
mod records;
mod replicas;
mod statistics;
mod storage;
mod tags;
mod tuples;
mod version;
mod writing;

pub use calls::{
    get_entry, get_event, get_events, get_items, next_event, next_item, put_entry, put_event,
    put_events, put_item, put_items, read_count,
};
pub use entry::Entry;
pub use fault::CodecFault;
pub use laws::{
    each_has_one_spelling, each_is_cut_at_its_end, each_is_read_again, each_is_refused_in_place,
    each_is_spelled_as_read,
};
