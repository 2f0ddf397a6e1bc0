//! Entries of a journal.

use cat_types::{Event, MarkedOps, ReplicaRow, Text};

/// What one entry of a journal keeps.
#[derive(Drop)]
pub enum Entry {
    /// A change with its number and moment.
    Event(Event),
    /// A dump was begun, which has this number.
    DumpBegun(u64),
    /// The kept events begin with this number.
    Trimmed(u64),
    /// A step of a load into the replica `target`: where `clear` is set all that it holds is taken
    /// off, and then the operations are put. `row` is what it is afterwards.
    LoadStep {
        target: Text,
        row: ReplicaRow,
        clear: bool,
        ops: MarkedOps,
    },
}
