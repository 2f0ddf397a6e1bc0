//! Records that are read, copied and written.

use cat_types::{Bytes, CopyParts, Event, Events, Items, NoMemory, TryCopy};
use change_codec::{
    CodecFault, Entry, get_entry, get_event, get_events, get_items, put_entry, put_event,
    put_events, put_items,
};
use std::alloc::Global;

/// A record that bytes spell.
pub trait Record: Drop {
    /// The record that all of the bytes spell.
    fn read(alloc: Global, bytes: &[u8]) -> Result<Self, CodecFault>;

    /// An equal record.
    fn copied(&self, alloc: Global) -> Result<Self, NoMemory>;

    /// Adds the bytes of the record.
    fn write(&self, out: &mut Bytes) -> Result<(), NoMemory>;
}

/// The bytes of a copy of the record that these bytes spell.
pub fn again<R: Record>(alloc: Global, bytes: &[u8]) -> Result<Bytes, CodecFault> {
    let copy = copy_read::<R>(alloc, bytes)?;
    let mut out = Bytes::new(alloc);
    match copy.write(&mut out) {
        Ok(()) => Ok(out),
        Err(NoMemory) => Err(CodecFault::NoMemory),
    }
}

// A copy of the record that these bytes spell, after that record itself was dropped.
fn copy_read<R: Record>(alloc: Global, bytes: &[u8]) -> Result<R, CodecFault> {
    let record = R::read(alloc, bytes)?;
    match record.copied(alloc) {
        Ok(copy) => Ok(copy),
        Err(NoMemory) => Err(CodecFault::NoMemory),
    }
}

impl Record for Event {
    fn read(alloc: Global, bytes: &[u8]) -> Result<Event, CodecFault> {
        get_event(alloc, bytes)
    }

    fn copied(&self, alloc: Global) -> Result<Event, NoMemory> {
        self.copy(alloc)
    }

    fn write(&self, out: &mut Bytes) -> Result<(), NoMemory> {
        put_event(self, out)
    }
}

impl Record for Events {
    fn read(alloc: Global, bytes: &[u8]) -> Result<Events, CodecFault> {
        get_events(alloc, bytes)
    }

    fn copied(&self, alloc: Global) -> Result<Events, NoMemory> {
        self.copy(alloc)
    }

    fn write(&self, out: &mut Bytes) -> Result<(), NoMemory> {
        put_events(self, out)
    }
}

impl Record for Items {
    fn read(alloc: Global, bytes: &[u8]) -> Result<Items, CodecFault> {
        get_items(alloc, bytes)
    }

    fn copied(&self, alloc: Global) -> Result<Items, NoMemory> {
        self.copy(alloc)
    }

    fn write(&self, out: &mut Bytes) -> Result<(), NoMemory> {
        put_items(self, out)
    }
}

impl Record for Entry {
    fn read(alloc: Global, bytes: &[u8]) -> Result<Entry, CodecFault> {
        get_entry(alloc, bytes)
    }

    fn copied(&self, alloc: Global) -> Result<Entry, NoMemory> {
        match self {
            Entry::Event(event) => match event.copy(alloc) {
                Ok(event) => Ok(Entry::Event(event)),
                Err(NoMemory) => Err(NoMemory),
            },
            Entry::DumpBegun(dump) => Ok(Entry::DumpBegun(*dump)),
            Entry::Trimmed(first) => Ok(Entry::Trimmed(*first)),
            Entry::LoadStep {
                target,
                row,
                clear,
                ops,
            } => match (target, row, ops).copy_parts(alloc) {
                Ok((target, row, ops)) => Ok(Entry::LoadStep {
                    target,
                    row,
                    clear: *clear,
                    ops,
                }),
                Err(NoMemory) => Err(NoMemory),
            },
        }
    }

    fn write(&self, out: &mut Bytes) -> Result<(), NoMemory> {
        put_entry(self, out)
    }
}
