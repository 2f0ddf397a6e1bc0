//! What a server is given: words, listeners over memory, and a store.

use cat_values::{Bytes, NoMemory};
use engine::Engine;
use hms_listeners::MemListener;
use hms_outside::{MemClock, MemDisk, MemFolder, MemSink, MemSource};
use ms_cli::{LocalEnd, run_local};
use std::alloc::{AllocError, Global};
use table_cases::{Unable, bytes_of};

/// Messages in the strict form, by their digits: one that asks for the names of all databases ..
pub const LIST: &str = "80010001 00000011 6765745f616c6c5f646174616261736573 00000001 00";
/// .. one that makes the database `w` ..
pub const MAKE_W: &str =
    "80010001 0000000f 6372656174655f6461746162617365 00000001 0c0001 0b0001 00000001 77 00 00";
/// .. those that make its tables `t` and `zz`, without columns ..
pub const MAKE_T: &str =
    "80010001 0000000c 6372656174655f7461626c65 00000001 0c0001 0b0001 00000001 74 0b0002 00000001 77 0c0007 0f0001 0c 00000000 00 00 00";

pub const MAKE_ZZ: &str =
    "80010001 0000000c 6372656174655f7461626c65 00000001 0c0001 0b0001 00000002 7a7a 0b0002 00000001 77 0c0007 0f0001 0c 00000000 00 00 00";
/// .. and one that dumps the database.
pub const DUMP_W: &str = "80010001 00000009 7265706c5f64756d70 00000001 0b0001 00000001 77 00";

/// The words of a text, which spaces part.
pub fn words_of(alloc: Global, text: &str) -> Result<Vec<String>, AllocError> {
    let mut words = Vec::new(alloc);
    for word in text.split(' ') {
        words.push(String::from_str(alloc, word)?)?;
    }
    Ok(words)
}

// The bytes of these messages, one behind the other.
fn sent(alloc: Global, messages: &[&str]) -> Result<Bytes, Unable> {
    let mut bytes = Vec::new(alloc);
    for message in messages {
        bytes.extend_from_slice(bytes_of(alloc, message)?.as_slice())?;
    }
    Ok(Bytes::from_vec(bytes)?)
}

// A listener with one connection, which sends these messages.
fn asking(alloc: Global, messages: &[&str]) -> Result<MemListener, Unable> {
    let mut inputs = Vec::new(alloc);
    inputs.push(sent(alloc, messages)?)?;
    Ok(MemListener::new(alloc, inputs, Vec::new(alloc)))
}

/// A listener, a folder and a clock for each worker.
pub type Places = (Vec<MemListener>, Vec<MemFolder>, Vec<MemClock>);

/// What workers serve with, each of whose connections sends these messages.
pub fn places(alloc: Global, connections: &[&[&str]]) -> Result<Places, Unable> {
    let mut listeners = Vec::new(alloc);
    let mut folders = Vec::new(alloc);
    let mut clocks = Vec::new(alloc);
    for messages in connections {
        listeners.push(asking(alloc, messages)?)?;
        folders.push(MemFolder::new(alloc, Vec::new(alloc)))?;
        clocks.push(MemClock::new(Vec::new(alloc)))?;
    }
    Ok((listeners, folders, clocks))
}

/// The disks of a new store.
pub fn store(alloc: Global) -> Option<(MemDisk, MemDisk)> {
    let disk_a = MemDisk::new(alloc, Vec::new(alloc));
    let disk_b = MemDisk::new(alloc, Vec::new(alloc));
    let engine = Engine::create(alloc, disk_a, disk_b, [3; 16], 0).ok()?;
    Some(engine.into_disks())
}

/// The disks of a new store whose database `w` has the table `t`.
pub fn store_with_table(alloc: Global) -> Option<(MemDisk, MemDisk)> {
    let (disk_a, disk_b) = store(alloc)?;
    let words = words_of(alloc, "pipe").ok()?;
    let bytes = sent(alloc, &[MAKE_W, MAKE_T]).ok()?;
    let LocalEnd {
        status,
        disk_a,
        disk_b,
    } = run_local(
        alloc,
        &words,
        &mut MemSource::new(bytes, Vec::new(alloc)),
        &mut MemSink::new(alloc, Vec::new(alloc)),
        &mut MemSink::new(alloc, Vec::new(alloc)),
        disk_a,
        disk_b,
        &mut MemFolder::new(alloc, Vec::new(alloc)),
        &mut MemClock::new(Vec::new(alloc)),
    );
    if status != 0 {
        return None;
    }
    Some((disk_a, disk_b))
}
