//! A folder over memory.

ghost use Rattle.std.specs.Prelude.{◌≡◌, ◌||◌, [], Some, IfOk, OnErr, OnOk};
ghost use Rattle.std.specs.BTreeMap.{insert_entry};
ghost use Rattle.std.specs.Cmp.Lexicographic.{slice_cmp};
ghost use Rattle.std.specs.Ordering.{nat_cmp};
ghost use Rattle.hms_outside.specs.Causes.{HasCause};
ghost use Rattle.hms_outside.specs.Folders.{Gets, Puts, file};
ghost use Rattle.hms_outside.specs.Memory.{Planned, cannot_name, is_due};

use crate::failures::Failures;
use crate::{Folder, Outage};
use cat_values::{Bytes, MapOf, NoMemory, TEXT_LIMIT, Text, TryCopy};
use std::alloc::Global;
use std::marker::Model;

/// Files by name. A name with more than `TEXT_LIMIT` bytes names no file: its calls fail.
#[derive(Drop)]
pub struct MemFolder {
    files: MapOf<Text, Bytes>,
    failures: Failures,
    alloc: Global,
}

impl Model for MemFolder {
    ghost use Rattle.hms_outside.specs.Memory.{Shelf};

    ghost Value = { Shelf };

    ghost view = { λ f. record { files = f.files; plan = f.failures } };
}

impl MemFolder {
    /// An empty folder, whose calls with these numbers, from 0, fail.
    pub fn new(alloc: Global, fails: Vec<u64>) -> MemFolder
        ensures { result ≡ record { files = []; plan = record { listed = fails.items; calls = 0; faults = 0 } } }
    {
        MemFolder {
            files: MapOf::new(alloc),
            failures: Failures::new(fails),
            alloc,
        }
    }
}

impl Folder for MemFolder {
    ghost files = { λ f. Some f.files };

    ghost faults = { λ f. f.plan.faults };

    fn put(&mut self, name: &str, bytes: &[u8]) -> Result<(), Outage>
        ensures files { Puts (Some self.old.files) (Some self.new.files) name.now bytes.now result }
        ensures cause { HasCause self.old.plan.faults self.new.plan.faults result }
        ensures planned { Planned (is_due self.old.plan || cannot_name name.now) self.old.plan self.new.plan result }
    {
        if self.failures.is_due() || name.len() > TEXT_LIMIT {
            self.failures.fail();
            return Err(Outage::Failed);
        }
        match put_file(self.alloc, &mut self.files, name, bytes) {
            Ok(()) => {
                self.failures.pass();
                Ok(())
            }
            Err(NoMemory) => Err(Outage::NoMemory),
        }
    }

    fn get(&mut self, name: &str) -> Result<Option<Bytes>, Outage>
        ensures files { Gets (Some self.old.files) (Some self.new.files) name.now result }
        ensures cause { HasCause self.old.plan.faults self.new.plan.faults result }
        ensures planned { Planned (is_due self.old.plan || cannot_name name.now) self.old.plan self.new.plan result }
    {
        if self.failures.is_due() || name.len() > TEXT_LIMIT {
            self.failures.fail();
            return Err(Outage::Failed);
        }
        match get_file(self.alloc, &self.files, name) {
            Ok(found) => {
                self.failures.pass();
                Ok(found)
            }
            Err(NoMemory) => Err(Outage::NoMemory),
        }
    }
}

// Puts a file, over the one that was there.
fn put_file(
    alloc: Global,
    files: &mut MapOf<Text, Bytes>,
    name: &str,
    bytes: &[u8],
) -> Result<(), NoMemory>
    ensures ok { OnOk result (files.new ≡ insert_entry (slice_cmp nat_cmp) files.old name.now bytes.now) }
    ensures err { OnErr result (files.new ≡ files.old) }
{
    let name = named(alloc, name)?;
    let bytes = Bytes::from_slice(alloc, bytes)?;
    files.put(name, bytes)
}

// A copy of the file with this name.
fn get_file(
    alloc: Global,
    files: &MapOf<Text, Bytes>,
    name: &str,
) -> Result<Option<Bytes>, NoMemory>
    ensures { IfOk result (λ found. found ≡ file files.now name.now) }
{
    let name = named(alloc, name)?;
    match files.get(&name) {
        None => Ok(None),
        Some(bytes) => Ok(Some(bytes.copy(alloc)?)),
    }
}

// A file's name. One that is no text is never found, so it counts as want of memory here.
fn named(alloc: Global, name: &str) -> Result<Text, NoMemory>
    ensures { IfOk result (λ text. text ≡ name.now) }
{
    match Text::of(alloc, name) {
        Ok(text) => Ok(text),
        Err(_) => Err(NoMemory),
    }
}
