//! What writes the files of a dump.

ghost use Rattle.std.specs.Prelude.{◌≡◌, ◌≤◌, ◌<◌, ◌^◌, ◌∷◌, [], ◌++◌, ◌+◌, IfOk, IsErrOf, OnErr, OnOk, length};
ghost use Rattle.cat_values.specs.declared.list_of.TheConstants.{LIST_END};
ghost use Rattle.dump_manifest.specs.Manifests.{dir_text};
ghost use Rattle.dump_texts.specs.Texts.{line_of, name_at, path_in};
ghost use Rattle.hms_outside.specs.Causes.{Rose};
ghost use Rattle.hms_outside.specs.Told.{Goes};
ghost use Rattle.repl_dump.specs.Files.{HasPut, OthersStay, events_in, items_in, next_file, written_of};

use cat_types::{Bytes, ListOf, NoMemory, Text};
use dump_manifest::{Files, dir_name};
use dump_texts::{FileKind, file_line, file_name, path_in};
use hms_outside::{Folder, Outage};
use std::alloc::Global;

/// The directory of a dump, how many files of each kind were written there, and the line of each in
/// the manifest.
#[derive(Drop)]
pub struct Writer {
    pub dir: Text,
    pub items: u64,
    pub events: u64,
    /// The event up to which the dump goes.
    pub end: u64,
    pub files: Files,
}

// A file that isn't written yet: its name, its path, and how many of its kind there are with it.
#[derive(Drop)]
struct NextFile {
    name: Text,
    path: Text,
    count: u64,
}

impl Writer {
    /// Nothing is written yet. The dump goes up to `end`, unless its seal says otherwise.
    pub fn new(alloc: Global, source: &[u8; 16], dump: u64, end: u64) -> Result<Writer, NoMemory>
        ensures { IfOk result (λ writer. writer ≡ record { dir = dir_text source.now dump; items = 0; events = 0; end = end; files = [] }) }
    {
        Ok(Writer {
            dir: dir_name(alloc, source, dump)?,
            items: 0,
            events: 0,
            end,
            files: ListOf::new(alloc),
        })
    }

    /// Writes the next file of this kind, and its line. After a fault the file may be there without
    /// its line.
    pub fn put<F: Folder>(
        &mut self,
        alloc: Global,
        folder: &mut F,
        kind: FileKind,
        bytes: &Bytes,
    ) -> Result<(), Outage>
        ensures later { F.faults folder.old ≤ F.faults folder.new }
        ensures cause { IsErrOf result Outage.Failed → Rose (F.faults folder.old) (F.faults folder.new) }
        ensures put { OnOk result (HasPut kind bytes.now self.old self.new (F.files folder.old) (F.files folder.new)) }
        ensures stays { Goes (OthersStay self.old.dir) (F.files folder.old) (F.files folder.new) }
    {
        let Ok(next) = self.next(alloc, kind) else {
            return Err(Outage::NoMemory);
        };
        let NextFile { name, path, count } = next;
        folder.put(path.as_str(), bytes.as_slice())?;
        match self.add(kind, name, count, bytes.as_slice()) {
            Ok(()) => Ok(()),
            Err(NoMemory) => Err(Outage::NoMemory),
        }
    }

    // The next file of this kind.
    fn next(&self, alloc: Global, kind: FileKind) -> Result<NextFile, NoMemory>
        ensures name { IfOk result (λ next. next.name ≡ name_at kind (written_of kind self.now)) }
        ensures path { IfOk result (λ next. next.path ≡ path_in self.now.dir (name_at kind (written_of kind self.now))) }
        ensures count { IfOk result (λ next. next.count ≡ written_of kind self.now + 1) }
    {
        let place = self.written(kind);
        let Some(count) = place.checked_add(1) else {
            return Err(NoMemory);
        };
        let name = file_name(alloc, kind, place)?;
        let path = path_in(alloc, &self.dir, name.as_str())?;
        Ok(NextFile { name, path, count })
    }

    // How many files of this kind were written.
    fn written(&self, kind: FileKind) -> u64
        ensures { result ≡ written_of kind self.now }
    {
        match kind {
            FileKind::ItemFile => self.items,
            FileKind::EventFile => self.events,
        }
    }

    // Adds the line of a file, with which there are so many of its kind.
    fn add(&mut self, kind: FileKind, name: Text, count: u64, bytes: &[u8]) -> Result<(), NoMemory>
        requires { count ≡ written_of kind self.old + 1 }
        ensures dir { OnOk result (self.new.dir ≡ self.old.dir) }
        ensures end { OnOk result (self.new.end ≡ self.old.end) }
        ensures lines { OnOk result (self.new.files ≡ self.old.files ++ line_of (name, bytes.now) ∷ []) }
        ensures items { OnOk result (self.new.items ≡ self.old.items + items_in kind) }
        ensures events { OnOk result (self.new.events ≡ self.old.events + events_in kind) }
    {
        self.files.push(file_line(name, bytes))?;
        match kind {
            FileKind::ItemFile => self.items = count,
            FileKind::EventFile => self.events = count,
        }
        Ok(())
    }
}

/// Counts of files fit their type, which the proof that no name comes twice rests on.
pub fn counts_fit(items: u64, events: u64)
    ensures items { items < 2 ^ 64 }
    ensures events { events < 2 ^ 64 }
{}

/// A manifest has fewer lines than a list may have, which the proof that a walk ends rests on.
pub fn lines_fit(files: &Files)
    ensures { length files.now ≤ LIST_END }
{
    let _lines = files.as_slice();
}
