//! Dumps that are open.

ghost use Rattle.std.specs.Prelude.{◌≡◌, ◌<◌, ◌≤◌, ◌+◌, ◌&&◌, ◌==◌, [], ◌∷◌, ◌++◌, IfOk, OnOk};
ghost use Rattle.std.specs.Option.{option_copied};
ghost use Rattle.dump_steps.specs.Open.{dumping, is_bootstrap, is_dump, least_begin, open_dump, sealed_at, with_dump, with_sealed, without_dump};

use cat_types::{ListOf, NoMemory, Text, Texts, TryCopy};
use std::alloc::Global;
use std::marker::Model;

/// What a dump is of.
#[derive(Clone, Copy, Debug, PartialEq, Eq)]
pub enum DumpKind {
    /// A whole database. It takes objects until it is sealed, and events from then on.
    Bootstrap { sealed: bool },
    /// Events alone.
    Incremental,
}

/// A dump that was begun and not ended.
#[derive(Drop)]
pub struct OpenDump {
    /// Who began it.
    pub caller: u32,
    pub number: u64,
    /// The name of its database, in lower case.
    pub db: Text,
    /// The database's born when it was begun.
    pub born: u64,
    pub kind: DumpKind,
    /// Its events are those above this number ..
    pub begin: u64,
    /// .. and up to this one; before it is sealed, a dump of a whole database has its begin here.
    pub end: u64,
}

impl OpenDump {
    fn is_dump(&self, caller: u32, number: u64) -> bool
        ensures { result ≡ is_dump caller number self.now }
    {
        self.caller == caller && self.number == number
    }

    fn is_bootstrap(&self) -> bool
        ensures { result ≡ is_bootstrap self.now.kind }
    {
        match self.kind {
            DumpKind::Bootstrap { .. } => true,
            DumpKind::Incremental => false,
        }
    }

    fn seal_at(&mut self, end: u64)
        ensures { self.new ≡ sealed_at end self.old }
    {
        self.kind = DumpKind::Bootstrap { sealed: true };
        self.end = end;
    }
}

/// The dumps that are open, in the order in which they were begun.
#[derive(Drop)]
pub struct OpenDumps {
    dumps: Vec<OpenDump>,
}

impl Model for OpenDumps {
    ghost use Rattle.std.specs.Prelude.{◌-◌, vec_capacity, vec_len};
    ghost use Rattle.dump_steps.specs.Open.{Opened};

    ghost Value = { Opened };

    ghost view = { λ m. record { dumps = m.dumps.items; spare = vec_capacity m.dumps - vec_len m.dumps } };
}

impl OpenDumps {
    /// No open dumps. It takes no memory.
    pub fn new(alloc: Global) -> OpenDumps
        ensures { result.dumps ≡ [] }
    {
        OpenDumps {
            dumps: Vec::new(alloc),
        }
    }

    /// The open dump with this number, where this caller began it. It takes no memory.
    pub fn find(&self, caller: u32, number: u64) -> Option<&OpenDump>
        ensures { option_copied result ≡ open_dump caller number self.now.dumps }
    {
        self.dumps.iter().find(|dump| dump.is_dump(caller, number))
    }

    /// Takes the memory for one dump more, so that the next `open` has it.
    pub fn room(&mut self) -> Result<(), NoMemory>
        ensures dumps { self.new.dumps ≡ self.old.dumps }
        ensures room { OnOk result (0 < self.new.spare) }
        ensures spare { self.old.spare ≤ self.new.spare }
    {
        self.dumps.reserve(1)?;
        Ok(())
    }

    /// Opens a dump, in the memory that `room` took. Where its caller had one of its number, that one
    /// ends.
    pub fn open(&mut self, dump: OpenDump)
        requires { 0 < self.old.spare }
        ensures dumps { self.new.dumps ≡ with_dump dump self.old.dumps }
        ensures spare { self.old.spare ≤ self.new.spare + 1 }
    {
        self.end(dump.caller, dump.number);
        self.dumps.push_reserved(dump);
    }

    /// Takes the dump of this caller with this number off, where it is there. It takes no memory.
    pub fn end(&mut self, caller: u32, number: u64)
        ensures dumps { self.new.dumps ≡ without_dump caller number self.old.dumps }
        ensures spare { self.old.spare ≤ self.new.spare }
    {
        self.dumps.retain(|dump| !dump.is_dump(caller, number));
    }

    /// Seals the dump of this caller with this number at an event, where it is there. It takes no
    /// memory.
    pub fn seal(&mut self, caller: u32, number: u64, end: u64)
        ensures dumps { self.new.dumps ≡ with_sealed caller number end self.old.dumps }
        ensures spare { self.new.spare ≡ self.old.spare }
    {
        seal_among(&mut self.dumps, caller, number, end);
    }

    /// The names of the databases of which whole dumps are open, one for each dump.
    pub fn databases(&self, alloc: Global) -> Result<Texts, NoMemory>
        ensures { IfOk result (λ names. names ≡ dumping self.now.dumps) }
    {
        let mut names = ListOf::new(alloc);
        for dump in &self.dumps {
            if dump.is_bootstrap() {
                names.push(dump.db.copy(alloc)?)?;
            }
        }
        Ok(names)
    }

    /// The least of a number and the begins of the dumps. It takes no memory.
    pub fn least_begin(&self, number: u64) -> u64
        ensures { result ≡ least_begin number self.now.dumps }
    {
        let mut least = number;
        for dump in &self.dumps {
            least = least.min(dump.begin);
        }
        least
    }
}

// Seals the dump of this caller with this number.
fn seal_among(dumps: &mut [OpenDump], caller: u32, number: u64, end: u64)
    ensures { dumps.new ≡ with_sealed caller number end dumps.old }
{
    for dump in dumps.iter_mut() {
        if dump.is_dump(caller, number) {
            dump.seal_at(end);
        }
    }
}
