//! How a store takes the steps of dumps.

ghost use Rattle.std.specs.Prelude.{◌≡◌, ◌+◌, ◌++◌, ◌∷◌, [], Ok, IfOk, MatchResult, OnErr, OnOk, Some};
ghost use Rattle.std.specs.Option.{option_copied};
ghost use Rattle.cat_types.specs.declared.steps.Answer.TheVariants as answers;
ghost use Rattle.cat_types.specs.declared.steps.Step.TheVariants as steps;
ghost use Rattle.desk.specs.State.{beginning, drew, with_dumps, with_written};
ghost use Rattle.dump_steps.specs.Open.{with_dump};
ghost use Rattle.dump_steps.specs.Pieces.{told_begun};
ghost use Rattle.engine.specs.Inside.{IsSure, Logged, Stepped, Unwritten, begins, seen_by};
ghost use Rattle.engine.specs.Opening.{RefusesReplay, taken};

use crate::committing::log_entry;
use crate::store::{Store, refusal};
use cat_types::{Answer, DumpRefusal, Item, NoMemory, Text, Texts};
use change_codec::Entry;
use dump_steps::{
    Asked, OpenDump, Takes, begin, begin_refusal, dump_for, first_item, next_events, next_parts,
    next_table, told_begun,
};
use hms_outside::Disk;
use ms_journal::{Journal, OpenFault, StoreFault};

// How the beginning of a dump ends, before anything is written.
#[derive(Drop)]
pub enum Prepared {
    Refused(DumpRefusal),
    Ready { dump: OpenDump, item: Option<Item> },
}

impl Store {
    /// Begins a dump, in memory and in the journal.
    pub fn begin_dump<D: Disk>(
        &mut self,
        journal: &mut Journal<D>,
        caller: u32,
        db: &Text,
        asked: Asked,
    ) -> Answer
        requires { IsSure (seen_by D.lies D.past D.faults journal.old) }
        ensures { Stepped self.old caller (steps.DumpBegin db.now asked.from asked.to asked.limit) result self.new (seen_by D.lies D.past D.faults journal.old) (seen_by D.lies D.past D.faults journal.new) }
    {
        match self.prepare(caller, db, asked) {
            Ok(Prepared::Refused(reason)) => Answer::DumpRefused(reason),
            Ok(Prepared::Ready { dump, item }) => match self.open_dump(journal, dump, item) {
                Ok(answer) => answer,
                Err(fault) => refusal(fault),
            },
            Err(NoMemory) => Answer::NoMemory,
        }
    }

    // How the beginning of a dump ends. It takes all memory that the dump keeps and the answer needs.
    fn prepare(&self, caller: u32, db: &Text, asked: Asked) -> Result<Prepared, NoMemory>
        ensures { IfOk result (λ prepared. begins prepared ≡ beginning self.now caller db.now asked) }
    {
        let db = db.to_lower(self.alloc)?;
        let held = self.cat.held_database(&db);
        let first = self.log.first();
        if let Some(reason) = begin_refusal(held, first, self.newest, self.last_dump, asked) {
            return Ok(Prepared::Refused(reason));
        }
        let Some(held) = held else {
            return Ok(Prepared::Refused(DumpRefusal::NoSuchDb));
        };
        let dump = begin(caller, db, held.born, self.newest, self.last_dump, asked);
        let item = first_item(self.alloc, dump.kind, self.newest, held)?;
        Ok(Prepared::Ready { dump, item })
    }

    // Opens a dump, and tells its beginning.
    fn open_dump<D: Disk>(
        &mut self,
        journal: &mut Journal<D>,
        dump: OpenDump,
        item: Option<Item>,
    ) -> Result<Answer, StoreFault>
        requires { IsSure (seen_by D.lies D.past D.faults journal.old) }
        ensures answer { IfOk result (λ answer. answer ≡ told_begun self.old.id dump item) }
        ensures ok { OnOk result (self.new ≡ with_dumps (with_dump dump self.old.dumps) (with_written (Some (drew dump.number)) self.old)) }
        ensures err { OnErr result (self.new ≡ self.old) }
        ensures log { Logged (drew dump.number) result (seen_by D.lies D.past D.faults journal.old) (seen_by D.lies D.past D.faults journal.new) }
    {
        let answer = told_begun(self.id, &dump, item);
        match self.draw(journal, dump) {
            Ok(()) => Ok(answer),
            Err(fault) => {
                drop(answer);
                Err(fault)
            }
        }
    }

    // Draws the number of a dump, and keeps the dump. The memory to keep it is taken before the journal
    // is touched, so that after its answer nothing can fail.
    fn draw<D: Disk>(&mut self, journal: &mut Journal<D>, dump: OpenDump) -> Result<(), StoreFault>
        requires { IsSure (seen_by D.lies D.past D.faults journal.old) }
        ensures ok { OnOk result (self.new ≡ with_dumps (with_dump dump self.old.dumps) (with_written (Some (drew dump.number)) self.old)) }
        ensures err { OnErr result (self.new ≡ self.old) }
        ensures log { Logged (drew dump.number) result (seen_by D.lies D.past D.faults journal.old) (seen_by D.lies D.past D.faults journal.new) }
    {
        self.dumps.room()?;
        match log_entry(self.alloc, journal, &Entry::DumpBegun(dump.number)) {
            Ok(()) => {
                self.last_dump = dump.number;
                self.dumps.open(dump);
                Ok(())
            }
            Err(fault) => Err(fault),
        }
    }

    /// The next table of a dump.
    pub fn dump_table(&self, caller: u32, number: u64, after: Option<&Text>) -> Answer
        ensures { Unwritten self.now caller (steps.DumpTable number (option_copied after.entry)) result self.now }
    {
        match dump_for(&self.dumps, caller, number, Takes::Objects, &self.cat) {
            Ok(dump) => told(next_table(self.alloc, &self.cat, self.newest, after, dump)),
            Err(answer) => answer,
        }
    }

    /// The next partitions of a table of a dump.
    pub fn dump_parts(
        &self,
        caller: u32,
        number: u64,
        table: &Text,
        born: u64,
        after: Option<&Texts>,
    ) -> Answer
        ensures { Unwritten self.now caller (steps.DumpParts number table.now born (option_copied after.entry)) result self.now }
    {
        match dump_for(&self.dumps, caller, number, Takes::Objects, &self.cat) {
            Ok(dump) => told(next_parts(
                self.alloc,
                &self.cat,
                self.newest,
                table,
                born,
                after,
                dump,
            )),
            Err(answer) => answer,
        }
    }

    /// The next events of a dump.
    pub fn dump_events(&self, caller: u32, number: u64, after: u64) -> Answer
        ensures { Unwritten self.now caller (steps.DumpEvents number after) result self.now }
    {
        match dump_for(&self.dumps, caller, number, Takes::Events, &self.cat) {
            Ok(dump) => told(next_events(&self.log, after, dump)),
            Err(answer) => answer,
        }
    }

    /// Ends the objects of a dump. It takes no memory.
    pub fn seal_dump(&mut self, caller: u32, number: u64) -> Answer
        ensures { Unwritten self.old caller (steps.DumpSeal number) result self.new }
    {
        match dump_for(&self.dumps, caller, number, Takes::Objects, &self.cat) {
            Ok(_) => {
                self.dumps.seal(caller, number, self.newest);
                Answer::Sealed(self.newest)
            }
            Err(answer) => answer,
        }
    }

    /// Ends a dump. It takes no memory.
    pub fn end_dump(&mut self, caller: u32, number: u64) -> Answer
        ensures { Unwritten self.old caller (steps.DumpEnd number) result self.new }
    {
        let is_open = self.dumps.find(caller, number).is_some();
        self.dumps.end(caller, number);
        if is_open {
            return Answer::Ended;
        }
        Answer::NotOpen
    }

    /// Takes the number of a dump from a journal, whose gate stands at this place.
    pub fn take_number(&mut self, number: u64, at: u64) -> Result<(), OpenFault>
        ensures { MatchResult result (λ _. taken at (Some (drew number)) self.old ≡ Ok self.new) (λ fault. RefusesReplay fault (taken at (Some (drew number)) self.old)) }
    {
        if self.last_dump == u64::MAX || number != self.last_dump + 1 {
            return Err(OpenFault::Broken(at));
        }
        self.last_dump = number;
        Ok(())
    }
}

// What a step that only looks is answered.
fn told(found: Result<Answer, NoMemory>) -> Answer
    ensures { MatchResult found (λ answer. result ≡ answer) (λ _. result ≡ answers.NoMemory) }
{
    match found {
        Ok(answer) => answer,
        Err(NoMemory) => Answer::NoMemory,
    }
}
