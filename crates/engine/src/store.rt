//! What a store keeps in memory.

ghost use Rattle.std.specs.Prelude.{◌≡◌, ◌<◌, ◌≤◌, ◌+◌, ◌++◌, ◌∷◌, [], true, Ok, IfOk, MatchResult, None, OnErr, OnOk, Some};
ghost use Rattle.cat_types.specs.declared.steps.Step.TheVariants.{Client};
ghost use Rattle.cat_objects.specs.Changes.{takes_call, takes_change};
ghost use Rattle.rulings.specs.Decisions.{Decides, IfChange};
ghost use Rattle.catalogue.specs.Polls.{poll_of};
ghost use Rattle.desk.specs.Polls.{poll_reply};
ghost use Rattle.desk.specs.State.{decision_of, kept, next_event, start, with_written};
ghost use Rattle.engine.specs.Inside.{IsSure, Logged, Stepped, refused_by, seen_by};
ghost use Rattle.engine.specs.Opening.{RefusesReplay, taken, takes, written_in};
ghost use Rattle.notify_log.specs.Logs.{next_number};

use crate::committing::{commit, spell_event};
use cat_types::{Answer, Call, Change, Event, ListOf, NoMemory, Reply, Step};
use catalogue::{Bars, Cat, Decided, Poll, decide, poll_of};
use change_codec::Entry;
use desk::reply_to_poll;
use dump_steps::{Asked, OpenDumps};
use hms_outside::Disk;
use ms_journal::{Journal, OpenFault, StoreFault};
use notify_log::EventLog;
use std::alloc::Global;
use std::marker::Model;

/// A store's state in memory.
#[derive(Drop)]
pub struct Store {
    pub(crate) alloc: Global,
    pub(crate) id: [u8; 16],
    pub(crate) cat: Cat,
    pub(crate) log: EventLog,
    pub(crate) newest: u64,
    pub(crate) last_dump: u64,
    pub(crate) dumps: OpenDumps,
}

impl Model for Store {
    ghost use Rattle.std.specs.Prelude.{◌≡◌, ◌≤◌, ◌+◌};
    ghost use Rattle.desk.specs.State.{State};
    ghost use Rattle.notify_log.specs.Logs.{next_number};

    ghost Value = { State };

    ghost view = { λ m. record { id = m.id; catalogue = m.cat; events = m.log.events; first = m.log.first; newest = m.newest; last_dump = m.last_dump; dumps = m.dumps.dumps } };

    ghost invariant = { λ m. (m.newest ≤ 9223372036854775807) × (next_number m.log ≡ m.newest + 1) × (1 ≤ m.log.first) };
}

impl Store {
    /// A new store, whose events are numbered from base + 1.
    pub fn new(alloc: Global, id: [u8; 16], base: u64) -> Result<Store, NoMemory>
        requires { base ≤ 9223372036854775807 }
        ensures { IfOk result (λ store. store ≡ start id base) }
    {
        Ok(Store {
            alloc,
            id,
            cat: Cat::new(alloc)?,
            log: EventLog::new(alloc, base + 1),
            newest: base,
            last_dump: 0,
            dumps: OpenDumps::new(alloc),
        })
    }

    /// Takes a step, in memory and in the journal.
    pub fn take_step<D: Disk>(
        &mut self,
        journal: &mut Journal<D>,
        caller: u32,
        step: &Step,
    ) -> Answer
        requires { IsSure (seen_by D.lies D.past D.faults journal.old) }
        ensures { Stepped self.old caller step.now result self.new (seen_by D.lies D.past D.faults journal.old) (seen_by D.lies D.past D.faults journal.new) }
    {
        match step {
            Step::Client { call, moment } => self.take_call(journal, caller, call, *moment),
            Step::DumpBegin {
                db,
                from,
                to,
                limit,
            } => self.begin_dump(
                journal,
                caller,
                db,
                Asked {
                    from: *from,
                    to: *to,
                    limit: *limit,
                },
            ),
            Step::DumpTable { dump, after } => self.dump_table(caller, *dump, after.as_ref()),
            Step::DumpParts {
                dump,
                table,
                born,
                after,
            } => self.dump_parts(caller, *dump, table, *born, after.as_ref()),
            Step::DumpSeal { dump } => self.seal_dump(caller, *dump),
            Step::DumpEvents { dump, after } => self.dump_events(caller, *dump, *after),
            Step::DumpEnd { dump } => self.end_dump(caller, *dump),
            Step::Trim { upto } => self.trim(journal, *upto),
        }
    }

    // Takes a call: a poll, or one that the catalogue decides.
    fn take_call<D: Disk>(
        &mut self,
        journal: &mut Journal<D>,
        caller: u32,
        call: &Call,
        moment: u64,
    ) -> Answer
        requires { IsSure (seen_by D.lies D.past D.faults journal.old) }
        ensures { Stepped self.old caller (Client call.now moment) result self.new (seen_by D.lies D.past D.faults journal.old) (seen_by D.lies D.past D.faults journal.new) }
    {
        match poll_of(call) {
            Some(poll) => match self.answer_poll(&poll) {
                Ok(reply) => Answer::Reply(reply),
                Err(NoMemory) => Answer::NoMemory,
            },
            None => self.decide_call(journal, caller, call, moment),
        }
    }

    // The reply to a poll.
    fn answer_poll(&self, poll: &Poll) -> Result<Reply, NoMemory>
        ensures { IfOk result (λ reply. reply ≡ poll_reply self.now.events self.now.newest poll.now) }
    {
        reply_to_poll(&self.log, self.newest, poll)
    }

    // What is decided of a call that is no poll.
    fn decided(&self, call: &Call, moment: u64) -> Decided
        requires { poll_of call.now ≡ None }
        ensures decided { Decides (decision_of self.now call.now moment) result }
        ensures taken { IfChange result (λ change. takes_call self.now.catalogue (self.now.newest + 1) change ≡ true) }
    {
        let Ok(dumping) = self.dumps.databases(self.alloc) else {
            return Decided::NoMemory;
        };
        let bars = Bars {
            replicas: ListOf::new(self.alloc),
            dumping,
            loading: ListOf::new(self.alloc),
        };
        decide(self.alloc, &self.cat, &bars, call, moment, self.newest + 1)
    }

    // Decides a call that is no poll, and does what it changes.
    fn decide_call<D: Disk>(
        &mut self,
        journal: &mut Journal<D>,
        _caller: u32,
        call: &Call,
        moment: u64,
    ) -> Answer
        requires poll { poll_of call.now ≡ None }
        requires sure { IsSure (seen_by D.lies D.past D.faults journal.old) }
        ensures { Stepped self.old _caller (Client call.now moment) result self.new (seen_by D.lies D.past D.faults journal.old) (seen_by D.lies D.past D.faults journal.new) }
    {
        match self.decided(call, moment) {
            Decided::Reply(reply) => Answer::Reply(reply),
            Decided::Change(change, reply) => match self.accept(journal, change, moment) {
                Ok(()) => Answer::Reply(reply),
                Err(fault) => refusal(fault),
            },
            Decided::NoMemory => Answer::NoMemory,
        }
    }

    // Does a change and keeps its event, in memory and in the journal. All memory is taken before the
    // journal is touched, so that behind its answer nothing can fail.
    fn accept<D: Disk>(
        &mut self,
        journal: &mut Journal<D>,
        change: Change,
        moment: u64,
    ) -> Result<(), StoreFault>
        requires sure { IsSure (seen_by D.lies D.past D.faults journal.old) }
        requires takes { takes_call self.old.catalogue (self.old.newest + 1) change ≡ true }
        ensures ok { OnOk result (self.new ≡ with_written (Some (kept (next_event self.old moment change))) self.old) }
        ensures err { OnErr result (self.new ≡ self.old) }
        ensures log { Logged (kept (next_event self.old moment change)) result (seen_by D.lies D.past D.faults journal.old) (seen_by D.lies D.past D.faults journal.new) }
    {
        let id = self.newest + 1;
        let (payload, event) = spell_event(self.alloc, Event { id, moment, change })?;
        self.log.reserve()?;
        let placed = self.cat.place(&event.change)?;
        match commit(journal, &payload) {
            Ok(()) => {
                self.cat.settle(placed);
                self.newest = event.id;
                keep(&mut self.log, event);
                Ok(())
            }
            Err(fault) => {
                self.cat.take_back(placed);
                Err(fault)
            }
        }
    }

    /// Takes an entry of a journal, whose gate stands at this place. So far there are none of loads.
    pub fn take(&mut self, entry: Entry, at: u64) -> Result<(), OpenFault>
        ensures { MatchResult result (λ _. taken at (written_in entry) self.old ≡ Ok self.new) (λ fault. RefusesReplay fault (taken at (written_in entry) self.old)) }
    {
        match entry {
            Entry::Event(event) => self.take_event(event, at),
            Entry::DumpBegun(number) => self.take_number(number, at),
            Entry::Trimmed(first) => self.take_trim(first, at),
            Entry::LoadStep { .. } => Err(OpenFault::Broken(at)),
        }
    }

    // Takes an event of a journal.
    fn take_event(&mut self, event: Event, at: u64) -> Result<(), OpenFault>
        ensures { MatchResult result (λ _. taken at (Some (kept event)) self.old ≡ Ok self.new) (λ fault. RefusesReplay fault (taken at (Some (kept event)) self.old)) }
    {
        if event.id != self.newest + 1 || !self.redo(event)? {
            return Err(OpenFault::Broken(at));
        }
        Ok(())
    }

    // Does the next event again, and tells whether the catalogue could take its change. Where it
    // couldn't, or after `NoMemory`, a part of the change may be done. Room to keep the event is taken
    // first, so that it is kept wherever its change is done.
    fn redo(&mut self, event: Event) -> Result<bool, NoMemory>
        requires { event.id ≡ self.old.newest + 1 }
        ensures takes { IfOk result (λ taken. taken ≡ takes_change self.old.catalogue event.id event.change) }
        ensures done { IfOk result (λ taken. taken ≡ true → self.new ≡ with_written (Some (kept event)) self.old) }
    {
        self.log.reserve()?;
        if !self.cat.replay(event.id, &event.change)? {
            return Ok(false);
        }
        self.newest = event.id;
        keep(&mut self.log, event);
        Ok(true)
    }
}

// Keeps an event, for which there is room. It takes no memory.
fn keep(log: &mut EventLog, event: Event)
    requires next { event.id ≡ next_number log.old }
    requires numbers_left { event.id < 18446744073709551615 }
    requires room { 0 < log.old.spare }
    ensures first { log.new.first ≡ log.old.first }
    ensures events { log.new.events ≡ log.old.events ++ event ∷ [] }
{
    match log.push(event) {
        Ok(()) => {}
        Err(_) => unreachable!(),
    }
}

// The answer to a step whose entry isn't written.
pub(crate) fn refusal(fault: StoreFault) -> Answer
    ensures { result ≡ refused_by fault }
{
    match fault {
        StoreFault::DiskFault => Answer::StoreFault,
        StoreFault::NoMemory => Answer::NoMemory,
    }
}
