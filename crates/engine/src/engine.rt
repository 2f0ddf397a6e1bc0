//! A store on two disks.

ghost use Rattle.std.specs.Prelude.{◌≡◌, ◌⊎◌, ◌<◌, ◌≤◌, ◌^◌, [], ℕ, None, Ok, length, IfErr, IfOk, IfSome, MatchResult, OnOk};
ghost use Rattle.desk.specs.History.{Legal, NoneAbove, Point, point_of};
ghost use Rattle.desk.specs.State.{start};
ghost use Rattle.engine.specs.Inside.{IsSure, seen_by};
ghost use Rattle.engine.specs.Keeping.{IsReopened, Kept, KeptMeanwhile, KeptSince, LeavesKept, LeavesState};
ghost use Rattle.engine.specs.Opening.{IsBrokenStore, Opens, opened};
ghost use Rattle.engine.specs.Stores.{fault_of, point_at};
ghost use Rattle.hms_outside.specs.Causes.{Rose};
ghost use Rattle.hms_outside.specs.Disks.{Lay, Went};
ghost use Rattle.ms_journal.specs.Faults.{IsMakingFault, IsOpeningFault, IsOutage};
ghost use Rattle.ms_journal.specs.Files.{IsForeign};
ghost use Rattle.ms_journal.specs.Found.{AsFound, HeldStays, LeavesAsFound};

use crate::replaying::replay;
use crate::store::Store;
use crate::turned::Turned;
use cat_types::{Answer, Step};
use desk::{CallerStep, Core};
use hms_outside::Disk;
use http_server::Log;
use ms_journal::{Journal, OpenFault};
use std::alloc::Global;
use std::marker::Model;

/// A store on two disks, of which only disk A is used so far. Its history is known to contracts alone.
#[derive(Drop)]
pub struct Engine<D: Disk> {
    store: Store,
    journal: Journal<D>,
    disk_b: D,
    opening: Log<Store, Journal<D>>,
    turns: Log<Turned, Journal<D>>,
}

impl<D: Disk> Model for Engine<D> {
    ghost use Rattle.engine.specs.Inside.{Runs, seen_by, stored_by, with_other};
    ghost use Rattle.engine.specs.Stores.{Stored};

    ghost Value = { Stored D };

    ghost view = { λ m. stored_by (λ j. with_other (D.faults m.disk_b) (seen_by D.lies D.past D.faults j)) m.disk_b m.journal m.opening.items m.turns.items };

    ghost invariant = { λ m. Runs (λ j. with_other (D.faults m.disk_b) (seen_by D.lies D.past D.faults j)) m.store m.journal m.opening.items m.turns.items };
}

impl<D: Disk> Engine<D> {
    // An engine that was just opened, over a journal that holds what makes this state.
    fn begin(store: Store, journal: Journal<D>, disk_b: D) -> Engine<D>
        requires sure { IsSure (seen_by D.lies D.past D.faults journal) }
        requires settled { journal.doubt ≡ None }
        requires opens { opened journal.head journal.payloads ≡ Ok store }
        ensures disk_a { result.disk_a ≡ journal.disk }
        ensures disk_b { result.disk_b ≡ disk_b }
        ensures state { result.start.state ≡ store }
        ensures fault { result.start.fault ≡ fault_of D.faults result }
        ensures past { result.start.past ≡ D.past result.disk_a }
        ensures none { result.history ≡ [] }
        ensures kept { IfSome (D.lies result.disk_a) (LeavesKept (point_of result.start)) }
    {
        let opening = Log::new().and(&store, &journal);
        Engine {
            store,
            journal,
            disk_b,
            opening,
            turns: Log::new(),
        }
    }

    /// Makes a store with this id, whose events are numbered from base + 1, on a disk A that has no
    /// bytes; disk B stays. A refusal hands the disks back.
    pub fn create(
        alloc: Global,
        disk_a: D,
        disk_b: D,
        id: [u8; 16],
        base: u64,
    ) -> Result<Engine<D>, (OpenFault, D, D)>
        requires { base < 2 ^ 63 }
        ensures state { IfOk result (λ e. e.start.state ≡ start id base) }
        ensures fault { IfOk result (λ e. e.start.fault ≡ fault_of D.faults e) }
        ensures past { IfOk result (λ e. e.start.past ≡ D.past e.disk_a) }
        ensures none { IfOk result (λ e. e.history ≡ []) }
        ensures empty { OnOk result (IfSome (D.lies disk_a) (λ d. d.held ≡ [])) }
        // A crash now leaves what opens to the new store.
        ensures opens { IfOk result (λ e. IfSome (D.lies e.disk_a) (LeavesState (start id base))) }
        ensures kept { IfOk result (λ e. IfSome (D.lies e.disk_a) (LeavesKept (point_of e.start))) }
        ensures disk_b { MatchResult result (λ e. e.disk_b ≡ disk_b) (λ e. e.2 ≡ disk_b) }
        ensures kind { IfErr result (λ e. IsMakingFault e.0) }
        ensures not_empty { IfErr result (λ e. e.0 ≡ OpenFault.NotEmpty → IfSome (D.lies disk_a) (λ d. 0 < length d.held)) }
        ensures same { IfErr result (λ e. e.0 ≡ OpenFault.NotEmpty → D.lies e.1 ≡ D.lies disk_a) }
        ensures later { MatchResult result (λ e. D.faults disk_a ≤ D.faults e.disk_a) (λ e. D.faults disk_a ≤ D.faults e.1) }
        ensures cause { IfErr result (λ e. e.0 ≡ OpenFault.DiskFault → Rose (D.faults disk_a) (D.faults e.1)) }
    {
        let Ok(store) = Store::new(alloc, id, base) else {
            return Err((OpenFault::NoMemory, disk_a, disk_b));
        };
        match Journal::create(alloc, disk_a, id, base) {
            Ok(journal) => Ok(Engine::begin(store, journal, disk_b)),
            Err((fault, disk_a)) => Err((fault, disk_a, disk_b)),
        }
    }

    /// Opens the store that disk A holds, after a crash or none; disk B stays. It syncs disk A first. A
    /// refusal hands the disks back. `Broken` tells the place of an open gate, before bytes that aren't
    /// a whole entry, or else before the first entry that the state doesn't take.
    pub fn open_store(alloc: Global, disk_a: D, disk_b: D) -> Result<Engine<D>, (OpenFault, D, D)>
        ensures opens { IfOk result (λ e. IfSome (D.lies disk_a) (λ d. Opens d.held e.start.state)) }
        ensures fault { IfOk result (λ e. e.start.fault ≡ fault_of D.faults e) }
        ensures past { IfOk result (λ e. e.start.past ≡ D.past e.disk_a) }
        ensures none { IfOk result (λ e. e.history ≡ []) }
        // What was kept for a history opens to where that history stands behind one opening more.
        ensures reopened { IfOk result (λ e. IfSome (D.lies disk_a) (λ d. (p : Point) → Kept p d.held → IsReopened p e.start)) }
        // From here on a crash leaves what opens to the state that was given.
        ensures kept { IfOk result (λ e. IfSome (D.lies e.disk_a) (LeavesKept (point_of e.start))) }
        // At every moment before, a crash leaves what it could have left at first, or what was read.
        ensures went { MatchResult result
            (λ e. Went (D.past disk_a) (D.past e.disk_a) (D.lies e.disk_a) (LeavesAsFound (D.lies disk_a)) (AsFound (D.lies disk_a)))
            (λ e. Went (D.past disk_a) (D.past e.1) (D.lies e.1) (LeavesAsFound (D.lies disk_a)) (AsFound (D.lies disk_a))) }
        // Where it is refused, what a read of disk A gives stays.
        ensures held { IfErr result (λ e. Lay HeldStays (D.lies disk_a) (D.lies e.1)) }
        ensures disk_b { MatchResult result (λ e. e.disk_b ≡ disk_b) (λ e. e.2 ≡ disk_b) }
        ensures kind { IfErr result (λ e. IsOpeningFault e.0) }
        ensures foreign { IfErr result (λ e. e.0 ≡ OpenFault.Foreign → IfSome (D.lies disk_a) (λ d. IsForeign d.held)) }
        ensures broken { IfErr result (λ e. (at : ℕ) → e.0 ≡ OpenFault.Broken at → IfSome (D.lies disk_a) (λ d. IsBrokenStore at d.held)) }
        // What was kept for a history is refused by an outage alone.
        ensures outage { IfErr result (λ e. IfSome (D.lies disk_a) (λ d. (p : Point) → Kept p d.held → IsOutage e.0)) }
        ensures later { MatchResult result (λ e. D.faults disk_a ≤ D.faults e.disk_a) (λ e. D.faults disk_a ≤ D.faults e.1) }
        ensures cause { IfErr result (λ e. e.0 ≡ OpenFault.DiskFault → Rose (D.faults disk_a) (D.faults e.1)) }
    {
        match Journal::open_log(alloc, disk_a) {
            Ok((journal, payloads)) => match replay(alloc, &journal, payloads) {
                Ok(store) => Ok(Engine::begin(store, journal, disk_b)),
                Err(fault) => Err((fault, journal.into_disk(), disk_b)),
            },
            Err((fault, disk_a)) => Err((fault, disk_a, disk_b)),
        }
    }

    /// Gives the disks back.
    pub fn into_disks(self) -> (D, D)
        ensures disk_a { result.0 ≡ self.disk_a }
        ensures disk_b { result.1 ≡ self.disk_b }
        ensures legal { Legal self.start self.history }
        ensures counted { NoneAbove (fault_of D.faults self) self.history }
        // What a read of disk A gives now is kept for all of the history.
        ensures held { IfSome (D.lies result.0) (λ d. Kept (point_at self) d.held) }
        // A crash at any moment since the opening leaves what is kept for the history up to then, and a crash now what is kept for all of it.
        ensures since { KeptSince (point_of self.start) self.history self.start.past (D.past result.0) (D.lies result.0) }
    {
        let Engine {
            store: _,
            journal,
            disk_b,
            opening: _,
            turns: _,
        } = self;
        (journal.into_disk(), disk_b)
    }
}

impl<D: Disk> Core for Engine<D> {
    ghost use Rattle.std.specs.Prelude.{◌++◌, ◌∷◌};

    ghost start = { λ e. e.start };

    ghost history = { λ e. e.history };

    ghost faults = { fault_of D.faults };

    fn turn(&mut self, caller: u32, s: Step) -> Answer
        ensures start { self.new.start ≡ self.old.start }
        ensures entry { self.new.history ≡ self.old.history ++ (record { caller = caller; step = s }, record { answer = result; fault = fault_of D.faults self.new }) ∷ [] }
        ensures legal { Legal self.new.start self.new.history }
        ensures counted { NoneAbove (fault_of D.faults self.new) self.new.history }
        ensures disk_b { self.new.disk_b ≡ self.old.disk_b }
        // A crash at any moment of the turn leaves what is kept for the history before it, without this turn or with it; and a crash now what is kept for the history with it.
        ensures went { Went (D.past self.old.disk_a) (D.past self.new.disk_a) (D.lies self.new.disk_a)
            (LeavesKept (point_at self.new))
            (KeptMeanwhile (point_at self.old) (record { caller = caller; step = s }, record { answer = result; fault = fault_of D.faults self.new })) }
    {
        let asked = CallerStep { caller, step: s };
        let answer = self.store.take_step(&mut self.journal, caller, &asked.step);
        let turned = Turned { asked, answer };
        self.turns = self.turns.and(&turned, &self.journal);
        let Turned { asked, answer } = turned;
        drop(asked);
        answer
    }
}
