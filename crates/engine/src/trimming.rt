//! How the kept events of a store are trimmed.

ghost use Rattle.std.specs.Prelude.{◌≡◌, ◌≤◌, ◌+◌, ℕ, Ok, MatchResult, OnErr, OnOk, Some};
ghost use Rattle.cat_types.specs.declared.steps.Step.TheVariants as steps;
ghost use Rattle.desk.specs.State.{trimmed, with_written};
ghost use Rattle.engine.specs.Inside.{IsSure, Logged, Stepped, seen_by};
ghost use Rattle.engine.specs.Opening.{RefusesReplay, taken};

use crate::committing::log_entry;
use crate::store::{Store, refusal};
use cat_types::Answer;
use change_codec::Entry;
use dump_steps::trim_end;
use hms_outside::Disk;
use ms_journal::{Journal, OpenFault, StoreFault};

impl Store {
    /// Takes off the kept events up to a number, in memory and in the journal, as far as open dumps
    /// don't need them. Where none would be taken off, nothing is written.
    pub fn trim<D: Disk>(&mut self, journal: &mut Journal<D>, upto: i64) -> Answer
        requires { IsSure (seen_by D.lies D.past D.faults journal.old) }
        ensures { (caller : ℕ) → Stepped self.old caller (steps.Trim upto) result self.new (seen_by D.lies D.past D.faults journal.old) (seen_by D.lies D.past D.faults journal.new) }
    {
        let end = trim_end(upto, self.newest, &self.dumps);
        let first = self.log.first();
        if end < first {
            return Answer::Kept(first);
        }
        match self.cut(journal, end) {
            Ok(()) => Answer::Kept(end + 1),
            Err(fault) => refusal(fault),
        }
    }

    // Takes off the kept events up to this one, in memory and in the journal.
    fn cut<D: Disk>(&mut self, journal: &mut Journal<D>, end: u64) -> Result<(), StoreFault>
        requires sure { IsSure (seen_by D.lies D.past D.faults journal.old) }
        requires first { self.old.first ≤ end }
        requires newest { end ≤ self.old.newest }
        ensures ok { OnOk result (self.new ≡ with_written (Some (trimmed (end + 1))) self.old) }
        ensures err { OnErr result (self.new ≡ self.old) }
        ensures log { Logged (trimmed (end + 1)) result (seen_by D.lies D.past D.faults journal.old) (seen_by D.lies D.past D.faults journal.new) }
    {
        match log_entry(self.alloc, journal, &Entry::Trimmed(end + 1)) {
            Ok(()) => {
                self.take_off(end);
                Ok(())
            }
            Err(fault) => Err(fault),
        }
    }

    // Takes off the kept events up to this one, in memory.
    fn take_off(&mut self, end: u64)
        requires first { self.old.first ≤ end }
        requires newest { end ≤ self.old.newest }
        ensures { self.new ≡ with_written (Some (trimmed (end + 1))) self.old }
    {
        let _first = self.log.first();
        self.log.trim(end);
    }

    /// Takes the first kept number from a journal, whose gate stands at this place.
    pub fn take_trim(&mut self, first: u64, at: u64) -> Result<(), OpenFault>
        ensures { MatchResult result (λ _. taken at (Some (trimmed first)) self.old ≡ Ok self.new) (λ fault. RefusesReplay fault (taken at (Some (trimmed first)) self.old)) }
    {
        if first <= self.log.first() || self.newest + 1 < first {
            return Err(OpenFault::Broken(at));
        }
        self.take_off(first - 1);
        Ok(())
    }
}
