//! A desk between whose steps others take turns by a script.

ghost use Rattle.std.specs.Prelude.{◌≡◌, ◌≤◌, ◌++◌, ◌∷◌, [], IsTrue, List, drop, false};
ghost use Rattle.desk.specs.Entries.{Others};
ghost use Rattle.desk.specs.Scripts.{AskedBy, IsAskedBy};
ghost use Rattle.desk.specs.History.{Entry, Legal, NoneAbove};

use crate::{Core, Desk, Foreign};
use cat_types::{Answer, Step};
use std::collections::VecDeque;

/// The turns of others: the k-th list comes before the k-th own step.
pub type Script = VecDeque<VecDeque<Foreign>>;

/// Caller 0 at a store at which others take turns too.
#[derive(Drop)]
pub struct ScriptDesk<C: Core> {
    core: C,
    to_come: Script,
}

impl<C: Core> ScriptDesk<C> {
    ghost use Rattle.desk.specs.Scripts.{lists_of};

    /// The k-th list of the script comes before the k-th step, and none behind the last list.
    pub fn new(core: C, script: Script) -> ScriptDesk<C>
        ensures core { result.core ≡ core }
        ensures script { lists_of result.to_come ≡ lists_of script }
    {
        ScriptDesk {
            core,
            to_come: script,
        }
    }

    /// Gives the store back.
    pub fn into_core(self) -> C
        ensures { result ≡ self.core }
    {
        let ScriptDesk { core, to_come: _ } = self;
        core
    }
}

// Takes the turns of others, in order.
fn take_turns<C: Core>(core: &mut C, mut turns: VecDeque<Foreign>)
    ensures start { C.start core.new ≡ C.start core.old }
    ensures turns { (between : List Entry) × AskedBy turns.items between × (C.history core.new ≡ C.history core.old ++ between) }
{
    while let Some(turn) = turns.pop_front() {
        take_turn(core, turn);
    }
}

// Takes a turn of another caller.
fn take_turn<C: Core>(core: &mut C, turn: Foreign)
    ensures start { C.start core.new ≡ C.start core.old }
    ensures turn { (entry : Entry) × IsAskedBy turn entry × (C.history core.new ≡ C.history core.old ++ entry ∷ []) }
{
    let Foreign { caller, step } = turn;
    drop(core.turn(caller, step));
}

impl<C: Core> ScriptDesk<C> {
    ghost use Rattle.desk.specs.Scripts.{lists_of, next_list};

    // Takes the turns of the script's next list.
    fn take_next(&mut self)
        ensures start { C.start self.new.core ≡ C.start self.old.core }
        ensures turns { (between : List Entry) × AskedBy (next_list (lists_of self.old.to_come)) between × (C.history self.new.core ≡ C.history self.old.core ++ between) }
        ensures rest { lists_of self.new.to_come ≡ drop 1 (lists_of self.old.to_come) }
    {
        if let Some(turns) = self.to_come.pop_front() {
            take_turns(&mut self.core, turns);
        }
    }
}

impl<C: Core> Desk for ScriptDesk<C> {
    ghost use Rattle.desk.specs.Scripts.{lists_of, next_list};

    ghost start = { λ d. C.start d.core };

    ghost history = { λ d. C.history d.core };

    ghost faults = { λ d. C.faults d.core };

    ghost caller = { λ _. 0 };

    ghost alone = { false };

    fn step(&mut self, s: Step) -> Answer
        ensures start { C.start self.new.core ≡ C.start self.old.core }
        ensures turns { (between : List Entry) × Others 0 between
            × (C.history self.new.core ≡ (C.history self.old.core ++ between) ++ (record { caller = 0; step = s }, record { answer = result; fault = C.faults self.new.core }) ∷ []) }
        ensures sole { IsTrue false → C.history self.new.core ≡ C.history self.old.core ++ (record { caller = 0; step = s }, record { answer = result; fault = C.faults self.new.core }) ∷ [] }
        ensures legal { Legal (C.start self.new.core) (C.history self.new.core) }
        ensures counted { NoneAbove (C.faults self.new.core) (C.history self.new.core) }
        // The turns before it are those of the script's next list, and the others are still to come.
        ensures script { (between : List Entry) × AskedBy (next_list (lists_of self.old.to_come)) between
            × (C.history self.new.core ≡ (C.history self.old.core ++ between) ++ (record { caller = 0; step = s }, record { answer = result; fault = C.faults self.new.core }) ∷ []) }
        ensures rest { lists_of self.new.to_come ≡ drop 1 (lists_of self.old.to_come) }
    {
        self.take_next();
        self.core.turn(0, s)
    }
}
