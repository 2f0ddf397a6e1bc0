//! What lies under the lock.

ghost use Rattle.std.specs.Prelude.{◌≡◌, ◌++◌, ◌∷◌, []};
ghost use Rattle.desk.specs.History.{Legal, NoneAbove};
ghost use Rattle.ms_server.specs.Turns.{entry};

use cat_types::{Answer, Step};
use desk::{CallerStep, Core, Outcome};
use std::marker::Model;
use turn_lock::Standing;

/// The start of a history, for contracts. No value of it is made.
#[derive(Drop)]
pub struct Opening {
    nothing: (),
}

impl Model for Opening {
    ghost use Rattle.desk.specs.History.{Start};
    ghost use Rattle.ms_server.specs.Turns.{no_start};

    ghost Value = { Start };

    ghost view = { λ _. no_start };
}

/// A store, as it lies under the lock. Its history is legal, which the lock itself doesn't know.
#[derive(Drop)]
pub struct Held<C: Core> {
    core: C,
}

impl<C: Core> Model for Held<C> {
    ghost Value = { C };

    ghost coded = { C.code };

    ghost view = { λ h. h.core };

    ghost invariant = { λ h. Legal (C.start h.core) (C.history h.core) };
}

impl<C: Core> Held<C> {
    pub fn new(core: C) -> Held<C>
        requires { Legal (C.start core) (C.history core) }
        ensures { result ≡ core }
    {
        Held { core }
    }

    /// Takes a caller's turn at the store.
    pub fn turn(&mut self, caller: u32, s: Step) -> Answer
        ensures start { C.start self.new ≡ C.start self.old }
        ensures entry { C.history self.new ≡ C.history self.old ++ entry caller s result (C.faults self.new) ∷ [] }
        ensures legal { Legal (C.start self.new) (C.history self.new) }
        ensures counted { NoneAbove (C.faults self.new) (C.history self.new) }
    {
        self.core.turn(caller, s)
    }

    /// Gives the store back.
    pub fn into_core(self) -> C
        ensures core { result ≡ self }
        ensures legal { Legal (C.start result) (C.history result) }
    {
        let Held { core } = self;
        core
    }
}

impl<C: Core> Standing for Held<C> {
    type Entry = (CallerStep, Outcome);

    type Start = Opening;

    ghost history = { λ h. C.history h };

    ghost caller_of = { λ e. e.0.caller };

    ghost start = { λ h. C.start h };
}
