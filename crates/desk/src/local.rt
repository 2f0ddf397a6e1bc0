//! The desk of one caller alone.

ghost use Rattle.std.specs.Prelude.{◌≡◌, true};

use crate::{Core, Desk};
use cat_types::{Answer, Step};

/// Caller 0 alone at a store.
#[derive(Drop)]
pub struct LocalDesk<C: Core> {
    core: C,
}

impl<C: Core> LocalDesk<C> {
    pub fn new(core: C) -> LocalDesk<C>
        ensures { result.core ≡ core }
    {
        LocalDesk { core }
    }

    /// Gives the store back.
    pub fn into_core(self) -> C
        ensures { result ≡ self.core }
    {
        let LocalDesk { core } = self;
        core
    }
}

impl<C: Core> Desk for LocalDesk<C> {
    ghost start = { λ d. C.start d.core };

    ghost history = { λ d. C.history d.core };

    ghost faults = { λ d. C.faults d.core };

    ghost caller = { λ _. 0 };

    ghost alone = { true };

    fn step(&mut self, s: Step) -> Answer {
        self.core.turn(0, s)
    }
}
