//! A clock over memory.

ghost use Rattle.std.specs.Prelude.{◌≡◌, Some};

use crate::Clock;
use std::marker::Model;

/// Moments to answer one after the other. The last one is repeated.
#[derive(Drop)]
pub struct MemClock {
    moments: Vec<u64>,
    at: usize,
}

impl Model for MemClock {
    ghost use Rattle.std.specs.Prelude.{ℕ, ◌≤◌, List, drop, vec_len};

    ghost Value = { List ℕ };

    ghost view = { λ c. drop c.at c.moments.items };

    ghost invariant = { λ c. c.at ≤ vec_len c.moments };
}

impl MemClock {
    /// A clock that answers these moments, and 0 where there is none.
    pub fn new(moments: Vec<u64>) -> MemClock
        ensures { result ≡ moments.items }
    {
        MemClock { moments, at: 0 }
    }
}

impl Clock for MemClock {
    ghost moments = { λ c. Some c };

    ghost faults = { λ c. 0 };

    fn now(&mut self) -> u64 {
        if self.at == self.moments.len() {
            return 0;
        }
        let moment = self.moments[self.at];
        if self.at + 1 < self.moments.len() {
            self.at += 1;
        }
        moment
    }
}
