//! What lies under the lock.

ghost use Rattle.std.specs.Prelude.{◌≡◌, ◌++◌, ◌∷◌, []};
ghost use Rattle.bench.specs.Turns.{turns_in};

use std::snapshot::Snapshot;
use turn_lock::Standing;

/// The turns that were taken, for proofs alone: whose the last one was, and those before it. What is
/// before it takes no bytes.
#[derive(Drop)]
pub enum Log {
    Empty,
    Turn(u32, Snapshot<Log>),
}

/// A count of the turns that were taken. It stops at the greatest number of its type.
#[derive(Drop)]
pub struct Counter {
    pub count: u64,
    log: Snapshot<Log>,
}

impl Standing for Counter {
    type Entry = u32;

    type Start = ();

    ghost history = { λ c. turns_in c.log.value };

    ghost caller_of = { λ caller. caller };

    ghost start = { λ _. tt };
}

impl Counter {
    /// No turn was taken.
    pub fn new() -> Counter
        ensures { turns_in result.log.value ≡ [] }
    {
        Counter {
            count: 0,
            log: Snapshot::of(&Log::Empty),
        }
    }

    /// Counts a turn of a caller.
    pub fn add(&mut self, caller: u32)
        ensures { turns_in self.new.log.value ≡ turns_in self.old.log.value ++ caller ∷ [] }
    {
        let before = Snapshot::of(&Log::Empty);
        let log = std::mem::replace(&mut self.log, before);
        self.log = Snapshot::of(&Log::Turn(caller, log));
        self.count = self.count.saturating_add(1);
    }
}
