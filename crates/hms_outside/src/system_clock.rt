//! The system's clock.

ghost use Rattle.std.specs.Prelude.{None};

use crate::Clock;
use std::time::{self, SystemTime, UNIX_EPOCH};

/// The clock of the system that the program runs on. Where it can't be read, or stands before 1970,
/// the fault is counted, and the last moment is answered again, or 0 where there is none.
#[derive(Drop)]
pub struct SystemClock<R: time::Clock + Drop> {
    real: R,
    last: u64,
    faults: u64,
}

impl<R: time::Clock + Drop> SystemClock<R> {
    /// A clock over the runtime's.
    pub fn new(real: R) -> SystemClock<R> {
        SystemClock {
            real,
            last: 0,
            faults: 0,
        }
    }
}

impl<R: time::Clock + Drop> Clock for SystemClock<R> {
    ghost moments = { λ c. None };

    ghost faults = { λ c. c.faults };

    fn now(&mut self) -> u64 {
        match seconds(&self.real) {
            Some(moment) => self.last = moment,
            None => self.faults = self.faults.saturating_add(1),
        }
        self.last
    }
}

// The seconds since 1970, where the clock tells them.
fn seconds(real: &impl time::Clock) -> Option<u64> {
    let since = SystemTime::now(real).ok()?.duration_since(UNIX_EPOCH).ok()?;
    Some(since.as_secs())
}
