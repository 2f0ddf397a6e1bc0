//! A gate at which two workers meet.

use ms_server::Gate;
use std::sync::atomic::{AtomicU64, Ordering};
use std::thread;

/// How many looks a hold lasts.
const LOOKS: u32 = 100_000;

/// Holds the first worker behind its second step until the other one has taken its second, and the
/// other one behind its first until the first worker has taken its second. A hold that runs out is
/// counted.
#[derive(Drop)]
pub struct Meeting {
    first: AtomicU64,
    second: AtomicU64,
    missed: AtomicU64,
}

impl Meeting {
    pub fn new() -> Meeting {
        Meeting {
            first: AtomicU64::new(0),
            second: AtomicU64::new(0),
            missed: AtomicU64::new(0),
        }
    }

    /// How many holds ran out.
    pub fn missed(&self) -> u64 {
        self.missed.load(Ordering::SeqCst)
    }

    // Waits until this number is 2.
    fn hold(&self, other: &AtomicU64) {
        for _ in 0..LOOKS {
            if other.load(Ordering::SeqCst) >= 2 {
                return;
            }
            thread::yield_now();
        }
        self.missed.fetch_add(1, Ordering::SeqCst);
    }
}

impl Gate for Meeting {
    fn pass(&self, worker: u32, done: u64) {
        if worker == 0 {
            self.first.store(done, Ordering::SeqCst);
            if done == 2 {
                self.hold(&self.second);
            }
        } else {
            self.second.store(done, Ordering::SeqCst);
            if done == 1 {
                self.hold(&self.first);
            }
        }
    }
}
