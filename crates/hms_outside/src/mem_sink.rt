//! A sink over memory.

ghost use Rattle.std.specs.Prelude.{◌≡◌, ◌<◌, ◌≤◌, [], Some, length, IfOk, OnErr};
ghost use Rattle.hms_outside.specs.Causes.{HasCause};
ghost use Rattle.hms_outside.specs.Memory.{Planned, is_due};
ghost use Rattle.hms_outside.specs.Told.{Flushes, Writes};

use crate::failures::Failures;
use crate::{Outage, Sink};
use std::alloc::Global;
use std::marker::Model;

/// What was written, and how much of it at each flush.
#[derive(Drop)]
pub struct MemSink {
    bytes: Vec<u8>,
    flushes: Vec<usize>,
    failures: Failures,
}

impl Model for MemSink {
    ghost use Rattle.hms_outside.specs.Memory.{Store};

    ghost Value = { Store };

    ghost view = { λ s. record { held = record { bytes = s.bytes.items; flushes = s.flushes.items }; plan = s.failures } };
}

impl MemSink {
    /// An empty sink, whose calls with these numbers, from 0, fail.
    pub fn new(alloc: Global, fails: Vec<u64>) -> MemSink
        ensures { result ≡ record { held = record { bytes = []; flushes = [] }; plan = record { listed = fails.items; calls = 0; faults = 0 } } }
    {
        MemSink {
            bytes: Vec::new(alloc),
            flushes: Vec::new(alloc),
            failures: Failures::new(fails),
        }
    }

    /// What was written so far.
    pub fn bytes(&self) -> &[u8]
        ensures { result.now ≡ self.now.held.bytes }
    {
        &self.bytes
    }

    /// How many bytes were held at each flush.
    pub fn flushes(&self) -> &[usize]
        ensures { result.now ≡ self.now.held.flushes }
    {
        &self.flushes
    }
}

impl Sink for MemSink {
    ghost held = { λ s. Some s.held };

    ghost faults = { λ s. s.plan.faults };

    fn write(&mut self, bytes: &[u8]) -> Result<usize, Outage>
        requires { 0 < length bytes.now }
        ensures some { IfOk result (λ n. 0 < n) }
        ensures bound { IfOk result (λ n. n ≤ length bytes.now) }
        ensures bytes { Writes (Some self.old.held) (Some self.new.held) result bytes.now }
        ensures cause { HasCause self.old.plan.faults self.new.plan.faults result }
        ensures planned { Planned (is_due self.old.plan) self.old.plan self.new.plan result }
        ensures whole { IfOk result (λ n. n ≡ length bytes.now) }
    {
        if self.failures.is_due() {
            self.failures.fail();
            return Err(Outage::Failed);
        }
        match self.bytes.extend_from_slice(bytes) {
            Ok(()) => {
                self.failures.pass();
                Ok(bytes.len())
            }
            Err(_) => Err(Outage::NoMemory),
        }
    }

    fn flush(&mut self) -> Result<(), Outage>
        ensures flushes { Flushes (Some self.old.held) (Some self.new.held) result }
        ensures cause { HasCause self.old.plan.faults self.new.plan.faults result }
        ensures planned { Planned (is_due self.old.plan) self.old.plan self.new.plan result }
    {
        if self.failures.is_due() {
            self.failures.fail();
            return Err(Outage::Failed);
        }
        let count = self.bytes.len();
        match self.flushes.push(count) {
            Ok(()) => {
                self.failures.pass();
                Ok(())
            }
            Err(_) => Err(Outage::NoMemory),
        }
    }
}
