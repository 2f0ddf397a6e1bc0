//! A source over memory.

ghost use Rattle.std.specs.Prelude.{◌≡◌, ◌<◌, ◌≤◌, ◌-◌, ◌||◌, [], false, None, Some, length, min, take, IfOk, OnErr};
ghost use Rattle.std.specs.Option.{option_map};
ghost use Rattle.std.specs.Io.KnownBytes.{ReadConsumes};
ghost use Rattle.hms_outside.specs.Causes.{HasCause};
ghost use Rattle.hms_outside.specs.Memory.{Planned, given, is_due, is_stopped};

use crate::byte_moves::copy_front;
use crate::failures::Failures;
use crate::{Outage, Source};
use cat_values::Bytes;
use std::alloc::Global;
use std::marker::Model;

/// The bytes of a list, from the front.
#[derive(Drop)]
pub struct MemSource {
    bytes: Vec<u8>,
    at: usize,
    stop: Option<usize>,
    failures: Failures,
}

impl Model for MemSource {
    ghost use Rattle.std.specs.Prelude.{◌≤◌, drop, vec_len};
    ghost use Rattle.hms_outside.specs.Memory.{Supply};

    ghost Value = { Supply };

    ghost view = { λ s. record { left = drop s.at s.bytes.items; stop = s.stop; plan = s.failures } };

    ghost invariant = { λ s. s.at ≤ vec_len s.bytes };
}

impl MemSource {
    /// A source of these bytes, whose calls with these numbers, from 0, fail.
    pub fn new(bytes: Bytes, fails: Vec<u64>) -> MemSource
        ensures { result ≡ record { left = bytes; stop = None; plan = record { listed = fails.items; calls = 0; faults = 0 } } }
    {
        MemSource {
            bytes: bytes.into_vec(),
            at: 0,
            stop: None,
            failures: Failures::new(fails),
        }
    }

    /// A source that gives the first `taken` of these bytes and then fails at each call.
    pub fn stopping(alloc: Global, bytes: Bytes, taken: u64) -> MemSource
        ensures { result ≡ record { left = bytes; stop = Some (min taken (length bytes)); plan = record { listed = []; calls = 0; faults = 0 } } }
    {
        let stop = taken.min(bytes.len() as u64) as usize;
        MemSource {
            bytes: bytes.into_vec(),
            at: 0,
            stop: Some(stop),
            failures: Failures::new(Vec::new(alloc)),
        }
    }

    fn is_stopped(&self) -> bool
        ensures { result ≡ is_stopped self.now }
    {
        match self.stop {
            None => false,
            Some(count) => count == 0,
        }
    }
}

impl MemSource {
    // How many bytes it gives to a read of this room.
    fn given(&self, room: usize) -> usize
        requires { 0 < room }
        ensures value { result ≡ given self.now room }
        ensures within { result ≤ room }
        ensures there { result ≤ length self.now.left }
        ensures none { is_stopped self.now ≡ false → result ≡ 0 → self.now.left ≡ [] }
    {
        let count = room.min(self.bytes.len() - self.at);
        match self.stop {
            None => count,
            Some(stop) => count.min(stop),
        }
    }

    // Copies what it gives into a buffer, and answers how many bytes that are.
    fn give(&self, buf: &mut [u8]) -> usize
        requires { 0 < length buf.old }
        ensures value { result ≡ given self.now (length buf.old) }
        ensures within { result ≤ length buf.old }
        ensures there { result ≤ length self.now.left }
        ensures front { take result buf.new ≡ take result self.now.left }
        ensures none { is_stopped self.now ≡ false → result ≡ 0 → self.now.left ≡ [] }
    {
        let count = self.given(buf.len());
        let _ = copy_front(&self.bytes[self.at..self.at + count], buf);
        count
    }
}

impl Source for MemSource {
    ghost left = { λ s. Some s.left };

    ghost faults = { λ s. s.plan.faults };

    fn read(&mut self, buf: &mut [u8]) -> Result<usize, Outage>
        requires { 0 < length buf.old }
        ensures bound { IfOk result (λ n. n ≤ length buf.old) }
        ensures bytes { ReadConsumes (Some self.old.left) (Some self.new.left) result buf.new }
        ensures cause { HasCause self.old.plan.faults self.new.plan.faults result }
        ensures planned { Planned (is_due self.old.plan || is_stopped self.old) self.old.plan self.new.plan result }
        ensures all { IfOk result (λ n. (n ≡ given self.old (length buf.old)) × (self.new.stop ≡ option_map (λ count. count - n) self.old.stop)) }
        ensures stays { OnErr result ((self.new.left ≡ self.old.left) × (self.new.stop ≡ self.old.stop)) }
    {
        if self.failures.is_due() || self.is_stopped() {
            self.failures.fail();
            return Err(Outage::Failed);
        }
        let count = self.give(buf);
        self.at += count;
        self.stop = self.stop.map(|left| left - count);
        self.failures.pass();
        Ok(count)
    }
}
