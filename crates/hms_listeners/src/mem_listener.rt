//! A listener over memory.

ghost use Rattle.std.specs.Prelude.{◌≡◌, ◌<◌, ◌+◌, ◌||◌, ◌++◌, ◌∷◌, [], Some, IfOk, MatchResult, OnErr};
ghost use Rattle.hms_outside.specs.Causes.{HasCause};
ghost use Rattle.hms_outside.specs.Memory.{Planned, is_due};
ghost use Rattle.hms_listeners.specs.Listening.{as_returned, HandsOut};
ghost use Rattle.hms_listeners.specs.Memory.{is_over};

use crate::Listener;
use crate::failures::Failures;
use cat_values::Bytes;
use hms_outside::{MemSink, MemSource, Outage};
use http_server::Log;
use std::alloc::Global;
use std::collections::VecDeque;
use std::marker::Model;

/// Gives its inputs in order, each with an empty sink, and keeps the sinks that are handed back. Its
/// sources and sinks never fail.
#[derive(Drop)]
pub struct MemListener {
    alloc: Global,
    inputs: VecDeque<Bytes>,
    sinks: Vec<MemSink>,
    returned: Log<MemSource, MemSink>,
    out: usize,
    failures: Failures,
}

impl Model for MemListener {
    ghost use Rattle.std.specs.Prelude.{◌≤◌, ◌+◌, vec_len, vec_capacity};
    ghost use Rattle.hms_listeners.specs.Memory.{Lobby, all_returned};

    ghost Value = { Lobby };

    ghost view = { λ l. record { inputs = l.inputs.items; returned = all_returned l.returned.items; sinks = l.sinks.items; out = l.out; plan = l.failures } };

    ghost invariant = { λ l. vec_len l.sinks + l.out ≤ vec_capacity l.sinks };
}

impl MemListener {
    /// A listener with these inputs, whose calls of `accept` with these numbers, from 0, fail.
    pub fn new(alloc: Global, inputs: Vec<Bytes>, fails: Vec<u64>) -> MemListener
        ensures { result ≡ record { inputs = inputs.items; returned = []; sinks = []; out = 0; plan = record { listed = fails.items; calls = 0; faults = 0 } } }
    {
        MemListener {
            alloc,
            inputs: VecDeque::from(inputs),
            sinks: Vec::new(alloc),
            returned: Log::new(),
            out: 0,
            failures: Failures::new(fails),
        }
    }

    /// The sinks of the connections that were handed back, in their order.
    pub fn replies(&self) -> &[MemSink]
        ensures { result.now ≡ self.now.sinks }
    {
        &self.sinks
    }
}

#[tactic(auto, using(crate::proofs::Returns::returned_push))]
impl Listener for MemListener {
    type Rx = MemSource;

    type Tx = MemSink;

    ghost inputs = { λ l. Some l.inputs };

    ghost returned = { λ l. Some l.returned };

    ghost out = { λ l. l.out };

    ghost faults = { λ l. l.plan.faults };

    fn accept(&mut self) -> Result<(MemSource, MemSink), Outage>
        ensures inputs { MatchResult result (λ c. HandsOut (Some self.old.inputs) (Some self.new.inputs) (Some c.0.left)) (λ _. Some self.new.inputs ≡ Some self.old.inputs) }
        ensures source { IfOk result (λ c. c.0.plan.faults ≡ 0) }
        ensures sink { IfOk result (λ c. (c.1.plan.faults ≡ 0) × (c.1.held ≡ record { bytes = []; flushes = [] })) }
        ensures returned { Some self.new.returned ≡ Some self.old.returned }
        ensures out { MatchResult result (λ _. self.new.out ≡ self.old.out + 1) (λ _. self.new.out ≡ self.old.out) }
        ensures cause { HasCause self.old.plan.faults self.new.plan.faults result }
        ensures planned { Planned (is_due self.old.plan || is_over self.old.inputs) self.old.plan self.new.plan result }
        ensures sinks { self.new.sinks ≡ self.old.sinks }
    {
        if self.failures.is_due() {
            self.failures.fail();
            return Err(Outage::Failed);
        }
        if self.inputs.is_empty() {
            self.failures.fail();
            return Err(Outage::Failed);
        }
        if self.sinks.reserve(self.out + 1).is_err() {
            return Err(Outage::NoMemory);
        }
        let bytes = self.inputs.pop_front().unwrap();
        self.out += 1;
        self.failures.pass();
        Ok((
            MemSource::new(bytes, Vec::new(self.alloc)),
            MemSink::new(self.alloc, Vec::new(self.alloc)),
        ))
    }

    fn hand_back(&mut self, rx: MemSource, tx: MemSink)
        requires { 0 < self.old.out }
        ensures returned { Some self.new.returned ≡ Some (self.old.returned ++ as_returned (Some tx.held) rx.plan.faults tx.plan.faults ∷ []) }
        ensures inputs { Some self.new.inputs ≡ Some self.old.inputs }
        ensures out { self.old.out ≡ self.new.out + 1 }
        ensures faults { self.new.plan.faults ≡ self.old.plan.faults }
        ensures sinks { self.new.sinks ≡ self.old.sinks ++ tx ∷ [] }
    {
        self.returned = self.returned.and(&rx, &tx);
        self.sinks.push_reserved(tx);
        self.out -= 1;
    }
}
