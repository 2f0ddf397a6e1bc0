//! The log of events.

ghost use Rattle.std.specs.Prelude.{◌≡◌, ℕ, ◌+◌, ◌-◌, ◌<◌, ◌≤◌, ◌^◌, suc, min, max, nat_lt, [], ◌∷◌, ◌++◌, length, take, drop, IfOk, IfErr, OnOk, OnErr, IsOk};
ghost use Rattle.std.specs.Option.{option_copied};
ghost use Rattle.std.specs.VecDeque.{deque_capacity, deque_len};
ghost use Rattle.notify_log.specs.Logs.{AreNumbered, event_with, events_above, events_between, is_of, next_number};

use cat_types::{Event, Events, LIST_END, ListOf, NoMemory, Text, TryCopy};
use std::alloc::Global;
use std::collections::VecDeque;
use std::marker::Model;

/// Events one after the other from a first kept number on. A call finds its place by arithmetic, so
/// its time doesn't grow with the events that are kept.
#[derive(Drop)]
pub struct EventLog {
    first: u64,
    events: VecDeque<Event>,
    alloc: Global,
}

impl Model for EventLog {
    ghost use Rattle.std.specs.Prelude.{◌+◌, ◌-◌, ◌<◌, ◌^◌};
    ghost use Rattle.std.specs.VecDeque.{deque_capacity, deque_len};
    ghost use Rattle.notify_log.specs.Logs.{AreNumbered, Kept};

    ghost Value = { Kept };

    ghost view = { λ log. record { first = log.first; events = log.events.items; spare = deque_capacity log.events - deque_len log.events } };

    ghost invariant = { λ log. AreNumbered log.first log.events.items × (log.first + deque_len log.events < 2 ^ 64) };
}

impl EventLog {
    /// A log that keeps no event yet, and whose next one has the number `first`.
    pub fn new(alloc: Global, first: u64) -> EventLog
        ensures first { result.first ≡ first }
        ensures events { result.events ≡ [] }
    {
        EventLog {
            first,
            events: VecDeque::new(alloc),
            alloc,
        }
    }

    /// The first kept number: that of the first kept event, or of the next one where none is kept.
    pub fn first(&self) -> u64
        ensures value { result ≡ self.now.first }
        ensures numbered { AreNumbered self.now.first self.now.events }
        ensures bounded { next_number self.now < 2 ^ 64 }
    {
        self.first
    }

    /// The kept event with this number.
    pub fn get(&self, id: u64) -> Option<&Event>
        ensures { option_copied result ≡ event_with id self.now.events }
    {
        if id < self.first {
            return None;
        }
        self.events.get((id - self.first) as usize)
    }

    /// Keeps an event, whose number must be the next one. Want of memory hands it back, and what
    /// was kept stays.
    pub fn push(&mut self, event: Event) -> Result<(), (NoMemory, Event)>
        requires next { event.id ≡ next_number self.old }
        requires numbers_left { event.id < 18446744073709551615 }
        ensures first { self.new.first ≡ self.old.first }
        ensures ok { OnOk result (self.new.events ≡ self.old.events ++ event ∷ []) }
        ensures err { OnErr result (self.new.events ≡ self.old.events) }
        ensures handed_back { IfErr result (λ given. given.1 ≡ event) }
        ensures succeeds { 0 < self.old.spare → IsOk result }
        ensures spare { self.old.spare ≤ self.new.spare + 1 }
    {
        match self.events.push_back(event) {
            Ok(()) => Ok(()),
            Err(refused) => Err((NoMemory, refused.value)),
        }
    }

    /// Makes room for one event at least, so that the next push succeeds.
    pub fn reserve(&mut self) -> Result<(), NoMemory>
        ensures first { self.new.first ≡ self.old.first }
        ensures events { self.new.events ≡ self.old.events }
        ensures room { OnOk result (0 < self.new.spare) }
        ensures spare { self.old.spare ≤ self.new.spare }
    {
        self.events.reserve(1)?;
        Ok(())
    }

    /// Copies of the kept events with a number above this one, in order, `max` of them at most.
    /// 2^31 events or more are no list, and count as want of memory.
    pub fn after(&self, id: u64, max: u64) -> Result<Events, NoMemory>
        ensures { IfOk result (λ events. events ≡ take max (events_above id self.now.events)) }
    {
        let start = self.count_upto(id);
        let left = self.events.len() - start;
        if max < left as u64 {
            return self.copies(start, max as usize);
        }
        self.copies(start, left)
    }

    /// Copies of the kept events that change the database with this name and born, with numbers above
    /// `after` and at most `end`, in order, `max` of them at most; and whether others follow. It looks at
    /// no event outside these numbers, and at none after the first that it leaves out.
    pub fn of_database(
        &self,
        db: &Text,
        born: u64,
        after: u64,
        end: u64,
        max: u64,
    ) -> Result<(Events, bool), NoMemory>
        ensures events { IfOk result (λ found. found.0 ≡ take max (events_between db.now born after end self.now.events)) }
        ensures more { IfOk result (λ found. found.1 ≡ nat_lt max (length (events_between db.now born after end self.now.events))) }
    {
        let mut events = ListOf::new(self.alloc);
        for at in self.count_upto(after)..self.count_upto(end) {
            let event = &self.events[at];
            if is_of(event, db, born) {
                if events.len() as u64 == max {
                    return Ok((events, true));
                }
                events.push(event.copy(self.alloc)?)?;
            }
        }
        Ok((events, false))
    }

    /// Takes off the kept events up to this number, which must be below the next one. No memory is
    /// given back, so that what was reserved stays so.
    pub fn trim(&mut self, upto: u64)
        requires { upto < next_number self.old }
        ensures first { self.new.first ≡ max self.old.first (upto + 1) }
        ensures events { self.new.events ≡ events_above upto self.old.events }
        ensures spare { self.old.spare ≤ self.new.spare }
    {
        let count = self.count_upto(upto);
        drop_front(&mut self.events, count);
        self.first += count as u64;
    }

    // How many of the kept events have a number up to this one.
    fn count_upto(&self, id: u64) -> usize
        ensures count { result ≡ min (suc id - self.now.first) (length self.now.events) }
        ensures below { events_above id self.now.events ≡ drop result self.now.events }
    {
        if id < self.first {
            return 0;
        }
        let offset = id - self.first;
        if offset >= self.events.len() as u64 {
            return self.events.len();
        }
        offset as usize + 1
    }

    // Copies of so many kept events from this place on.
    fn copies(&self, start: usize, count: usize) -> Result<Events, NoMemory>
        requires { start + count ≤ length self.now.events }
        ensures { IfOk result (λ events. events ≡ take count (drop start self.now.events)) }
    {
        if count >= LIST_END {
            return Err(NoMemory);
        }
        let mut events = Vec::with_capacity(self.alloc, count)?;
        for at in 0..count {
            events.push(self.events[start + at].copy(self.alloc)?)?;
        }
        ListOf::from_vec(events)
    }
}

// Whether an event changes the database with this name and born.
fn is_of(event: &Event, db: &Text, born: u64) -> bool
    ensures { result ≡ is_of db.now born event.now }
{
    db.cmp(&event.change.db).is_eq() && event.change.db_born == born
}

// Takes off so many events from the front.
fn drop_front(events: &mut VecDeque<Event>, count: usize)
    requires { count ≤ length events.old.items }
    ensures items { events.new.items ≡ drop count events.old.items }
    ensures capacity { deque_capacity events.new ≡ deque_capacity events.old }
    ensures len { deque_len events.new + count ≡ deque_len events.old }
{
    for _ in 0..count {
        let _first = events.pop_front();
    }
}
