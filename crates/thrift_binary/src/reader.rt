//! Reading values off a source: the reader, and how it takes bytes.

ghost use Rattle.std.specs.Prelude.{◌≡◌, ◌≢◌, ◌<◌, ◌≤◌, ◌-◌, List, ℕ, [], None, Some, length, MatchResult, IfErr, IsErrOf, OnOk};
ghost use Rattle.hms_outside.specs.Causes.{Rose, StaysBut};
ghost use Rattle.thrift_binary.specs.declared.limits.TheConstants.{DEPTH_LIMIT, SESSION_END};
ghost use Rattle.thrift_binary.specs.Taking.{Cut, Opens, Reads, Tells, closed, fresh, start};
ghost use Rattle.thrift_binary.specs.Wire.{StopsShort};

use crate::fill::fill;
use crate::{DEPTH_LIMIT, MESSAGE_LIMIT, Progress, SESSION_END, WireFault};
use hms_outside::{Outage, Source};

/// Reads messages off a source, as Thrift's binary protocol spells them. A place is the number of
/// bytes that were taken off the source before it. After a fault the reader is spent: each later
/// call answers the same fault, and takes nothing.
#[derive(Drop)]
pub struct WireReader<'a, S: Source> {
    pub(crate) source: &'a mut S,
    pub(crate) progress: Progress,
    ghost within: { progress.place ≤ progress.limit },
    ghost ends: { progress.limit ≤ SESSION_END },
    ghost depth: { progress.room ≤ DEPTH_LIMIT },
}

impl<'a, S: Source> WireReader<'a, S> {
    /// A reader at place 0.
    pub fn new(source: &'a mut S) -> WireReader<'a, S>
        ensures same_source { result.source.ghost_name ≡ source.entry.ghost_name }
        ensures source { result.source.now ≡ source.old }
        ensures progress { result.progress ≡ start }
    {
        let progress = Progress {
            place: 0,
            limit: MESSAGE_LIMIT,
            room: DEPTH_LIMIT,
            fault: None,
        };
        WireReader { source, progress }
    }

    // Fills the whole buffer.
    #[inline]
    pub(crate) fn exact(&mut self, buf: &mut [u8]) -> Result<(), WireFault>
        ensures same_source { self.new.source.ghost_name ≡ self.old.source.ghost_name }
        ensures later { S.faults self.old.source.now ≤ S.faults self.new.source.now }
        ensures cause { self.old.progress.fault ≡ None → IsErrOf result WireFault.ReadFault → Rose (S.faults self.old.source.now) (S.faults self.new.source.now) }
        ensures stays { StaysBut WireFault.ReadFault result (S.faults self.old.source.now) (S.faults self.new.source.now) }
        ensures reads { Reads (S.left self.old.source.now) (S.left self.new.source.now) self.old.progress self.new.progress result (λ _ bytes. bytes ≡ buf.new) (StopsShort (length buf.old)) }
        ensures unspent { OnOk result (self.new.progress.fault ≡ None) }
    {
        if let Some(fault) = self.progress.fault {
            return Err(fault);
        }
        if buf.len() as u64 > self.progress.limit - self.progress.place {
            let fault = past_limit(self.source, buf, self.progress.place, self.progress.limit);
            return Err(self.spent(fault));
        }
        match fill(self.source, buf) {
            Ok(count) => {
                if count < buf.len() {
                    let end = self.progress.place + count as u64;
                    return Err(self.spent(WireFault::Truncated(end)));
                }
                self.progress.place += count as u64;
                Ok(())
            }
            Err(Outage::Failed) => Err(self.spent(WireFault::ReadFault)),
            Err(Outage::NoMemory) => Err(self.spent(WireFault::NoMemory)),
        }
    }

    // Keeps the fault that ends the reading.
    pub(crate) fn spent(&mut self, fault: WireFault) -> WireFault
        ensures same_source { self.new.source.ghost_name ≡ self.old.source.ghost_name }
        ensures source { self.new.source.now ≡ self.old.source.now }
        ensures kept { self.new.progress.fault ≡ Some fault }
        ensures same { result ≡ fault }
    {
        self.progress.fault = Some(fault);
        fault
    }

    /// There was no memory to keep what was read: the reading ends, with the fault `NoMemory`.
    pub fn refused(&mut self) -> WireFault
        ensures same_source { self.new.source.ghost_name ≡ self.old.source.ghost_name }
        ensures source { self.new.source.now ≡ self.old.source.now }
        ensures kept { self.new.progress.fault ≡ Some WireFault.NoMemory }
        ensures same { result ≡ WireFault.NoMemory }
    {
        self.spent(WireFault::NoMemory)
    }

    // Keeps the fault of a verdict on what was read, if it is one.
    #[inline]
    pub(crate) fn judged<T>(&mut self, verdict: Result<T, WireFault>) -> Result<T, WireFault>
        ensures same_source { self.new.source.ghost_name ≡ self.old.source.ghost_name }
        ensures source { self.new.source.now ≡ self.old.source.now }
        ensures same { result ≡ verdict }
        ensures kept { MatchResult verdict (λ _. self.new.progress ≡ self.old.progress) (λ fault. self.new.progress.fault ≡ Some fault) }
    {
        if let Err(fault) = &verdict {
            self.progress.fault = Some(*fault);
        }
        verdict
    }

    /// A struct, a list, a set or a map begins here, inside those that are open; so this comes
    /// before the first `field` of a struct and before `list` or `map`, and `close` behind its
    /// end. Too many that are open are told at the place of its first byte, before that is read.
    pub fn open(&mut self) -> Result<(), WireFault>
        ensures same_source { self.new.source.ghost_name ≡ self.old.source.ghost_name }
        ensures source { self.new.source.now ≡ self.old.source.now }
        ensures opens { Opens (S.left self.old.source.now) (S.left self.new.source.now) self.old.progress self.new.progress result }
        ensures unspent { OnOk result (self.new.progress.fault ≡ None) }
        ensures room { OnOk result (self.new.progress.room < DEPTH_LIMIT) }
    {
        if let Some(fault) = self.progress.fault {
            return Err(fault);
        }
        if self.progress.room == 0 {
            return Err(self.spent(WireFault::TooLarge(self.progress.place)));
        }
        self.progress.room -= 1;
        Ok(())
    }

    /// A struct or a collection that was opened ends here.
    pub fn close(&mut self)
        requires { self.old.progress.room < DEPTH_LIMIT }
        ensures same_source { self.new.source.ghost_name ≡ self.old.source.ghost_name }
        ensures source { self.new.source.now ≡ self.old.source.now }
        ensures progress { self.new.progress ≡ closed self.old.progress }
    {
        self.progress.room += 1;
    }

    // A message begins here: its bytes are counted from here on, and nothing is open.
    pub(crate) fn begin(&mut self)
        ensures same_source { self.new.source.ghost_name ≡ self.old.source.ghost_name }
        ensures source { self.new.source.now ≡ self.old.source.now }
        ensures progress { self.new.progress ≡ fresh self.old.progress }
    {
        let room = MESSAGE_LIMIT.min(SESSION_END - self.progress.place);
        self.progress.limit = self.progress.place + room;
        self.progress.room = DEPTH_LIMIT;
    }
}

// Reads up to the limit where a buffer would go past it, and tells how the reading ends there.
fn past_limit<S: Source>(source: &mut S, buf: &mut [u8], place: u64, limit: u64) -> WireFault
    requires within { place ≤ limit }
    requires ends { limit ≤ SESSION_END }
    requires past { limit - place < length buf.old }
    ensures tells { (bytes : List ℕ) × (length bytes < length buf.old) × Tells (S.left source.old) (S.left source.new) place limit bytes Cut result }
    ensures later { S.faults source.old ≤ S.faults source.new }
    ensures cause { result ≡ WireFault.ReadFault → Rose (S.faults source.old) (S.faults source.new) }
    ensures stays { result ≢ WireFault.ReadFault → S.faults source.new ≡ S.faults source.old }
{
    let front = (limit - place) as usize;
    match fill(source, &mut buf[..front]) {
        Ok(count) => {
            if count < front {
                return WireFault::Truncated(place + count as u64);
            }
            further_byte(source, limit)
        }
        Err(Outage::Failed) => WireFault::ReadFault,
        Err(Outage::NoMemory) => WireFault::NoMemory,
    }
}

// Tells at the limit whether one more byte is there.
fn further_byte<S: Source>(source: &mut S, limit: u64) -> WireFault
    ensures tells { Tells (S.left source.old) (S.left source.new) limit limit [] Cut result }
    ensures later { S.faults source.old ≤ S.faults source.new }
    ensures cause { result ≡ WireFault.ReadFault → Rose (S.faults source.old) (S.faults source.new) }
    ensures stays { result ≢ WireFault.ReadFault → S.faults source.new ≡ S.faults source.old }
{
    let mut byte = [0; 1];
    match fill(source, &mut byte) {
        Ok(count) => {
            if count == 0 {
                return WireFault::Truncated(limit);
            }
            WireFault::TooLarge(limit)
        }
        Err(Outage::Failed) => WireFault::ReadFault,
        Err(Outage::NoMemory) => WireFault::NoMemory,
    }
}
