//! Reading texts off a source.

ghost use Rattle.std.specs.Prelude.{◌≡◌, ◌<◌, ◌≤◌, ◌-◌, ◌++◌, None, length, vec_len, IfOk, IsErrOf, OnOk};
ghost use Rattle.hms_outside.specs.Causes.{Rose, StaysBut};
ghost use Rattle.cat_values.specs.declared.text.TheConstants.{TEXT_LIMIT};
ghost use Rattle.thrift_binary.specs.Taking.{Judges, Reads};
ghost use Rattle.thrift_binary.specs.Wire.{IsBody, IsLength, IsString, IsText, StopsLength, StopsShort, StopsString};

use crate::numbers::int_of;
use crate::{WireFault, WireReader, bad_wire};
use cat_values::{TEXT_LIMIT, Text};
use hms_outside::Source;
use std::alloc::Global;

// For how many bytes of a text room is made at first, before any has come.
const PIECE: usize = 4096;

impl<'a, S: Source> WireReader<'a, S> {
    // The length of a text.
    pub(crate) fn length(&mut self) -> Result<usize, WireFault>
        ensures same_source { self.new.source.ghost_name ≡ self.old.source.ghost_name }
        ensures later { S.faults self.old.source.now ≤ S.faults self.new.source.now }
        ensures cause { self.old.progress.fault ≡ None → IsErrOf result WireFault.ReadFault → Rose (S.faults self.old.source.now) (S.faults self.new.source.now) }
        ensures stays { StaysBut WireFault.ReadFault result (S.faults self.old.source.now) (S.faults self.new.source.now) }
        ensures reads { Reads (S.left self.old.source.now) (S.left self.new.source.now) self.old.progress self.new.progress result IsLength StopsLength }
        ensures unspent { OnOk result (self.new.progress.fault ≡ None) }
        ensures bounded { IfOk result (λ n. n ≤ TEXT_LIMIT) }
    {
        let start = self.progress.place;
        let mut buf = [0; 4];
        self.exact(&mut buf)?;
        self.judged(length_of(&buf, start))
    }

    // Reads more of n bytes: as many as have come so far, and a piece at least.
    fn more(&mut self, bytes: &mut Vec<u8>, n: usize) -> Result<(), WireFault>
        requires unspent { self.old.progress.fault ≡ None }
        requires some { vec_len bytes.old < n }
        requires bounded { n ≤ TEXT_LIMIT }
        ensures same_source { self.new.source.ghost_name ≡ self.old.source.ghost_name }
        ensures later { S.faults self.old.source.now ≤ S.faults self.new.source.now }
        ensures cause { self.old.progress.fault ≡ None → IsErrOf result WireFault.ReadFault → Rose (S.faults self.old.source.now) (S.faults self.new.source.now) }
        ensures stays { StaysBut WireFault.ReadFault result (S.faults self.old.source.now) (S.faults self.new.source.now) }
        ensures reads { Reads (S.left self.old.source.now) (S.left self.new.source.now) self.old.progress self.new.progress result (λ _ taken. bytes.new.items ≡ bytes.old.items ++ taken) (StopsShort (n - vec_len bytes.old)) }
        ensures unspent { OnOk result (self.new.progress.fault ≡ None) }
        ensures forward { OnOk result (vec_len bytes.old < vec_len bytes.new) }
        ensures within { OnOk result (vec_len bytes.new ≤ n) }
    {
        let at = bytes.len();
        let room = (n - at).min(at.max(PIECE));
        if bytes.resize(at + room, 0).is_err() {
            return Err(self.spent(WireFault::NoMemory));
        }
        self.exact(&mut bytes[at..])
    }

    // So many bytes. Room is made as they come.
    pub(crate) fn body(&mut self, alloc: Global, n: usize) -> Result<Vec<u8>, WireFault>
        requires unspent { self.old.progress.fault ≡ None }
        requires bounded { n ≤ TEXT_LIMIT }
        ensures same_source { self.new.source.ghost_name ≡ self.old.source.ghost_name }
        ensures later { S.faults self.old.source.now ≤ S.faults self.new.source.now }
        ensures cause { self.old.progress.fault ≡ None → IsErrOf result WireFault.ReadFault → Rose (S.faults self.old.source.now) (S.faults self.new.source.now) }
        ensures stays { StaysBut WireFault.ReadFault result (S.faults self.old.source.now) (S.faults self.new.source.now) }
        ensures reads { Reads (S.left self.old.source.now) (S.left self.new.source.now) self.old.progress self.new.progress result (λ v. IsBody n v.items) (StopsShort n) }
        ensures unspent { OnOk result (self.new.progress.fault ≡ None) }
    {
        let mut bytes = Vec::new(alloc);
        while bytes.len() < n {
            self.more(&mut bytes, n)?;
        }
        Ok(bytes)
    }

    // The bytes of a text.
    fn string(&mut self, alloc: Global) -> Result<Vec<u8>, WireFault>
        ensures same_source { self.new.source.ghost_name ≡ self.old.source.ghost_name }
        ensures later { S.faults self.old.source.now ≤ S.faults self.new.source.now }
        ensures cause { self.old.progress.fault ≡ None → IsErrOf result WireFault.ReadFault → Rose (S.faults self.old.source.now) (S.faults self.new.source.now) }
        ensures stays { StaysBut WireFault.ReadFault result (S.faults self.old.source.now) (S.faults self.new.source.now) }
        ensures reads { Reads (S.left self.old.source.now) (S.left self.new.source.now) self.old.progress self.new.progress result (λ v. IsString v.items) StopsString }
        ensures unspent { OnOk result (self.new.progress.fault ≡ None) }
        ensures bounded { IfOk result (λ v. vec_len v ≤ TEXT_LIMIT) }
    {
        let n = self.length()?;
        self.body(alloc, n)
    }

    /// A text, or `None` where its bytes, which were read to their end, aren't UTF-8.
    pub fn text(&mut self, alloc: Global) -> Result<Option<Text>, WireFault>
        ensures same_source { self.new.source.ghost_name ≡ self.old.source.ghost_name }
        ensures later { S.faults self.old.source.now ≤ S.faults self.new.source.now }
        ensures cause { self.old.progress.fault ≡ None → IsErrOf result WireFault.ReadFault → Rose (S.faults self.old.source.now) (S.faults self.new.source.now) }
        ensures stays { StaysBut WireFault.ReadFault result (S.faults self.old.source.now) (S.faults self.new.source.now) }
        ensures reads { Reads (S.left self.old.source.now) (S.left self.new.source.now) self.old.progress self.new.progress result IsText StopsString }
        ensures unspent { OnOk result (self.new.progress.fault ≡ None) }
    {
        let bytes = self.string(alloc)?;
        Ok(Text::from_utf8(bytes))
    }
}

// The length of a text that four bytes at this place spell.
fn length_of(bytes: &[u8], start: u64) -> Result<usize, WireFault>
    requires { length bytes.now ≡ 4 }
    ensures judged { Judges start bytes.now result IsLength StopsLength }
    ensures bounded { IfOk result (λ n. n ≤ TEXT_LIMIT) }
{
    let n = int_of(bytes);
    if n < 0 {
        return Err(WireFault::BadWire(bad_wire::NEGATIVE, start));
    }
    let n = n as usize;
    if n > TEXT_LIMIT {
        return Err(WireFault::TooLarge(start));
    }
    Ok(n)
}
