//! Reading the heads of messages, and whole messages, off a source.

ghost use Rattle.std.specs.Prelude.{◌≡◌, ◌<◌, ◌≤◌, ◌↔◌, ℕ, None, length, get_or, IfErr, IfNone, IfOk, IfSome, IsErrOf, IsTrue, OnOk, OnSome};
ghost use Rattle.std.specs.Io.KnownBytes.{IsAtEnd};
ghost use Rattle.hms_outside.specs.Causes.{Rose, StaysBut};
ghost use Rattle.cat_values.specs.declared.text.TheConstants.{TEXT_LIMIT};
ghost use Rattle.thrift_binary.specs.declared.limits.TheConstants.{SESSION_END};
ghost use Rattle.thrift_binary.specs.Messages.{Asks, IsHeadRest, IsKind, IsKinded, IsName, IsNamed, IsOldName, IsOldRest, IsOpening, IsStrictWord, KindsOf, StopsHead, StopsHeadRest, StopsKind, StopsKinded, StopsMessage, StopsName, StopsNamed, StopsOldName, StopsOldRest, StopsOpening};
ghost use Rattle.thrift_binary.specs.Openings.{IsBounded, IsHeadOrEnd, IsInside, IsMessageOrEnd, IsOpeningOrEnd, IsWordOrEnd, meant};
ghost use Rattle.thrift_binary.specs.Taking.{Judges, Reads, fresh};
ghost use Rattle.thrift_binary.specs.Wire.{StopsShort};

use crate::numbers::int_of;
use crate::{Direction, Head, WireFault, WireReader, bad_wire, message_kind, type_code};
use cat_values::{TEXT_LIMIT, Text};
use hms_outside::Source;
use std::alloc::Global;

// What the first word of a message tells: its kind in the strict form, or the length of its name
// in the old one.
#[derive(Clone, Copy)]
pub enum FirstWord {
    OfStrict(u8),
    OfOld(usize),
}

impl<'a, S: Source> WireReader<'a, S> {
    /// The head of the next message, a call in the strict form or the old one, or `None` exactly at
    /// the end of the input. Its bytes are counted from here on, and its argument struct comes
    /// next: `open`, `field` .., or `skip(12)`.
    pub fn head(&mut self, alloc: Global) -> Result<Option<Head>, WireFault>
        ensures same_source { self.new.source.ghost_name ≡ self.old.source.ghost_name }
        ensures later { S.faults self.old.source.now ≤ S.faults self.new.source.now }
        ensures cause { self.old.progress.fault ≡ None → IsErrOf result WireFault.ReadFault → Rose (S.faults self.old.source.now) (S.faults self.new.source.now) }
        ensures stays { StaysBut WireFault.ReadFault result (S.faults self.old.source.now) (S.faults self.new.source.now) }
        ensures reads { Reads (S.left self.old.source.now) (S.left self.new.source.now) (fresh self.old.progress) self.new.progress result (IsHeadOrEnd Asks) (StopsHead Asks) }
        ensures unspent { OnOk result (self.new.progress.fault ≡ None) }
        ensures end { IfOk result (λ head. IfNone head (IsAtEnd (S.left self.new.source.now))) }
        ensures inside { IfErr result (IsInside self.old.progress) }
    {
        self.head_of(alloc, Direction::Requests)
    }

    /// The head of the next message that goes in this direction, as `head` reads that of a call.
    pub fn head_of(
        &mut self,
        alloc: Global,
        direction: Direction,
    ) -> Result<Option<Head>, WireFault>
        ensures same_source { self.new.source.ghost_name ≡ self.old.source.ghost_name }
        ensures later { S.faults self.old.source.now ≤ S.faults self.new.source.now }
        ensures cause { self.old.progress.fault ≡ None → IsErrOf result WireFault.ReadFault → Rose (S.faults self.old.source.now) (S.faults self.new.source.now) }
        ensures stays { StaysBut WireFault.ReadFault result (S.faults self.old.source.now) (S.faults self.new.source.now) }
        ensures reads { Reads (S.left self.old.source.now) (S.left self.new.source.now) (fresh self.old.progress) self.new.progress result (IsHeadOrEnd (KindsOf direction)) (StopsHead (KindsOf direction)) }
        ensures unspent { OnOk result (self.new.progress.fault ≡ None) }
        ensures end { IfOk result (λ head. IfNone head (IsAtEnd (S.left self.new.source.now))) }
        ensures inside { IfErr result (IsInside self.old.progress) }
    {
        self.begin();
        let Some(opening) = self.opening(direction)? else {
            return Ok(None);
        };
        let head = self.head_rest(alloc, direction, opening)?;
        Ok(Some(head))
    }

    /// The next call, whose arguments are passed, or `None` exactly at the end of the input.
    pub fn message(&mut self, alloc: Global) -> Result<Option<Head>, WireFault>
        ensures same_source { self.new.source.ghost_name ≡ self.old.source.ghost_name }
        ensures later { S.faults self.old.source.now ≤ S.faults self.new.source.now }
        ensures cause { self.old.progress.fault ≡ None → IsErrOf result WireFault.ReadFault → Rose (S.faults self.old.source.now) (S.faults self.new.source.now) }
        ensures stays { StaysBut WireFault.ReadFault result (S.faults self.old.source.now) (S.faults self.new.source.now) }
        ensures reads { Reads (S.left self.old.source.now) (S.left self.new.source.now) (fresh self.old.progress) self.new.progress result (IsMessageOrEnd Asks) (StopsMessage Asks) }
        ensures unspent { OnOk result (self.new.progress.fault ≡ None) }
        ensures end { IfOk result (λ head. IfNone head (IsAtEnd (S.left self.new.source.now))) }
        ensures inside { IfErr result (IsInside self.old.progress) }
        ensures forward { IfOk result (λ head. OnSome head (self.old.progress.place < self.new.progress.place)) }
    {
        self.message_of(alloc, Direction::Requests)
    }

    /// The next message that goes in this direction, whose struct is passed, or `None` exactly at
    /// the end of the input.
    pub fn message_of(
        &mut self,
        alloc: Global,
        direction: Direction,
    ) -> Result<Option<Head>, WireFault>
        ensures same_source { self.new.source.ghost_name ≡ self.old.source.ghost_name }
        ensures later { S.faults self.old.source.now ≤ S.faults self.new.source.now }
        ensures cause { self.old.progress.fault ≡ None → IsErrOf result WireFault.ReadFault → Rose (S.faults self.old.source.now) (S.faults self.new.source.now) }
        ensures stays { StaysBut WireFault.ReadFault result (S.faults self.old.source.now) (S.faults self.new.source.now) }
        ensures reads { Reads (S.left self.old.source.now) (S.left self.new.source.now) (fresh self.old.progress) self.new.progress result (IsMessageOrEnd (KindsOf direction)) (StopsMessage (KindsOf direction)) }
        ensures unspent { OnOk result (self.new.progress.fault ≡ None) }
        ensures end { IfOk result (λ head. IfNone head (IsAtEnd (S.left self.new.source.now))) }
        ensures inside { IfErr result (IsInside self.old.progress) }
        ensures forward { IfOk result (λ head. OnSome head (self.old.progress.place < self.new.progress.place)) }
    {
        match self.head_of(alloc, direction)? {
            None => Ok(None),
            Some(head) => {
                self.skip(type_code::STRUCT)?;
                Ok(Some(head))
            }
        }
    }

    // What the first word of a message tells. The input may end in its place.
    fn opening(&mut self, direction: Direction) -> Result<Option<FirstWord>, WireFault>
        ensures same_source { self.new.source.ghost_name ≡ self.old.source.ghost_name }
        ensures later { S.faults self.old.source.now ≤ S.faults self.new.source.now }
        ensures cause { self.old.progress.fault ≡ None → IsErrOf result WireFault.ReadFault → Rose (S.faults self.old.source.now) (S.faults self.new.source.now) }
        ensures stays { StaysBut WireFault.ReadFault result (S.faults self.old.source.now) (S.faults self.new.source.now) }
        ensures reads { Reads (S.left self.old.source.now) (S.left self.new.source.now) self.old.progress self.new.progress result (IsOpeningOrEnd (KindsOf direction)) (StopsOpening (KindsOf direction)) }
        ensures unspent { OnOk result (self.new.progress.fault ≡ None) }
        ensures end { IfOk result (λ found. IfNone found (IsAtEnd (S.left self.new.source.now))) }
        ensures inside { IfErr result (IsInside self.old.progress) }
        ensures bounded { IfOk result (λ found. IfSome found IsBounded) }
    {
        let start = self.progress.place;
        let Some(word) = self.first_word()? else {
            return Ok(None);
        };
        let opening = self.judged(opening_of(direction, &word, start))?;
        Ok(Some(opening))
    }

    // The first word of a message. The input may end in its place.
    fn first_word(&mut self) -> Result<Option<[u8; 4]>, WireFault>
        ensures same_source { self.new.source.ghost_name ≡ self.old.source.ghost_name }
        ensures later { S.faults self.old.source.now ≤ S.faults self.new.source.now }
        ensures cause { self.old.progress.fault ≡ None → IsErrOf result WireFault.ReadFault → Rose (S.faults self.old.source.now) (S.faults self.new.source.now) }
        ensures stays { StaysBut WireFault.ReadFault result (S.faults self.old.source.now) (S.faults self.new.source.now) }
        ensures reads { Reads (S.left self.old.source.now) (S.left self.new.source.now) self.old.progress self.new.progress result IsWordOrEnd (StopsShort 4) }
        ensures unspent { OnOk result (self.new.progress.fault ≡ None) }
        ensures end { IfOk result (λ word. IfNone word (IsAtEnd (S.left self.new.source.now))) }
        ensures inside { IfErr result (IsInside self.old.progress) }
    {
        if let Some(fault) = self.progress.fault {
            return Err(fault);
        }
        let before = self.progress;
        let mut word = [0; 4];
        match self.exact(&mut word) {
            Ok(()) => Ok(Some(word)),
            Err(fault) => {
                if is_cut_at(fault, before.place) {
                    self.progress = before;
                    return Ok(None);
                }
                Err(fault)
            }
        }
    }

    // What stands behind the first word of a head.
    fn head_rest(
        &mut self,
        alloc: Global,
        direction: Direction,
        opening: FirstWord,
    ) -> Result<Head, WireFault>
        requires unspent { self.old.progress.fault ≡ None }
        requires bounded { IsBounded opening }
        ensures same_source { self.new.source.ghost_name ≡ self.old.source.ghost_name }
        ensures later { S.faults self.old.source.now ≤ S.faults self.new.source.now }
        ensures cause { self.old.progress.fault ≡ None → IsErrOf result WireFault.ReadFault → Rose (S.faults self.old.source.now) (S.faults self.new.source.now) }
        ensures stays { StaysBut WireFault.ReadFault result (S.faults self.old.source.now) (S.faults self.new.source.now) }
        ensures reads { Reads (S.left self.old.source.now) (S.left self.new.source.now) self.old.progress self.new.progress result (IsHeadRest (KindsOf direction) (meant opening)) (StopsHeadRest (KindsOf direction) (meant opening)) }
        ensures unspent { OnOk result (self.new.progress.fault ≡ None) }
    {
        match opening {
            FirstWord::OfStrict(kind) => {
                let (name, sequence) = self.named(alloc)?;
                Ok(Head {
                    name,
                    kind,
                    sequence,
                })
            }
            FirstWord::OfOld(length) => self.old_rest(alloc, direction, length),
        }
    }

    // In the strict form, a name and a sequence id.
    fn named(&mut self, alloc: Global) -> Result<(Text, i32), WireFault>
        ensures same_source { self.new.source.ghost_name ≡ self.old.source.ghost_name }
        ensures later { S.faults self.old.source.now ≤ S.faults self.new.source.now }
        ensures cause { self.old.progress.fault ≡ None → IsErrOf result WireFault.ReadFault → Rose (S.faults self.old.source.now) (S.faults self.new.source.now) }
        ensures stays { StaysBut WireFault.ReadFault result (S.faults self.old.source.now) (S.faults self.new.source.now) }
        ensures reads { Reads (S.left self.old.source.now) (S.left self.new.source.now) self.old.progress self.new.progress result IsNamed StopsNamed }
        ensures unspent { OnOk result (self.new.progress.fault ≡ None) }
    {
        let name = self.name(alloc)?;
        let sequence = self.int()?;
        Ok((name, sequence))
    }

    // In the strict form, the name of a message.
    fn name(&mut self, alloc: Global) -> Result<Text, WireFault>
        ensures same_source { self.new.source.ghost_name ≡ self.old.source.ghost_name }
        ensures later { S.faults self.old.source.now ≤ S.faults self.new.source.now }
        ensures cause { self.old.progress.fault ≡ None → IsErrOf result WireFault.ReadFault → Rose (S.faults self.old.source.now) (S.faults self.new.source.now) }
        ensures stays { StaysBut WireFault.ReadFault result (S.faults self.old.source.now) (S.faults self.new.source.now) }
        ensures reads { Reads (S.left self.old.source.now) (S.left self.new.source.now) self.old.progress self.new.progress result IsName StopsName }
        ensures unspent { OnOk result (self.new.progress.fault ≡ None) }
    {
        let start = self.progress.place;
        match self.text(alloc)? {
            Some(name) => Ok(name),
            None => Err(self.spent(WireFault::BadWire(bad_wire::NAME, start + 4))),
        }
    }

    // In the old form, a name of so many bytes, a kind and a sequence id.
    fn old_rest(
        &mut self,
        alloc: Global,
        direction: Direction,
        length: usize,
    ) -> Result<Head, WireFault>
        requires unspent { self.old.progress.fault ≡ None }
        requires bounded { length ≤ TEXT_LIMIT }
        ensures same_source { self.new.source.ghost_name ≡ self.old.source.ghost_name }
        ensures later { S.faults self.old.source.now ≤ S.faults self.new.source.now }
        ensures cause { self.old.progress.fault ≡ None → IsErrOf result WireFault.ReadFault → Rose (S.faults self.old.source.now) (S.faults self.new.source.now) }
        ensures stays { StaysBut WireFault.ReadFault result (S.faults self.old.source.now) (S.faults self.new.source.now) }
        ensures reads { Reads (S.left self.old.source.now) (S.left self.new.source.now) self.old.progress self.new.progress result (IsOldRest (KindsOf direction) length) (StopsOldRest (KindsOf direction) length) }
        ensures unspent { OnOk result (self.new.progress.fault ≡ None) }
    {
        let name = self.old_name(alloc, length)?;
        let (kind, sequence) = self.kinded(direction)?;
        Ok(Head {
            name,
            kind,
            sequence,
        })
    }

    // In the old form, a name of so many bytes.
    fn old_name(&mut self, alloc: Global, length: usize) -> Result<Text, WireFault>
        requires unspent { self.old.progress.fault ≡ None }
        requires bounded { length ≤ TEXT_LIMIT }
        ensures same_source { self.new.source.ghost_name ≡ self.old.source.ghost_name }
        ensures later { S.faults self.old.source.now ≤ S.faults self.new.source.now }
        ensures cause { self.old.progress.fault ≡ None → IsErrOf result WireFault.ReadFault → Rose (S.faults self.old.source.now) (S.faults self.new.source.now) }
        ensures stays { StaysBut WireFault.ReadFault result (S.faults self.old.source.now) (S.faults self.new.source.now) }
        ensures reads { Reads (S.left self.old.source.now) (S.left self.new.source.now) self.old.progress self.new.progress result (IsOldName length) (StopsOldName length) }
        ensures unspent { OnOk result (self.new.progress.fault ≡ None) }
    {
        let start = self.progress.place;
        let bytes = self.body(alloc, length)?;
        match Text::from_utf8(bytes) {
            Some(name) => Ok(name),
            None => Err(self.spent(WireFault::BadWire(bad_wire::NAME, start))),
        }
    }

    // In the old form, a kind and a sequence id.
    fn kinded(&mut self, direction: Direction) -> Result<(u8, i32), WireFault>
        ensures same_source { self.new.source.ghost_name ≡ self.old.source.ghost_name }
        ensures later { S.faults self.old.source.now ≤ S.faults self.new.source.now }
        ensures cause { self.old.progress.fault ≡ None → IsErrOf result WireFault.ReadFault → Rose (S.faults self.old.source.now) (S.faults self.new.source.now) }
        ensures stays { StaysBut WireFault.ReadFault result (S.faults self.old.source.now) (S.faults self.new.source.now) }
        ensures reads { Reads (S.left self.old.source.now) (S.left self.new.source.now) self.old.progress self.new.progress result (IsKinded (KindsOf direction)) (StopsKinded (KindsOf direction)) }
        ensures unspent { OnOk result (self.new.progress.fault ≡ None) }
    {
        let kind = self.kind(direction)?;
        let sequence = self.int()?;
        Ok((kind, sequence))
    }

    // In the old form, the kind of a message.
    fn kind(&mut self, direction: Direction) -> Result<u8, WireFault>
        ensures same_source { self.new.source.ghost_name ≡ self.old.source.ghost_name }
        ensures later { S.faults self.old.source.now ≤ S.faults self.new.source.now }
        ensures cause { self.old.progress.fault ≡ None → IsErrOf result WireFault.ReadFault → Rose (S.faults self.old.source.now) (S.faults self.new.source.now) }
        ensures stays { StaysBut WireFault.ReadFault result (S.faults self.old.source.now) (S.faults self.new.source.now) }
        ensures reads { Reads (S.left self.old.source.now) (S.left self.new.source.now) self.old.progress self.new.progress result (IsKind (KindsOf direction)) (StopsKind (KindsOf direction)) }
        ensures unspent { OnOk result (self.new.progress.fault ≡ None) }
    {
        let start = self.progress.place;
        let mut buf = [0; 1];
        self.exact(&mut buf)?;
        self.judged(kind_of(direction, &buf, start))
    }
}

// What the first word of a message, at this place, tells.
fn opening_of(direction: Direction, word: &[u8], start: u64) -> Result<FirstWord, WireFault>
    requires four { length word.now ≡ 4 }
    requires place { start ≤ SESSION_END }
    ensures judged { Judges start word.now result (λ found. IsOpening (KindsOf direction) (meant found)) (StopsOpening (KindsOf direction)) }
    ensures bounded { IfOk result IsBounded }
{
    if is_strict(word) {
        if is_kind(direction, word[3]) {
            return Ok(FirstWord::OfStrict(word[3]));
        }
        return Err(WireFault::BadWire(bad_wire::KIND, start + 3));
    }
    let n = int_of(word);
    if n < 0 {
        return Err(WireFault::BadWire(bad_wire::VERSION, start));
    }
    let n = n as usize;
    if n > TEXT_LIMIT {
        return Err(WireFault::TooLarge(start));
    }
    Ok(FirstWord::OfOld(n))
}

// The kind that a byte at this place spells.
fn kind_of(direction: Direction, bytes: &[u8], start: u64) -> Result<u8, WireFault>
    requires { length bytes.now ≡ 1 }
    ensures { Judges start bytes.now result (IsKind (KindsOf direction)) (StopsKind (KindsOf direction)) }
{
    if is_kind(direction, bytes[0]) {
        return Ok(bytes[0]);
    }
    Err(WireFault::BadWire(bad_wire::KIND, start))
}

// Whether a message of this kind goes in this direction.
fn is_kind(direction: Direction, kind: u8) -> bool
    ensures { IsTrue result ↔ KindsOf direction kind }
{
    match direction {
        Direction::Requests => kind == message_kind::CALL || kind == message_kind::ONEWAY,
        Direction::Replies => kind == message_kind::REPLY || kind == message_kind::EXCEPTION,
    }
}

// Whether four bytes are a word of the strict form.
#[tactic(auto, using(crate::proofs::Openers::strict_yes, crate::proofs::Openers::strict_first, crate::proofs::Openers::strict_second))]
fn is_strict(word: &[u8]) -> bool
    requires { length word.now ≡ 4 }
    ensures yes { IsTrue result → IsStrictWord (get_or word.now 3 0) word.now }
    ensures no { (kind : ℕ) → IsStrictWord kind word.now → IsTrue result }
{
    word[0] == 128 && word[1] == 1
}

// Whether the input ended at this place.
fn is_cut_at(fault: WireFault, place: u64) -> bool
    ensures { IsTrue result ↔ (fault ≡ WireFault.Truncated place) }
{
    match fault {
        WireFault::Truncated(end) => end == place,
        _ => false,
    }
}
