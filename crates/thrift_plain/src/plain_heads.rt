//! The heads of messages, decoded.

ghost use Rattle.std.specs.Prelude.{◌≡◌, ◌≤◌, ◌↔◌, ℕ, length, IfOk, IfSome, IsTrue, MatchOption};
ghost use Rattle.std.specs.Str.{IsUtf8};
ghost use Rattle.cat_values.specs.declared.text.TheConstants.{TEXT_LIMIT};
ghost use Rattle.thrift_binary.specs.Messages.{Asks, IsHead, IsKind, IsKinded, IsName, IsNamed, IsOldName, IsOldRest, IsOpening, IsStrictWord, StopsHead, StopsKind, StopsKinded, StopsName, StopsNamed, StopsOldName, StopsOldRest, StopsOpening};
ghost use Rattle.thrift_plain.specs.PlainReading.{Takes, opening_of};

use crate::plain_reader::{Halt, PlainReader};
use cat_values::{NoMemory, TEXT_LIMIT, Text};
use std::alloc::Global;
use thrift_binary::numbers::int_of;
use thrift_binary::{Head, bad_wire, message_kind};

/// What the first word of a message tells.
pub(crate) enum Opening {
    /// The kind of a message in the strict form.
    Strict(u8),
    /// The length of the name of one in the old form.
    Old(usize),
}

impl<'a> PlainReader<'a> {
    // The first word of a message.
    fn opening(&mut self) -> Result<Opening, Halt>
        ensures { Takes self.old.rest.now self.new.rest.now result (λ opening. IsOpening Asks (opening_of opening)) (StopsOpening Asks) }
    {
        let left = self.rest.len();
        let word = self.take(4)?;
        if is_strict(word) {
            if asks(word[3]) {
                return Ok(Opening::Strict(word[3]));
            }
            return Err(Halt::Bad(bad_wire::KIND, left - 3));
        }
        let n = int_of(word);
        if n < 0 {
            return Err(Halt::Bad(bad_wire::VERSION, left));
        }
        let n = n as usize;
        if n > TEXT_LIMIT {
            return Err(Halt::Large(left));
        }
        Ok(Opening::Old(n))
    }

    // A name in UTF-8, with its length before it.
    fn name(&mut self) -> Result<Text, Halt>
        ensures { Takes self.old.rest.now self.new.rest.now result IsName StopsName }
    {
        let left = self.rest.len();
        let body = self.string()?;
        match text_of(self.alloc, body)? {
            Some(name) => Ok(name),
            None => Err(Halt::Bad(bad_wire::NAME, left - 4)),
        }
    }

    // In the strict form: the name and the sequence id.
    fn named(&mut self) -> Result<(Text, i32), Halt>
        ensures { Takes self.old.rest.now self.new.rest.now result IsNamed StopsNamed }
    {
        let name = self.name()?;
        let sequence = self.int()?;
        Ok((name, sequence))
    }

    // In the old form: a name of so many bytes.
    fn old_name(&mut self, n: usize) -> Result<Text, Halt>
        requires { n ≤ TEXT_LIMIT }
        ensures { Takes self.old.rest.now self.new.rest.now result (IsOldName n) (StopsOldName n) }
    {
        let left = self.rest.len();
        let body = self.take(n)?;
        match text_of(self.alloc, body)? {
            Some(name) => Ok(name),
            None => Err(Halt::Bad(bad_wire::NAME, left)),
        }
    }

    // In the old form: the kind.
    fn kind(&mut self) -> Result<u8, Halt>
        ensures { Takes self.old.rest.now self.new.rest.now result (IsKind Asks) (StopsKind Asks) }
    {
        let left = self.rest.len();
        let kind = self.byte()?;
        if asks(kind) {
            return Ok(kind);
        }
        Err(Halt::Bad(bad_wire::KIND, left))
    }

    // In the old form: the kind and the sequence id.
    fn kinded(&mut self) -> Result<(u8, i32), Halt>
        ensures { Takes self.old.rest.now self.new.rest.now result (IsKinded Asks) (StopsKinded Asks) }
    {
        let kind = self.kind()?;
        let sequence = self.int()?;
        Ok((kind, sequence))
    }

    // In the old form: what stands behind the length of the name.
    fn old_rest(&mut self, n: usize) -> Result<Head, Halt>
        requires { n ≤ TEXT_LIMIT }
        ensures { Takes self.old.rest.now self.new.rest.now result (IsOldRest Asks n) (StopsOldRest Asks n) }
    {
        let name = self.old_name(n)?;
        let (kind, sequence) = self.kinded()?;
        Ok(Head {
            name,
            kind,
            sequence,
        })
    }

    // The head of a message, and whether it is in the strict form.
    pub(crate) fn head(&mut self) -> Result<(bool, Head), Halt>
        ensures { Takes self.old.rest.now self.new.rest.now result (IsHead Asks) (StopsHead Asks) }
    {
        match self.opening()? {
            Opening::Strict(kind) => {
                let (name, sequence) = self.named()?;
                let head = Head {
                    name,
                    kind,
                    sequence,
                };
                Ok((true, head))
            }
            Opening::Old(n) => {
                let head = self.old_rest(n)?;
                Ok((false, head))
            }
        }
    }
}

// Whether four bytes are a word of the strict form.
#[tactic(auto, using(crate::proofs::Words::four))]
fn is_strict(word: &[u8]) -> bool
    requires { length word.now ≡ 4 }
    ensures { IsTrue result ↔ ((kind : ℕ) × IsStrictWord kind word.now) }
{
    word[0] == 128 && word[1] == 1
}

// Whether a message of this kind asks: a call, or one that wants no reply.
fn asks(kind: u8) -> bool
    ensures { IsTrue result ↔ Asks kind }
{
    matches!(kind, message_kind::CALL | message_kind::ONEWAY)
}

// The text with these bytes, or nothing where they aren't UTF-8.
fn text_of(alloc: Global, bytes: &[u8]) -> Result<Option<Text>, NoMemory>
    requires { length bytes.now ≤ TEXT_LIMIT }
    ensures { IfOk result (λ text. MatchOption text (IsUtf8 bytes.now → ⊥) (λ t. (t ≡ bytes.now) × IsUtf8 bytes.now)) }
{
    Ok(Text::from_utf8(Vec::from_slice(alloc, bytes)?))
}
