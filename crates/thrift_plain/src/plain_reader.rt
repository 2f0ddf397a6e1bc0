//! The plain decoder's reader: a slice from which bytes, numbers and heads are taken.

ghost use Rattle.std.specs.Prelude.{◌≡◌, ◌<◌, ◌≤◌, ◌↔◌, ◌∷◌, [], length, IfOk, IfSome, IsTrue};
ghost use Rattle.cat_values.specs.declared.text.TheConstants.{TEXT_LIMIT};
ghost use Rattle.thrift_plain.specs.PlainReading.{StopsCount, Takes};
ghost use Rattle.thrift_binary.specs.Wire.{IsBody, IsCode, IsCount, IsElementType, IsField, IsFieldType, IsInt, IsLength, IsListHead, IsMapHead, IsShort, IsString, StopsField, StopsFieldType, StopsLength, StopsListHead, StopsMapHead, StopsShort, StopsString};

use cat_values::{NoMemory, TEXT_LIMIT};
use std::alloc::Global;
use thrift_binary::numbers::{int_of, short_of};
use thrift_binary::{COUNT_LIMIT, bad_wire, type_code};

/// Why decoding stops. Bytes that are left are counted, since a reader knows no place.
#[derive(Clone, Copy, Debug, PartialEq, Eq)]
pub(crate) enum Halt {
    /// The bytes end.
    Cut,
    /// Something can't stand here: which fault, and how many bytes are left from here on.
    Bad(u8, usize),
    /// Something is too large: how many bytes are left from here on.
    Large(usize),
    NoMemory,
}

impl From<NoMemory> for Halt {
    ghost use Rattle.thrift_plain.specs.declared.plain_reader.Halt.TheVariants.{NoMemory};

    ghost from_gives = { λ _ e. e ≡ NoMemory };

    fn from(_: NoMemory) -> Halt {
        Halt::NoMemory
    }
}

/// The bytes that are left.
#[derive(Drop)]
pub(crate) struct PlainReader<'a> {
    pub(crate) alloc: Global,
    pub(crate) rest: &'a [u8],
}

impl<'a> PlainReader<'a> {
    // So many bytes.
    pub(crate) fn take(&mut self, n: usize) -> Result<&'a [u8], Halt>
        ensures { Takes self.old.rest.now self.new.rest.now result (λ body. IsBody n body.now) (StopsShort n) }
    {
        if self.rest.len() < n {
            return Err(Halt::Cut);
        }
        let (front, rest) = self.rest.split_at(n);
        self.rest = rest;
        Ok(front)
    }

    // One byte.
    pub(crate) fn byte(&mut self) -> Result<u8, Halt>
        ensures { Takes self.old.rest.now self.new.rest.now result (λ byte bytes. bytes ≡ byte ∷ []) (StopsShort 1) }
    {
        Ok(self.take(1)?[0])
    }

    // A number of two bytes.
    fn short(&mut self) -> Result<i16, Halt>
        ensures { Takes self.old.rest.now self.new.rest.now result IsShort (StopsShort 2) }
    {
        Ok(short_of(self.take(2)?))
    }

    // A number of four bytes.
    pub(crate) fn int(&mut self) -> Result<i32, Halt>
        ensures { Takes self.old.rest.now self.new.rest.now result IsInt (StopsShort 4) }
    {
        Ok(int_of(self.take(4)?))
    }

    // The length of a text.
    fn length(&mut self) -> Result<usize, Halt>
        ensures { Takes self.old.rest.now self.new.rest.now result IsLength StopsLength }
    {
        let left = self.rest.len();
        let n = self.int()?;
        if n < 0 {
            return Err(Halt::Bad(bad_wire::NEGATIVE, left));
        }
        let n = n as usize;
        if n > TEXT_LIMIT {
            return Err(Halt::Large(left));
        }
        Ok(n)
    }

    // The bytes of a text.
    pub(crate) fn string(&mut self) -> Result<&'a [u8], Halt>
        ensures { Takes self.old.rest.now self.new.rest.now result (λ body. IsString body.now) StopsString }
    {
        let n = self.length()?;
        self.take(n)
    }

    // The type of a field, or the end of a struct.
    fn field_type(&mut self) -> Result<Option<u8>, Halt>
        ensures { Takes self.old.rest.now self.new.rest.now result IsFieldType StopsFieldType }
    {
        let left = self.rest.len();
        let ty = self.byte()?;
        if ty == type_code::STOP {
            return Ok(None);
        }
        if is_code(ty) {
            return Ok(Some(ty));
        }
        Err(Halt::Bad(bad_wire::TYPE, left))
    }

    // The type and the id of a field, or the end of a struct.
    pub(crate) fn field(&mut self) -> Result<Option<(u8, i16)>, Halt>
        ensures takes { Takes self.old.rest.now self.new.rest.now result IsField StopsField }
        ensures code { IfOk result (λ field. IfSome field (λ f. IsCode f.0)) }
    {
        match self.field_type()? {
            None => Ok(None),
            Some(ty) => {
                let id = self.short()?;
                Ok(Some((ty, id)))
            }
        }
    }

    // How many elements or pairs.
    fn count(&mut self) -> Result<u32, Halt>
        ensures { Takes self.old.rest.now self.new.rest.now result IsCount StopsCount }
    {
        let word = self.rest.len();
        let n = self.int()?;
        if n < 0 {
            return Err(Halt::Bad(bad_wire::NEGATIVE, word));
        }
        let n = n as u32;
        if n > COUNT_LIMIT {
            return Err(Halt::Large(word));
        }
        Ok(n)
    }

    // The head of a list or of a set. Its type is looked at only where elements follow.
    pub(crate) fn list_head(&mut self) -> Result<(u8, u32), Halt>
        ensures takes { Takes self.old.rest.now self.new.rest.now result (λ head. IsListHead head.0 head.1) StopsListHead }
        ensures code { IfOk result (λ head. IsElementType head.1 head.0) }
    {
        let of = self.rest.len();
        let ty = self.byte()?;
        let count = self.count()?;
        if may_follow(ty, count) {
            return Ok((ty, count));
        }
        Err(Halt::Bad(bad_wire::TYPE, of))
    }

    // The head of a map. Its types are looked at only where pairs follow.
    pub(crate) fn map_head(&mut self) -> Result<(u8, u8, u32), Halt>
        ensures takes { Takes self.old.rest.now self.new.rest.now result (λ head. IsMapHead head.0 head.1 head.2) StopsMapHead }
        ensures code { IfOk result (λ head. IsElementType head.2 head.0 × IsElementType head.2 head.1) }
    {
        let left = self.rest.len();
        let key = self.byte()?;
        let behind = self.rest.len();
        let value = self.byte()?;
        let count = self.count()?;
        if may_follow(key, count) {
            if may_follow(value, count) {
                return Ok((key, value, count));
            }
            return Err(Halt::Bad(bad_wire::TYPE, behind));
        }
        Err(Halt::Bad(bad_wire::TYPE, left))
    }
}

// Whether so many elements of such a type may follow.
fn may_follow(ty: u8, count: u32) -> bool
    ensures { IsTrue result ↔ IsElementType count ty }
{
    count == 0 || is_code(ty)
}

// Whether a byte is the code of a type.
fn is_code(ty: u8) -> bool
    ensures { IsTrue result ↔ IsCode ty }
{
    matches!(
        ty,
        type_code::BOOL
            | type_code::BYTE
            | type_code::DOUBLE
            | type_code::I16
            | type_code::I32
            | type_code::I64
            | type_code::STRING
            | type_code::STRUCT
            | type_code::MAP
            | type_code::SET
            | type_code::LIST
    )
}
