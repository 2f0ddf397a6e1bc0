//! Reading the heads of fields and collections off a source.

ghost use Rattle.std.specs.Prelude.{◌≡◌, ◌≢◌, ◌<◌, ◌≤◌, ◌↔◌, None, length, IfOk, IfSome, IsErrOf, IsTrue, OnOk};
ghost use Rattle.hms_outside.specs.Causes.{Rose, StaysBut};
ghost use Rattle.thrift_binary.specs.declared.limits.TheConstants.{COUNT_LIMIT, SESSION_END};
ghost use Rattle.thrift_binary.specs.Taking.{Judges, Reads};
ghost use Rattle.thrift_binary.specs.Wire.{IsCode, IsCount, IsElementType, IsField, IsFieldType, IsListHead, IsMapHead, IsNoCount, StopsField, StopsFieldType, StopsListHead, StopsMapHead};

use crate::numbers::int_of;
use crate::{COUNT_LIMIT, WireFault, WireReader, bad_wire, type_code};
use hms_outside::Source;

impl<'a, S: Source> WireReader<'a, S> {
    // The type of a struct's next field, or `None` at the struct's end.
    fn field_type(&mut self) -> Result<Option<u8>, WireFault>
        ensures same_source { self.new.source.ghost_name ≡ self.old.source.ghost_name }
        ensures later { S.faults self.old.source.now ≤ S.faults self.new.source.now }
        ensures cause { self.old.progress.fault ≡ None → IsErrOf result WireFault.ReadFault → Rose (S.faults self.old.source.now) (S.faults self.new.source.now) }
        ensures stays { StaysBut WireFault.ReadFault result (S.faults self.old.source.now) (S.faults self.new.source.now) }
        ensures reads { Reads (S.left self.old.source.now) (S.left self.new.source.now) self.old.progress self.new.progress result IsFieldType StopsFieldType }
        ensures unspent { OnOk result (self.new.progress.fault ≡ None) }
        ensures code { IfOk result (λ found. IfSome found IsCode) }
    {
        let start = self.progress.place;
        let mut buf = [0; 1];
        self.exact(&mut buf)?;
        self.judged(field_type_of(&buf, start))
    }

    /// The type and the id of a struct's next field, or `None` at the struct's end.
    pub fn field(&mut self) -> Result<Option<(u8, i16)>, WireFault>
        ensures same_source { self.new.source.ghost_name ≡ self.old.source.ghost_name }
        ensures later { S.faults self.old.source.now ≤ S.faults self.new.source.now }
        ensures cause { self.old.progress.fault ≡ None → IsErrOf result WireFault.ReadFault → Rose (S.faults self.old.source.now) (S.faults self.new.source.now) }
        ensures stays { StaysBut WireFault.ReadFault result (S.faults self.old.source.now) (S.faults self.new.source.now) }
        ensures reads { Reads (S.left self.old.source.now) (S.left self.new.source.now) self.old.progress self.new.progress result IsField StopsField }
        ensures unspent { OnOk result (self.new.progress.fault ≡ None) }
        ensures code { IfOk result (λ found. IfSome found (λ field. IsCode field.0)) }
        ensures forward { OnOk result (self.old.progress.place < self.new.progress.place) }
    {
        let Some(ty) = self.field_type()? else {
            return Ok(None);
        };
        let id = self.short()?;
        Ok(Some((ty, id)))
    }

    /// The head of a list or a set: the type of its elements, and how many they are.
    pub fn list(&mut self) -> Result<(u8, u32), WireFault>
        ensures same_source { self.new.source.ghost_name ≡ self.old.source.ghost_name }
        ensures later { S.faults self.old.source.now ≤ S.faults self.new.source.now }
        ensures cause { self.old.progress.fault ≡ None → IsErrOf result WireFault.ReadFault → Rose (S.faults self.old.source.now) (S.faults self.new.source.now) }
        ensures stays { StaysBut WireFault.ReadFault result (S.faults self.old.source.now) (S.faults self.new.source.now) }
        ensures reads { Reads (S.left self.old.source.now) (S.left self.new.source.now) self.old.progress self.new.progress result (λ head. IsListHead head.0 head.1) StopsListHead }
        ensures unspent { OnOk result (self.new.progress.fault ≡ None) }
        ensures code { IfOk result (λ head. IsElementType head.1 head.0) }
        ensures bounded { IfOk result (λ head. head.1 ≤ COUNT_LIMIT) }
    {
        let start = self.progress.place;
        let mut buf = [0; 5];
        self.exact(&mut buf)?;
        self.judged(list_head_of(&buf, start))
    }

    /// The head of a map: the type of its keys, that of its values, and how many pairs there are.
    pub fn map(&mut self) -> Result<(u8, u8, u32), WireFault>
        ensures same_source { self.new.source.ghost_name ≡ self.old.source.ghost_name }
        ensures later { S.faults self.old.source.now ≤ S.faults self.new.source.now }
        ensures cause { self.old.progress.fault ≡ None → IsErrOf result WireFault.ReadFault → Rose (S.faults self.old.source.now) (S.faults self.new.source.now) }
        ensures stays { StaysBut WireFault.ReadFault result (S.faults self.old.source.now) (S.faults self.new.source.now) }
        ensures reads { Reads (S.left self.old.source.now) (S.left self.new.source.now) self.old.progress self.new.progress result (λ head. IsMapHead head.0 head.1 head.2) StopsMapHead }
        ensures unspent { OnOk result (self.new.progress.fault ≡ None) }
        ensures keys { IfOk result (λ head. IsElementType head.2 head.0) }
        ensures values { IfOk result (λ head. IsElementType head.2 head.1) }
        ensures bounded { IfOk result (λ head. head.2 ≤ COUNT_LIMIT) }
    {
        let start = self.progress.place;
        let mut buf = [0; 6];
        self.exact(&mut buf)?;
        self.judged(map_head_of(&buf, start))
    }
}

// The type of a field that a byte at this place spells, or `None` for the end of its struct.
fn field_type_of(bytes: &[u8], start: u64) -> Result<Option<u8>, WireFault>
    requires { length bytes.now ≡ 1 }
    ensures judged { Judges start bytes.now result IsFieldType StopsFieldType }
    ensures code { IfOk result (λ found. IfSome found IsCode) }
{
    let ty = bytes[0];
    if ty == type_code::STOP {
        return Ok(None);
    }
    if is_code(ty) {
        return Ok(Some(ty));
    }
    Err(WireFault::BadWire(bad_wire::TYPE, start))
}

// The head of a list or a set that five bytes at this place spell.
fn list_head_of(bytes: &[u8], start: u64) -> Result<(u8, u32), WireFault>
    requires five { length bytes.now ≡ 5 }
    requires place { start ≤ SESSION_END }
    ensures judged { Judges start bytes.now result (λ head. IsListHead head.0 head.1) StopsListHead }
    ensures code { IfOk result (λ head. IsElementType head.1 head.0) }
    ensures bounded { IfOk result (λ head. head.1 ≤ COUNT_LIMIT) }
{
    let count = count_of(&[bytes[1], bytes[2], bytes[3], bytes[4]], start + 1)?;
    let ty = bytes[0];
    if is_element_type(count, ty) {
        return Ok((ty, count));
    }
    Err(WireFault::BadWire(bad_wire::TYPE, start))
}

// The head of a map that six bytes at this place spell.
fn map_head_of(bytes: &[u8], start: u64) -> Result<(u8, u8, u32), WireFault>
    requires six { length bytes.now ≡ 6 }
    requires place { start ≤ SESSION_END }
    ensures judged { Judges start bytes.now result (λ head. IsMapHead head.0 head.1 head.2) StopsMapHead }
    ensures keys { IfOk result (λ head. IsElementType head.2 head.0) }
    ensures values { IfOk result (λ head. IsElementType head.2 head.1) }
    ensures bounded { IfOk result (λ head. head.2 ≤ COUNT_LIMIT) }
{
    let count = count_of(&[bytes[2], bytes[3], bytes[4], bytes[5]], start + 2)?;
    let key = bytes[0];
    let value = bytes[1];
    if is_element_type(count, key) {
        if is_element_type(count, value) {
            return Ok((key, value, count));
        }
        return Err(WireFault::BadWire(bad_wire::TYPE, start + 1));
    }
    Err(WireFault::BadWire(bad_wire::TYPE, start))
}

// The count that four bytes at this place spell.
fn count_of(bytes: &[u8], start: u64) -> Result<u32, WireFault>
    requires { length bytes.now ≡ 4 }
    ensures judged { Judges start bytes.now result IsCount IsNoCount }
    ensures bounded { IfOk result (λ n. n ≤ COUNT_LIMIT) }
{
    let n = int_of(bytes);
    if n < 0 {
        return Err(WireFault::BadWire(bad_wire::NEGATIVE, start));
    }
    let n = n as u32;
    if n > COUNT_LIMIT {
        return Err(WireFault::TooLarge(start));
    }
    Ok(n)
}

// Whether elements of this type may follow; where there are none nobody looks at it.
fn is_element_type(count: u32, ty: u8) -> bool
    ensures { IsTrue result ↔ IsElementType count ty }
{
    count == 0 || is_code(ty)
}

// Whether this is the code of a type.
fn is_code(ty: u8) -> bool
    ensures { IsTrue result ↔ IsCode ty }
{
    matches!(
        ty,
        type_code::BOOL
            | type_code::BYTE
            | type_code::DOUBLE
            | type_code::I16
            | type_code::I32
            | type_code::I64
            | type_code::STRING
            | type_code::STRUCT
            | type_code::MAP
            | type_code::SET
            | type_code::LIST
    )
}
