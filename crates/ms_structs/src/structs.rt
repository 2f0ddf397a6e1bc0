//! Structs off the wire, field by field.

ghost use Rattle.std.specs.Prelude.{◌≡◌, ℕ, ℤ, ◌≤◌, Option, None, IsErrOf};
ghost use Rattle.hms_outside.specs.Causes.{Rose, StaysBut};
ghost use Rattle.ms_structs.specs.Getting.{ReadsTree, Makes};
ghost use Rattle.thrift_binary.specs.Codes.{struct_code};
ghost use Rattle.thrift_binary.specs.Tree.{Struct, Wire};
ghost use Rattle.thrift_binary.specs.Wire.{IsCode, IsStruct, IsWire, StopsFields, StopsWire};
ghost use Rattle.ms_structs.specs.declared.got.Got.{Got};
ghost use Rattle.ms_structs.specs.Slots.{fold_fields, made_of, struct_of};

use crate::{Got, StructFault, said_or_bad};
use hms_outside::Source;
use std::alloc::Global;
use thrift_binary::{WireFault, WireReader};

/// What gathers the fields of a struct: a slot for each field that is known.
pub trait FieldSink: Drop {
    /// The slots before the first field.
    ghost none: { Self };

    /// The slots behind one more field, of this type and id.
    ghost set: { Self → ℕ → ℤ → Wire → Self };

    /// The slots before the first field.
    fn empty() -> Self
        ensures { result ≡ none };

    /// Reads or skips the value of one field.
    fn take<S: Source>(
        &mut self,
        alloc: Global,
        reader: &mut WireReader<'_, S>,
        ty: u8,
        id: i16,
    ) -> Result<(), WireFault>
        requires { IsCode ty }
        ensures same_source { reader.new.source.ghost_name ≡ reader.old.source.ghost_name }
        ensures later { S.faults reader.old.source.now ≤ S.faults reader.new.source.now }
        ensures cause { reader.old.progress.fault ≡ None → IsErrOf result WireFault.ReadFault → Rose (S.faults reader.old.source.now) (S.faults reader.new.source.now) }
        ensures stays { StaysBut WireFault.ReadFault result (S.faults reader.old.source.now) (S.faults reader.new.source.now) }
        ensures reads { ReadsTree (S.left reader.old.source.now) (S.left reader.new.source.now) reader.old.progress reader.new.progress result (λ w. IsWire w reader.old.progress.room ty) (λ w _. self.new ≡ set self.old ty id w) (StopsWire reader.old.progress.room ty) };
}

/// Slots that make a value of the struct.
pub trait StructSink: FieldSink {
    /// What the fields make.
    type Out: Drop;

    /// What the slots make; `None` where a text is bad.
    ghost whole: { Self → Option Self.Out };

    /// What the slots make.
    fn finish(self, alloc: Global) -> Option<Self::Out>
        ensures { result ≡ whole self };
}

// Reads the fields of a struct up to its end.
fn read_fields<F: FieldSink, S: Source>(
    alloc: Global,
    reader: &mut WireReader<'_, S>,
    slots: &mut F,
) -> Result<(), WireFault>
    requires { reader.old.progress.fault ≡ None }
    ensures same_source { reader.new.source.ghost_name ≡ reader.old.source.ghost_name }
    ensures later { S.faults reader.old.source.now ≤ S.faults reader.new.source.now }
    ensures cause { reader.old.progress.fault ≡ None → IsErrOf result WireFault.ReadFault → Rose (S.faults reader.old.source.now) (S.faults reader.new.source.now) }
    ensures stays { StaysBut WireFault.ReadFault result (S.faults reader.old.source.now) (S.faults reader.new.source.now) }
    ensures reads { ReadsTree (S.left reader.old.source.now) (S.left reader.new.source.now) reader.old.progress reader.new.progress result (λ v. IsStruct reader.old.progress.room v) (λ v _. slots.new ≡ fold_fields F.set slots.old v) (StopsFields reader.old.progress.room) }
{
    loop {
        match reader.field()? {
            None => return Ok(()),
            Some((ty, id)) => slots.take(alloc, reader, ty, id)?,
        }
    }
}

/// Reads a struct, and leaves its fields in their slots.
pub fn read_slots<F: FieldSink, S: Source>(
    alloc: Global,
    reader: &mut WireReader<'_, S>,
) -> Result<F, WireFault>
    ensures same_source { reader.new.source.ghost_name ≡ reader.old.source.ghost_name }
    ensures later { S.faults reader.old.source.now ≤ S.faults reader.new.source.now }
    ensures cause { reader.old.progress.fault ≡ None → IsErrOf result WireFault.ReadFault → Rose (S.faults reader.old.source.now) (S.faults reader.new.source.now) }
    ensures stays { StaysBut WireFault.ReadFault result (S.faults reader.old.source.now) (S.faults reader.new.source.now) }
    ensures reads { ReadsTree (S.left reader.old.source.now) (S.left reader.new.source.now) reader.old.progress reader.new.progress result (λ v. IsWire (Struct v) reader.old.progress.room struct_code) (λ v slots. slots ≡ fold_fields F.set F.none v) (StopsWire reader.old.progress.room struct_code) }
{
    reader.open()?;
    let mut slots = F::empty();
    read_fields(alloc, reader, &mut slots)?;
    reader.close();
    Ok(slots)
}

/// Reads a struct that stands in a field or in a list.
pub fn read_struct<F: StructSink, S: Source>(
    alloc: Global,
    reader: &mut WireReader<'_, S>,
) -> Result<Got<F::Out>, WireFault>
    ensures same_source { reader.new.source.ghost_name ≡ reader.old.source.ghost_name }
    ensures later { S.faults reader.old.source.now ≤ S.faults reader.new.source.now }
    ensures cause { reader.old.progress.fault ≡ None → IsErrOf result WireFault.ReadFault → Rose (S.faults reader.old.source.now) (S.faults reader.new.source.now) }
    ensures stays { StaysBut WireFault.ReadFault result (S.faults reader.old.source.now) (S.faults reader.new.source.now) }
    ensures reads { ReadsTree (S.left reader.old.source.now) (S.left reader.new.source.now) reader.old.progress reader.new.progress result (λ w. IsWire w reader.old.progress.room struct_code) (λ w got. got ≡ struct_of F.whole F.set F.none w) (StopsWire reader.old.progress.room struct_code) }
{
    let slots = read_slots::<F, S>(alloc, reader)?;
    Ok(said_or_bad(slots.finish(alloc)))
}

/// Reads a struct by itself, and tells a text that isn't UTF-8.
pub fn read_whole<F: StructSink, S: Source>(
    alloc: Global,
    reader: &mut WireReader<'_, S>,
) -> Result<F::Out, StructFault>
    ensures same_source { reader.new.source.ghost_name ≡ reader.old.source.ghost_name }
    ensures later { S.faults reader.old.source.now ≤ S.faults reader.new.source.now }
    ensures cause { reader.old.progress.fault ≡ None → IsErrOf result (StructFault.Wire WireFault.ReadFault) → Rose (S.faults reader.old.source.now) (S.faults reader.new.source.now) }
    ensures stays { StaysBut (StructFault.Wire WireFault.ReadFault) result (S.faults reader.old.source.now) (S.faults reader.new.source.now) }
    ensures reads { Makes (S.left reader.old.source.now) (S.left reader.new.source.now) reader.old.progress reader.new.progress result (made_of F.whole F.set F.none) }
{
    match read_slots::<F, S>(alloc, reader) {
        Ok(slots) => match slots.finish(alloc) {
            Some(made) => Ok(made),
            None => Err(StructFault::BadText),
        },
        Err(fault) => Err(StructFault::Wire(fault)),
    }
}
