//! Arguments by their shape: slots for the fields with the ids from 1 on.

ghost use Rattle.std.specs.Prelude.{◌≡◌, ℕ, ℤ, ◌≤◌, None, IsErrOf};
ghost use Rattle.hms_outside.specs.Causes.{Rose, StaysBut};
ghost use Rattle.ms_structs.specs.Getting.{ReadsTree};
ghost use Rattle.ms_calls.specs.Shapes.{five_none, five_says, five_set, four_none, four_says, four_set, one_none, one_says, one_set, three_none, three_says, three_set, two_none, two_says, two_set};
ghost use Rattle.thrift_binary.specs.Codes.{struct_code};
ghost use Rattle.thrift_binary.specs.Tree.{Fields, Struct, Wire};
ghost use Rattle.thrift_binary.specs.Wire.{IsWire, StopsWire};

use hms_outside::Source;
use ms_structs::{FieldSink, FromWire, Got, read_slots, skip_field};
use std::alloc::Global;
use thrift_binary::{WireFault, WireReader};

/// Slots for the first ids of an argument struct.
pub trait Shape: Drop {
    /// What the slots hold behind these fields.
    ghost says: { Fields → Self };

    /// Reads an argument struct.
    fn read<S: Source>(alloc: Global, reader: &mut WireReader<'_, S>) -> Result<Self, WireFault>
        ensures same_source { reader.new.source.ghost_name ≡ reader.old.source.ghost_name }
        ensures later { S.faults reader.old.source.now ≤ S.faults reader.new.source.now }
        ensures cause { reader.old.progress.fault ≡ None → IsErrOf result WireFault.ReadFault → Rose (S.faults reader.old.source.now) (S.faults reader.new.source.now) }
        ensures stays { StaysBut WireFault.ReadFault result (S.faults reader.old.source.now) (S.faults reader.new.source.now) }
        ensures reads { ReadsTree (S.left reader.old.source.now) (S.left reader.new.source.now) reader.old.progress reader.new.progress result (λ v. IsWire (Struct v) reader.old.progress.room struct_code) (λ v slots. slots ≡ says v) (StopsWire reader.old.progress.room struct_code) };
}

/// A slot for the field with the id 1.
#[derive(Drop)]
pub struct One<A: FromWire> {
    pub first: Got<A::Value>,
}

impl<A: FromWire> FieldSink for One<A> {
    ghost none = { one_none };

    ghost set = { one_set A.CODE A.means };

    fn empty() -> One<A> {
        One {
            first: Got::Nothing,
        }
    }

    fn take<S: Source>(
        &mut self,
        alloc: Global,
        reader: &mut WireReader<'_, S>,
        ty: u8,
        id: i16,
    ) -> Result<(), WireFault> {
        match id {
            1 => self.first.take_as::<A, S>(alloc, reader, ty),
            _ => skip_field(reader, ty),
        }
    }
}

impl<A: FromWire> Shape for One<A> {
    ghost says = { one_says A.CODE A.means };

    fn read<S: Source>(alloc: Global, reader: &mut WireReader<'_, S>) -> Result<One<A>, WireFault> {
        read_slots::<One<A>, S>(alloc, reader)
    }
}

/// Slots for the fields with the ids 1 and 2.
#[derive(Drop)]
pub struct Two<A: FromWire, B: FromWire> {
    pub first: Got<A::Value>,
    pub second: Got<B::Value>,
}

impl<A: FromWire, B: FromWire> FieldSink for Two<A, B> {
    ghost none = { two_none };

    ghost set = { two_set A.CODE A.means B.CODE B.means };

    fn empty() -> Two<A, B> {
        Two {
            first: Got::Nothing,
            second: Got::Nothing,
        }
    }

    fn take<S: Source>(
        &mut self,
        alloc: Global,
        reader: &mut WireReader<'_, S>,
        ty: u8,
        id: i16,
    ) -> Result<(), WireFault> {
        match id {
            1 => self.first.take_as::<A, S>(alloc, reader, ty),
            2 => self.second.take_as::<B, S>(alloc, reader, ty),
            _ => skip_field(reader, ty),
        }
    }
}

impl<A: FromWire, B: FromWire> Shape for Two<A, B> {
    ghost says = { two_says A.CODE A.means B.CODE B.means };

    fn read<S: Source>(
        alloc: Global,
        reader: &mut WireReader<'_, S>,
    ) -> Result<Two<A, B>, WireFault> {
        read_slots::<Two<A, B>, S>(alloc, reader)
    }
}

/// Slots for the fields with the ids 1 to 3.
#[derive(Drop)]
pub struct Three<A: FromWire, B: FromWire, C: FromWire> {
    pub first: Got<A::Value>,
    pub second: Got<B::Value>,
    pub third: Got<C::Value>,
}

impl<A: FromWire, B: FromWire, C: FromWire> FieldSink for Three<A, B, C> {
    ghost none = { three_none };

    ghost set = { three_set A.CODE A.means B.CODE B.means C.CODE C.means };

    fn empty() -> Three<A, B, C> {
        Three {
            first: Got::Nothing,
            second: Got::Nothing,
            third: Got::Nothing,
        }
    }

    fn take<S: Source>(
        &mut self,
        alloc: Global,
        reader: &mut WireReader<'_, S>,
        ty: u8,
        id: i16,
    ) -> Result<(), WireFault> {
        match id {
            1 => self.first.take_as::<A, S>(alloc, reader, ty),
            2 => self.second.take_as::<B, S>(alloc, reader, ty),
            3 => self.third.take_as::<C, S>(alloc, reader, ty),
            _ => skip_field(reader, ty),
        }
    }
}

impl<A: FromWire, B: FromWire, C: FromWire> Shape for Three<A, B, C> {
    ghost says = { three_says A.CODE A.means B.CODE B.means C.CODE C.means };

    fn read<S: Source>(
        alloc: Global,
        reader: &mut WireReader<'_, S>,
    ) -> Result<Three<A, B, C>, WireFault> {
        read_slots::<Three<A, B, C>, S>(alloc, reader)
    }
}

/// Slots for the fields with the ids 1 to 4.
#[derive(Drop)]
pub struct Four<A: FromWire, B: FromWire, C: FromWire, D: FromWire> {
    pub first: Got<A::Value>,
    pub second: Got<B::Value>,
    pub third: Got<C::Value>,
    pub fourth: Got<D::Value>,
}

impl<A: FromWire, B: FromWire, C: FromWire, D: FromWire> FieldSink for Four<A, B, C, D> {
    ghost none = { four_none };

    ghost set = { four_set A.CODE A.means B.CODE B.means C.CODE C.means D.CODE D.means };

    fn empty() -> Four<A, B, C, D> {
        Four {
            first: Got::Nothing,
            second: Got::Nothing,
            third: Got::Nothing,
            fourth: Got::Nothing,
        }
    }

    fn take<S: Source>(
        &mut self,
        alloc: Global,
        reader: &mut WireReader<'_, S>,
        ty: u8,
        id: i16,
    ) -> Result<(), WireFault> {
        match id {
            1 => self.first.take_as::<A, S>(alloc, reader, ty),
            2 => self.second.take_as::<B, S>(alloc, reader, ty),
            3 => self.third.take_as::<C, S>(alloc, reader, ty),
            4 => self.fourth.take_as::<D, S>(alloc, reader, ty),
            _ => skip_field(reader, ty),
        }
    }
}

impl<A: FromWire, B: FromWire, C: FromWire, D: FromWire> Shape for Four<A, B, C, D> {
    ghost says = { four_says A.CODE A.means B.CODE B.means C.CODE C.means D.CODE D.means };

    fn read<S: Source>(
        alloc: Global,
        reader: &mut WireReader<'_, S>,
    ) -> Result<Four<A, B, C, D>, WireFault> {
        read_slots::<Four<A, B, C, D>, S>(alloc, reader)
    }
}

/// Slots for the fields with the ids 1 to 5.
#[derive(Drop)]
pub struct Five<A: FromWire, B: FromWire, C: FromWire, D: FromWire, E: FromWire> {
    pub first: Got<A::Value>,
    pub second: Got<B::Value>,
    pub third: Got<C::Value>,
    pub fourth: Got<D::Value>,
    pub fifth: Got<E::Value>,
}

impl<A: FromWire, B: FromWire, C: FromWire, D: FromWire, E: FromWire> FieldSink
    for Five<A, B, C, D, E> {
    ghost none = { five_none };

    ghost set = { five_set A.CODE A.means B.CODE B.means C.CODE C.means D.CODE D.means E.CODE E.means };

    fn empty() -> Five<A, B, C, D, E> {
        Five {
            first: Got::Nothing,
            second: Got::Nothing,
            third: Got::Nothing,
            fourth: Got::Nothing,
            fifth: Got::Nothing,
        }
    }

    fn take<S: Source>(
        &mut self,
        alloc: Global,
        reader: &mut WireReader<'_, S>,
        ty: u8,
        id: i16,
    ) -> Result<(), WireFault> {
        match id {
            1 => self.first.take_as::<A, S>(alloc, reader, ty),
            2 => self.second.take_as::<B, S>(alloc, reader, ty),
            3 => self.third.take_as::<C, S>(alloc, reader, ty),
            4 => self.fourth.take_as::<D, S>(alloc, reader, ty),
            5 => self.fifth.take_as::<E, S>(alloc, reader, ty),
            _ => skip_field(reader, ty),
        }
    }
}

impl<A: FromWire, B: FromWire, C: FromWire, D: FromWire, E: FromWire> Shape
    for Five<A, B, C, D, E> {
    ghost says = { five_says A.CODE A.means B.CODE B.means C.CODE C.means D.CODE D.means E.CODE E.means };

    fn read<S: Source>(
        alloc: Global,
        reader: &mut WireReader<'_, S>,
    ) -> Result<Five<A, B, C, D, E>, WireFault> {
        read_slots::<Five<A, B, C, D, E>, S>(alloc, reader)
    }
}
