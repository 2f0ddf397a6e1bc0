//! Values of one type off the wire.

ghost use Rattle.std.specs.Prelude.{◌≡◌, ℕ, ◌≤◌, None, IsErrOf, ⊤};
ghost use Rattle.hms_outside.specs.Causes.{Rose, StaysBut};
ghost use Rattle.ms_structs.specs.Getting.{ReadsTree};
ghost use Rattle.thrift_binary.specs.Codes.{bool_code, i32_code, i64_code, text_code};
ghost use Rattle.thrift_binary.specs.Tree.{Wire};
ghost use Rattle.thrift_binary.specs.Wire.{IsCode, IsWire, StopsWire};
ghost use Rattle.ms_structs.specs.declared.got.Got.{Got};
ghost use Rattle.ms_structs.specs.Slots.{over, typed};
ghost use Rattle.ms_structs.specs.Values.{flag_of, number_of, text_of};

use crate::Got;
use cat_types::Text;
use hms_outside::Source;
use std::alloc::Global;
use thrift_binary::{WireFault, WireReader, type_code};

/// A type of the wire, and what is read off its values. A type that is its own value stands for
/// itself; a struct of another crate's type is named by one of its own.
pub trait FromWire {
    /// What a value is read as.
    type Value: Drop;

    /// The code of the type.
    ghost CODE: { ℕ };

    const CODE: u8;

    /// What a value says, as a tree.
    ghost means: { Wire → Got Self.Value };

    /// Reads a value of this type.
    fn read<S: Source>(
        alloc: Global,
        reader: &mut WireReader<'_, S>,
    ) -> Result<Got<Self::Value>, WireFault>
        ensures same_source { reader.new.source.ghost_name ≡ reader.old.source.ghost_name }
        ensures later { S.faults reader.old.source.now ≤ S.faults reader.new.source.now }
        ensures cause { reader.old.progress.fault ≡ None → IsErrOf result WireFault.ReadFault → Rose (S.faults reader.old.source.now) (S.faults reader.new.source.now) }
        ensures stays { StaysBut WireFault.ReadFault result (S.faults reader.old.source.now) (S.faults reader.new.source.now) }
        ensures reads { ReadsTree (S.left reader.old.source.now) (S.left reader.new.source.now) reader.old.progress reader.new.progress result (λ w. IsWire w reader.old.progress.room CODE) (λ w got. got ≡ means w) (StopsWire reader.old.progress.room CODE) };
}

/// Reads a value of the type with this code, or skips it where a `T` has another code.
pub fn read_typed<T: FromWire, S: Source>(
    alloc: Global,
    reader: &mut WireReader<'_, S>,
    ty: u8,
) -> Result<Got<T::Value>, WireFault>
    requires { IsCode ty }
    ensures same_source { reader.new.source.ghost_name ≡ reader.old.source.ghost_name }
    ensures later { S.faults reader.old.source.now ≤ S.faults reader.new.source.now }
    ensures cause { reader.old.progress.fault ≡ None → IsErrOf result WireFault.ReadFault → Rose (S.faults reader.old.source.now) (S.faults reader.new.source.now) }
    ensures stays { StaysBut WireFault.ReadFault result (S.faults reader.old.source.now) (S.faults reader.new.source.now) }
    ensures reads { ReadsTree (S.left reader.old.source.now) (S.left reader.new.source.now) reader.old.progress reader.new.progress result (λ w. IsWire w reader.old.progress.room ty) (λ w got. got ≡ typed T.CODE T.means ty w) (StopsWire reader.old.progress.room ty) }
{
    if ty == T::CODE {
        return T::read(alloc, reader);
    }
    reader.skip(ty)?;
    Ok(Got::Nothing)
}

/// Skips the value of a field that no slot is for.
pub fn skip_field<S: Source>(reader: &mut WireReader<'_, S>, ty: u8) -> Result<(), WireFault>
    requires { IsCode ty }
    ensures same_source { reader.new.source.ghost_name ≡ reader.old.source.ghost_name }
    ensures later { S.faults reader.old.source.now ≤ S.faults reader.new.source.now }
    ensures cause { reader.old.progress.fault ≡ None → IsErrOf result WireFault.ReadFault → Rose (S.faults reader.old.source.now) (S.faults reader.new.source.now) }
    ensures stays { StaysBut WireFault.ReadFault result (S.faults reader.old.source.now) (S.faults reader.new.source.now) }
    ensures reads { ReadsTree (S.left reader.old.source.now) (S.left reader.new.source.now) reader.old.progress reader.new.progress result (λ w. IsWire w reader.old.progress.room ty) (λ _ _. ⊤) (StopsWire reader.old.progress.room ty) }
{
    reader.skip(ty)
}

impl<T: FromWire<Value = T> + Drop> Got<T> {
    /// Reads the value of a field of this slot, or skips it where its type is another.
    pub fn take<S: Source>(
        &mut self,
        alloc: Global,
        reader: &mut WireReader<'_, S>,
        ty: u8,
    ) -> Result<(), WireFault>
        requires { IsCode ty }
        ensures same_source { reader.new.source.ghost_name ≡ reader.old.source.ghost_name }
        ensures later { S.faults reader.old.source.now ≤ S.faults reader.new.source.now }
        ensures cause { reader.old.progress.fault ≡ None → IsErrOf result WireFault.ReadFault → Rose (S.faults reader.old.source.now) (S.faults reader.new.source.now) }
        ensures stays { StaysBut WireFault.ReadFault result (S.faults reader.old.source.now) (S.faults reader.new.source.now) }
        ensures reads { ReadsTree (S.left reader.old.source.now) (S.left reader.new.source.now) reader.old.progress reader.new.progress result (λ w. IsWire w reader.old.progress.room ty) (λ w _. self.new ≡ over (typed T.CODE T.means ty w) self.old) (StopsWire reader.old.progress.room ty) }
    {
        self.take_as::<T, S>(alloc, reader, ty)
    }
}

impl<V: Drop> Got<V> {
    /// Reads the value of a field of this slot as one of the type `T` of the wire, or skips it
    /// where its type is another.
    pub fn take_as<T: FromWire<Value = V>, S: Source>(
        &mut self,
        alloc: Global,
        reader: &mut WireReader<'_, S>,
        ty: u8,
    ) -> Result<(), WireFault>
        requires { IsCode ty }
        ensures same_source { reader.new.source.ghost_name ≡ reader.old.source.ghost_name }
        ensures later { S.faults reader.old.source.now ≤ S.faults reader.new.source.now }
        ensures cause { reader.old.progress.fault ≡ None → IsErrOf result WireFault.ReadFault → Rose (S.faults reader.old.source.now) (S.faults reader.new.source.now) }
        ensures stays { StaysBut WireFault.ReadFault result (S.faults reader.old.source.now) (S.faults reader.new.source.now) }
        ensures reads { ReadsTree (S.left reader.old.source.now) (S.left reader.new.source.now) reader.old.progress reader.new.progress result (λ w. IsWire w reader.old.progress.room ty) (λ w _. self.new ≡ over (typed T.CODE T.means ty w) self.old) (StopsWire reader.old.progress.room ty) }
    {
        self.put(read_typed::<T, S>(alloc, reader, ty)?);
        Ok(())
    }
}

impl FromWire for bool {
    type Value = bool;

    ghost CODE = { bool_code };

    const CODE: u8 = type_code::BOOL;

    ghost means = { flag_of };

    fn read<S: Source>(
        _alloc: Global,
        reader: &mut WireReader<'_, S>,
    ) -> Result<Got<bool>, WireFault> {
        Ok(Got::Is(reader.flag()?))
    }
}

impl FromWire for i32 {
    type Value = i32;

    ghost CODE = { i32_code };

    const CODE: u8 = type_code::I32;

    ghost means = { number_of };

    fn read<S: Source>(
        _alloc: Global,
        reader: &mut WireReader<'_, S>,
    ) -> Result<Got<i32>, WireFault> {
        Ok(Got::Is(reader.int()?))
    }
}

impl FromWire for i64 {
    type Value = i64;

    ghost CODE = { i64_code };

    const CODE: u8 = type_code::I64;

    ghost means = { number_of };

    fn read<S: Source>(
        _alloc: Global,
        reader: &mut WireReader<'_, S>,
    ) -> Result<Got<i64>, WireFault> {
        Ok(Got::Is(reader.long()?))
    }
}

impl FromWire for Text {
    type Value = Text;

    ghost CODE = { text_code };

    const CODE: u8 = type_code::STRING;

    ghost means = { text_of };

    fn read<S: Source>(
        alloc: Global,
        reader: &mut WireReader<'_, S>,
    ) -> Result<Got<Text>, WireFault> {
        match reader.text(alloc)? {
            Some(text) => Ok(Got::Is(text)),
            None => Ok(Got::BadText),
        }
    }
}
