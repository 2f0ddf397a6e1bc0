//! Columns whose values are spread unevenly.

ghost use Rattle.std.specs.Prelude.{◌≡◌, ℕ, ℤ, ◌≤◌, None, IsErrOf};
ghost use Rattle.hms_outside.specs.Causes.{Rose, StaysBut};
ghost use Rattle.ms_structs.specs.Getting.{Makes};
ghost use Rattle.table_structs.specs.Skews.{skew_is_bad, skew_made, skew_none, skew_of, skew_set, skew_tree, skew_whole};
ghost use Rattle.thrift_binary.specs.Codes.{struct_code};
ghost use Rattle.thrift_binary.specs.Sending.{Gathers};
ghost use Rattle.thrift_binary.specs.Strict.{wire_bytes};

use cat_types::{ListOf, MapOf, NoMemory, PlaceMap, Skew, TextLists, Texts};
use hms_outside::Source;
use ms_structs::{
    FieldSink, FromWire, Got, StructFault, StructSink, ToWire, put_field, read_struct, read_whole,
    skip_field,
};
use std::alloc::Global;
use thrift_binary::{WireFault, WireReader, WireWriter, type_code};

/// What the fields of a SkewedInfo said.
#[derive(Drop)]
pub struct SkewFields {
    pub cols: Got<Texts>,
    pub values: Got<TextLists>,
    pub places: Got<PlaceMap>,
}

impl FieldSink for SkewFields {
    ghost none = { skew_none };

    ghost set = { skew_set };

    fn empty() -> SkewFields {
        SkewFields {
            cols: Got::Nothing,
            values: Got::Nothing,
            places: Got::Nothing,
        }
    }

    fn take<S: Source>(
        &mut self,
        alloc: Global,
        reader: &mut WireReader<'_, S>,
        ty: u8,
        id: i16,
    ) -> Result<(), WireFault> {
        match id {
            1 => self.cols.take(alloc, reader, ty),
            2 => self.values.take(alloc, reader, ty),
            3 => self.places.take(alloc, reader, ty),
            _ => skip_field(reader, ty),
        }
    }
}

impl StructSink for SkewFields {
    type Out = Skew;

    ghost whole = { skew_whole };

    fn finish(self, alloc: Global) -> Option<Skew> {
        if self.has_bad_text() {
            return None;
        }
        Some(Skew {
            cols: self.cols.value_or(ListOf::new(alloc)),
            values: self.values.value_or(ListOf::new(alloc)),
            places: self.places.value_or(MapOf::new(alloc)),
        })
    }
}

impl SkewFields {
    // Whether a text that counts isn't UTF-8.
    fn has_bad_text(&self) -> bool
        ensures { result ≡ skew_is_bad self.now }
    {
        self.cols.is_bad() || self.values.is_bad() || self.places.is_bad()
    }
}

impl FromWire for SkewFields {
    type Value = Skew;

    ghost CODE = { struct_code };

    const CODE: u8 = type_code::STRUCT;

    ghost means = { skew_of };

    #[tactic(auto, unfolding(crate::specs::Skews::skew_of))]
    fn read<S: Source>(
        alloc: Global,
        reader: &mut WireReader<'_, S>,
    ) -> Result<Got<Skew>, WireFault> {
        read_struct::<SkewFields, S>(alloc, reader)
    }
}

impl ToWire for SkewFields {
    type Value = Skew;

    ghost CODE = { struct_code };

    const CODE: u8 = type_code::STRUCT;

    ghost tree = { skew_tree };

    fn write(writer: &mut WireWriter, value: &Skew) -> Result<(), NoMemory> {
        put_field::<Texts>(writer, 1, &value.cols)?;
        put_field::<TextLists>(writer, 2, &value.values)?;
        put_field::<PlaceMap>(writer, 3, &value.places)?;
        writer.stop()
    }
}

/// Reads a SkewedInfo. Absent lists and an absent map are empty.
pub fn read_skewed_info<S: Source>(
    alloc: Global,
    reader: &mut WireReader<'_, S>,
) -> Result<Skew, StructFault>
    ensures same_source { reader.new.source.ghost_name ≡ reader.old.source.ghost_name }
    ensures later { S.faults reader.old.source.now ≤ S.faults reader.new.source.now }
    ensures cause { reader.old.progress.fault ≡ None → IsErrOf result (StructFault.Wire WireFault.ReadFault) → Rose (S.faults reader.old.source.now) (S.faults reader.new.source.now) }
    ensures stays { StaysBut (StructFault.Wire WireFault.ReadFault) result (S.faults reader.old.source.now) (S.faults reader.new.source.now) }
    ensures reads { Makes (S.left reader.old.source.now) (S.left reader.new.source.now) reader.old.progress reader.new.progress result skew_made }
{
    read_whole::<SkewFields, S>(alloc, reader)
}

/// A SkewedInfo with its fields in rising order of their ids.
pub fn write_skewed_info(writer: &mut WireWriter, value: &Skew) -> Result<(), NoMemory>
    ensures { Gathers writer.old writer.new result (wire_bytes struct_code (skew_tree value.now)) }
{
    SkewFields::write(writer, value)
}
