//! Statistics of a column.

ghost use Rattle.std.specs.Prelude.{◌≡◌, ℕ, ℤ, ◌≤◌, None, IsErrOf};
ghost use Rattle.hms_outside.specs.Causes.{Rose, StaysBut};
ghost use Rattle.ms_structs.specs.Getting.{Makes};
ghost use Rattle.stat_structs.specs.Objects.{object_is_bad, object_made, object_none, object_of, object_set, object_tree, object_whole};
ghost use Rattle.thrift_binary.specs.Codes.{struct_code};
ghost use Rattle.thrift_binary.specs.Sending.{Gathers};
ghost use Rattle.thrift_binary.specs.Strict.{wire_bytes};

use crate::MemberFields;
use cat_types::{NamedStat, NoMemory, StatArg, StatValue, Text};
use hms_outside::Source;
use ms_structs::{
    FieldSink, FromWire, Got, StructFault, StructSink, ToWire, put_field, read_struct, read_whole,
    skip_field,
};
use std::alloc::Global;
use thrift_binary::{WireFault, WireReader, WireWriter, type_code};

/// What the fields of a ColumnStatisticsObj said. Of the type nothing is kept.
#[derive(Drop)]
pub struct ObjectFields {
    pub col: Got<Text>,
    pub ty: Got<Text>,
    pub value: Got<Option<StatValue>>,
}

impl FieldSink for ObjectFields {
    ghost none = { object_none };

    ghost set = { object_set };

    fn empty() -> ObjectFields {
        ObjectFields {
            col: Got::Nothing,
            ty: Got::Nothing,
            value: Got::Nothing,
        }
    }

    fn take<S: Source>(
        &mut self,
        alloc: Global,
        reader: &mut WireReader<'_, S>,
        ty: u8,
        id: i16,
    ) -> Result<(), WireFault> {
        match id {
            1 => self.col.take(alloc, reader, ty),
            2 => self.ty.take(alloc, reader, ty),
            3 => self.value.take_as::<MemberFields, S>(alloc, reader, ty),
            _ => skip_field(reader, ty),
        }
    }
}

impl StructSink for ObjectFields {
    type Out = StatArg;

    ghost whole = { object_whole };

    fn finish(self, _alloc: Global) -> Option<StatArg> {
        if self.has_bad_text() {
            return None;
        }
        Some(StatArg {
            col: self.col.value(),
            value: self.value.value_or(None),
        })
    }
}

impl ObjectFields {
    // Whether a text that counts isn't UTF-8.
    fn has_bad_text(&self) -> bool
        ensures { result ≡ object_is_bad self.now }
    {
        self.col.is_bad() || self.ty.is_bad()
    }
}

impl FromWire for ObjectFields {
    type Value = StatArg;

    ghost CODE = { struct_code };

    const CODE: u8 = type_code::STRUCT;

    ghost means = { object_of };

    #[tactic(auto, unfolding(crate::specs::Objects::object_of))]
    fn read<S: Source>(
        alloc: Global,
        reader: &mut WireReader<'_, S>,
    ) -> Result<Got<StatArg>, WireFault> {
        read_struct::<ObjectFields, S>(alloc, reader)
    }
}

impl ToWire for ObjectFields {
    type Value = NamedStat;

    ghost CODE = { struct_code };

    const CODE: u8 = type_code::STRUCT;

    ghost tree = { object_tree };

    fn write(writer: &mut WireWriter, value: &NamedStat) -> Result<(), NoMemory> {
        put_field::<Text>(writer, 1, &value.col)?;
        put_field::<Text>(writer, 2, &value.ty)?;
        put_field::<MemberFields>(writer, 3, &value.rec.value)?;
        writer.stop()
    }
}

/// Reads a ColumnStatisticsObj. An absent name and an absent value stay absent; the type is read and not
/// kept.
pub fn read_column_statistics_obj<S: Source>(
    alloc: Global,
    reader: &mut WireReader<'_, S>,
) -> Result<StatArg, StructFault>
    ensures same_source { reader.new.source.ghost_name ≡ reader.old.source.ghost_name }
    ensures later { S.faults reader.old.source.now ≤ S.faults reader.new.source.now }
    ensures cause { reader.old.progress.fault ≡ None → IsErrOf result (StructFault.Wire WireFault.ReadFault) → Rose (S.faults reader.old.source.now) (S.faults reader.new.source.now) }
    ensures stays { StaysBut (StructFault.Wire WireFault.ReadFault) result (S.faults reader.old.source.now) (S.faults reader.new.source.now) }
    ensures reads { Makes (S.left reader.old.source.now) (S.left reader.new.source.now) reader.old.progress reader.new.progress result object_made }
{
    read_whole::<ObjectFields, S>(alloc, reader)
}

/// A ColumnStatisticsObj with its fields in rising order of their ids.
pub fn write_column_statistics_obj(
    writer: &mut WireWriter,
    value: &NamedStat,
) -> Result<(), NoMemory>
    ensures { Gathers writer.old writer.new result (wire_bytes struct_code (object_tree value.now)) }
{
    ObjectFields::write(writer, value)
}
