//! Columns.

ghost use Rattle.std.specs.Prelude.{◌≡◌, ℕ, ℤ, ◌≤◌, None, IsErrOf};
ghost use Rattle.hms_outside.specs.Causes.{Rose, StaysBut};
ghost use Rattle.ms_structs.specs.Getting.{Makes};
ghost use Rattle.table_structs.specs.Columns.{column_is_bad, column_made, column_none, column_of, column_set, column_tree, column_whole};
ghost use Rattle.thrift_binary.specs.Codes.{struct_code};
ghost use Rattle.thrift_binary.specs.Sending.{Gathers};
ghost use Rattle.thrift_binary.specs.Strict.{wire_bytes};

use crate::texts::no_text;
use cat_types::{Column, NoMemory, Text};
use hms_outside::Source;
use ms_structs::{
    FieldSink, FromWire, Got, StructFault, StructSink, ToWire, put_field, put_optional,
    read_struct, read_whole, skip_field,
};
use std::alloc::Global;
use thrift_binary::{WireFault, WireReader, WireWriter, type_code};

/// What the fields of a FieldSchema said.
#[derive(Drop)]
pub struct ColumnFields {
    pub name: Got<Text>,
    pub ty: Got<Text>,
    pub comment: Got<Text>,
}

impl FieldSink for ColumnFields {
    ghost none = { column_none };

    ghost set = { column_set };

    fn empty() -> ColumnFields {
        ColumnFields {
            name: Got::Nothing,
            ty: Got::Nothing,
            comment: Got::Nothing,
        }
    }

    fn take<S: Source>(
        &mut self,
        alloc: Global,
        reader: &mut WireReader<'_, S>,
        ty: u8,
        id: i16,
    ) -> Result<(), WireFault> {
        match id {
            1 => self.name.take(alloc, reader, ty),
            2 => self.ty.take(alloc, reader, ty),
            3 => self.comment.take(alloc, reader, ty),
            _ => skip_field(reader, ty),
        }
    }
}

impl StructSink for ColumnFields {
    type Out = Column;

    ghost whole = { column_whole };

    fn finish(self, alloc: Global) -> Option<Column> {
        if self.has_bad_text() {
            return None;
        }
        Some(Column {
            name: self.name.value_or(no_text(alloc)),
            ty: self.ty.value_or(no_text(alloc)),
            comment: self.comment.value(),
        })
    }
}

impl ColumnFields {
    // Whether a text that counts isn't UTF-8.
    fn has_bad_text(&self) -> bool
        ensures { result ≡ column_is_bad self.now }
    {
        self.name.is_bad() || self.ty.is_bad() || self.comment.is_bad()
    }
}

impl FromWire for ColumnFields {
    type Value = Column;

    ghost CODE = { struct_code };

    const CODE: u8 = type_code::STRUCT;

    ghost means = { column_of };

    #[tactic(auto, unfolding(crate::specs::Columns::column_of))]
    fn read<S: Source>(
        alloc: Global,
        reader: &mut WireReader<'_, S>,
    ) -> Result<Got<Column>, WireFault> {
        read_struct::<ColumnFields, S>(alloc, reader)
    }
}

impl ToWire for ColumnFields {
    type Value = Column;

    ghost CODE = { struct_code };

    const CODE: u8 = type_code::STRUCT;

    ghost tree = { column_tree };

    fn write(writer: &mut WireWriter, value: &Column) -> Result<(), NoMemory> {
        put_field::<Text>(writer, 1, &value.name)?;
        put_field::<Text>(writer, 2, &value.ty)?;
        put_optional::<Text>(writer, 3, &value.comment)?;
        writer.stop()
    }
}

/// Reads a FieldSchema. An absent name and an absent type count as empty.
pub fn read_field_schema<S: Source>(
    alloc: Global,
    reader: &mut WireReader<'_, S>,
) -> Result<Column, StructFault>
    ensures same_source { reader.new.source.ghost_name ≡ reader.old.source.ghost_name }
    ensures later { S.faults reader.old.source.now ≤ S.faults reader.new.source.now }
    ensures cause { reader.old.progress.fault ≡ None → IsErrOf result (StructFault.Wire WireFault.ReadFault) → Rose (S.faults reader.old.source.now) (S.faults reader.new.source.now) }
    ensures stays { StaysBut (StructFault.Wire WireFault.ReadFault) result (S.faults reader.old.source.now) (S.faults reader.new.source.now) }
    ensures reads { Makes (S.left reader.old.source.now) (S.left reader.new.source.now) reader.old.progress reader.new.progress result column_made }
{
    read_whole::<ColumnFields, S>(alloc, reader)
}

/// A FieldSchema with its fields in rising order of their ids. Absent values aren't written.
pub fn write_field_schema(writer: &mut WireWriter, value: &Column) -> Result<(), NoMemory>
    ensures { Gathers writer.old writer.new result (wire_bytes struct_code (column_tree value.now)) }
{
    ColumnFields::write(writer, value)
}
