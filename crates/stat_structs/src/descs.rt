//! Of what statistics are.

ghost use Rattle.std.specs.Prelude.{◌≡◌, ℕ, ℤ, ◌≤◌, None, IsErrOf};
ghost use Rattle.hms_outside.specs.Causes.{Rose, StaysBut};
ghost use Rattle.ms_structs.specs.Getting.{Makes};
ghost use Rattle.stat_structs.specs.Descs.{desc_is_bad, desc_made, desc_none, desc_of, desc_set, desc_tree, desc_whole};
ghost use Rattle.thrift_binary.specs.Codes.{struct_code};
ghost use Rattle.thrift_binary.specs.Sending.{Gathers};
ghost use Rattle.thrift_binary.specs.Strict.{wire_bytes};

use cat_types::{NoMemory, StatsDesc, Text};
use hms_outside::Source;
use ms_structs::{
    FieldSink, FromWire, Got, StructFault, StructSink, ToWire, put_field, put_optional,
    read_struct, read_whole, skip_field,
};
use std::alloc::Global;
use thrift_binary::{WireFault, WireReader, WireWriter, type_code};

/// What the fields of a ColumnStatisticsDesc said.
#[derive(Drop)]
pub struct DescFields {
    pub table_level: Got<bool>,
    pub db: Got<Text>,
    pub table: Got<Text>,
    pub part: Got<Text>,
    pub analyzed: Got<i64>,
}

impl FieldSink for DescFields {
    ghost none = { desc_none };

    ghost set = { desc_set };

    fn empty() -> DescFields {
        DescFields {
            table_level: Got::Nothing,
            db: Got::Nothing,
            table: Got::Nothing,
            part: Got::Nothing,
            analyzed: Got::Nothing,
        }
    }

    fn take<S: Source>(
        &mut self,
        alloc: Global,
        reader: &mut WireReader<'_, S>,
        ty: u8,
        id: i16,
    ) -> Result<(), WireFault> {
        match id {
            1 => self.table_level.take(alloc, reader, ty),
            2 => self.db.take(alloc, reader, ty),
            3 => self.table.take(alloc, reader, ty),
            4 => self.part.take(alloc, reader, ty),
            5 => self.analyzed.take(alloc, reader, ty),
            _ => skip_field(reader, ty),
        }
    }
}

impl StructSink for DescFields {
    type Out = StatsDesc;

    ghost whole = { desc_whole };

    fn finish(self, _alloc: Global) -> Option<StatsDesc> {
        if self.has_bad_text() {
            return None;
        }
        Some(StatsDesc {
            table_level: self.table_level.value_or(false),
            db: self.db.value(),
            table: self.table.value(),
            part: self.part.value(),
            analyzed: self.analyzed.value(),
        })
    }
}

impl DescFields {
    // Whether a text that counts isn't UTF-8.
    fn has_bad_text(&self) -> bool
        ensures { result ≡ desc_is_bad self.now }
    {
        self.db.is_bad() || self.table.is_bad() || self.part.is_bad()
    }
}

impl FromWire for DescFields {
    type Value = StatsDesc;

    ghost CODE = { struct_code };

    const CODE: u8 = type_code::STRUCT;

    ghost means = { desc_of };

    #[tactic(auto, unfolding(crate::specs::Descs::desc_of))]
    fn read<S: Source>(
        alloc: Global,
        reader: &mut WireReader<'_, S>,
    ) -> Result<Got<StatsDesc>, WireFault> {
        read_struct::<DescFields, S>(alloc, reader)
    }
}

impl ToWire for DescFields {
    type Value = StatsDesc;

    ghost CODE = { struct_code };

    const CODE: u8 = type_code::STRUCT;

    ghost tree = { desc_tree };

    fn write(writer: &mut WireWriter, value: &StatsDesc) -> Result<(), NoMemory> {
        put_field::<bool>(writer, 1, &value.table_level)?;
        put_optional::<Text>(writer, 2, &value.db)?;
        put_optional::<Text>(writer, 3, &value.table)?;
        put_optional::<Text>(writer, 4, &value.part)?;
        put_optional::<i64>(writer, 5, &value.analyzed)?;
        writer.stop()
    }
}

/// Reads a ColumnStatisticsDesc. An absent `isTblLevel` is false; absent names and an absent moment stay
/// absent.
pub fn read_column_statistics_desc<S: Source>(
    alloc: Global,
    reader: &mut WireReader<'_, S>,
) -> Result<StatsDesc, StructFault>
    ensures same_source { reader.new.source.ghost_name ≡ reader.old.source.ghost_name }
    ensures later { S.faults reader.old.source.now ≤ S.faults reader.new.source.now }
    ensures cause { reader.old.progress.fault ≡ None → IsErrOf result (StructFault.Wire WireFault.ReadFault) → Rose (S.faults reader.old.source.now) (S.faults reader.new.source.now) }
    ensures stays { StaysBut (StructFault.Wire WireFault.ReadFault) result (S.faults reader.old.source.now) (S.faults reader.new.source.now) }
    ensures reads { Makes (S.left reader.old.source.now) (S.left reader.new.source.now) reader.old.progress reader.new.progress result desc_made }
{
    read_whole::<DescFields, S>(alloc, reader)
}

/// A ColumnStatisticsDesc with its fields in rising order of their ids. What is absent isn't written.
pub fn write_column_statistics_desc(
    writer: &mut WireWriter,
    value: &StatsDesc,
) -> Result<(), NoMemory>
    ensures { Gathers writer.old writer.new result (wire_bytes struct_code (desc_tree value.now)) }
{
    DescFields::write(writer, value)
}
