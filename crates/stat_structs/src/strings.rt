//! Statistics of texts.

ghost use Rattle.std.specs.Prelude.{◌≡◌, ℕ, ℤ, ◌≤◌, None, IsErrOf};
ghost use Rattle.hms_outside.specs.Causes.{Rose, StaysBut};
ghost use Rattle.ms_structs.specs.Getting.{Makes};
ghost use Rattle.stat_structs.specs.Strings.{IsStr, string_from, string_made, string_none, string_of, string_set, string_tree, string_whole};
ghost use Rattle.thrift_binary.specs.Codes.{struct_code};
ghost use Rattle.thrift_binary.specs.Sending.{Gathers};
ghost use Rattle.thrift_binary.specs.Strict.{wire_bytes};

use crate::Double;
use cat_types::{NoMemory, StatValue};
use hms_outside::Source;
use ms_structs::{
    FieldSink, FromWire, Got, StructFault, StructSink, ToWire, put_field, read_struct, read_whole,
    skip_field,
};
use std::alloc::Global;
use thrift_binary::{WireFault, WireReader, WireWriter, type_code};

/// What the fields of a StringColumnStatsData said.
#[derive(Drop)]
pub struct StringFields {
    pub longest: Got<i64>,
    pub average: Got<[u8; 8]>,
    pub nulls: Got<i64>,
    pub distinct: Got<i64>,
}

impl FieldSink for StringFields {
    ghost none = { string_none };

    ghost set = { string_set };

    fn empty() -> StringFields {
        StringFields {
            longest: Got::Nothing,
            average: Got::Nothing,
            nulls: Got::Nothing,
            distinct: Got::Nothing,
        }
    }

    fn take<S: Source>(
        &mut self,
        alloc: Global,
        reader: &mut WireReader<'_, S>,
        ty: u8,
        id: i16,
    ) -> Result<(), WireFault> {
        match id {
            1 => self.longest.take(alloc, reader, ty),
            2 => self.average.take_as::<Double, S>(alloc, reader, ty),
            3 => self.nulls.take(alloc, reader, ty),
            4 => self.distinct.take(alloc, reader, ty),
            _ => skip_field(reader, ty),
        }
    }
}

impl StructSink for StringFields {
    type Out = StatValue;

    ghost whole = { string_whole };

    fn finish(self, _alloc: Global) -> Option<StatValue> {
        Some(self.made())
    }
}

impl StringFields {
    // The value that the fields make.
    fn made(self) -> StatValue
        ensures { result ≡ string_from self }
    {
        StatValue::Str {
            longest: self.longest.value_or(0),
            average: self.average.value_or([0; 8]),
            nulls: self.nulls.value_or(0),
            distinct: self.distinct.value_or(0),
        }
    }
}

impl FromWire for StringFields {
    type Value = StatValue;

    ghost CODE = { struct_code };

    const CODE: u8 = type_code::STRUCT;

    ghost means = { string_of };

    #[tactic(auto, unfolding(crate::specs::Strings::string_of))]
    fn read<S: Source>(
        alloc: Global,
        reader: &mut WireReader<'_, S>,
    ) -> Result<Got<StatValue>, WireFault> {
        read_struct::<StringFields, S>(alloc, reader)
    }
}

impl ToWire for StringFields {
    type Value = StatValue;

    ghost CODE = { struct_code };

    const CODE: u8 = type_code::STRUCT;

    ghost tree = { string_tree };

    // A value of another kind has no fields here; nobody hands one in.
    fn write(writer: &mut WireWriter, value: &StatValue) -> Result<(), NoMemory> {
        match value {
            StatValue::Str {
                longest,
                average,
                nulls,
                distinct,
            } => {
                put_field::<i64>(writer, 1, longest)?;
                put_field::<Double>(writer, 2, average)?;
                put_field::<i64>(writer, 3, nulls)?;
                put_field::<i64>(writer, 4, distinct)?;
                writer.stop()
            }
            StatValue::Flags { .. } => writer.stop(),
            StatValue::Long { .. } => writer.stop(),
        }
    }
}

/// Reads a StringColumnStatsData, as a `StatValue::Str`. Absent numbers are 0; the average length is
/// eight bytes that nothing here computes with.
pub fn read_string_column_stats_data<S: Source>(
    alloc: Global,
    reader: &mut WireReader<'_, S>,
) -> Result<StatValue, StructFault>
    ensures same_source { reader.new.source.ghost_name ≡ reader.old.source.ghost_name }
    ensures later { S.faults reader.old.source.now ≤ S.faults reader.new.source.now }
    ensures cause { reader.old.progress.fault ≡ None → IsErrOf result (StructFault.Wire WireFault.ReadFault) → Rose (S.faults reader.old.source.now) (S.faults reader.new.source.now) }
    ensures stays { StaysBut (StructFault.Wire WireFault.ReadFault) result (S.faults reader.old.source.now) (S.faults reader.new.source.now) }
    ensures reads { Makes (S.left reader.old.source.now) (S.left reader.new.source.now) reader.old.progress reader.new.progress result string_made }
{
    read_whole::<StringFields, S>(alloc, reader)
}

/// A StringColumnStatsData with its fields in rising order of their ids.
pub fn write_string_column_stats_data(
    writer: &mut WireWriter,
    value: &StatValue,
) -> Result<(), NoMemory>
    requires { IsStr value.now }
    ensures { Gathers writer.old writer.new result (wire_bytes struct_code (string_tree value.now)) }
{
    StringFields::write(writer, value)
}
