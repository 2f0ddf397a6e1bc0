//! Statistics of whole numbers.

ghost use Rattle.std.specs.Prelude.{◌≡◌, ℕ, ℤ, ◌≤◌, None, IsErrOf};
ghost use Rattle.hms_outside.specs.Causes.{Rose, StaysBut};
ghost use Rattle.ms_structs.specs.Getting.{Makes};
ghost use Rattle.stat_structs.specs.Longs.{IsLong, long_from, long_made, long_none, long_of, long_set, long_tree, long_whole};
ghost use Rattle.thrift_binary.specs.Codes.{struct_code};
ghost use Rattle.thrift_binary.specs.Sending.{Gathers};
ghost use Rattle.thrift_binary.specs.Strict.{wire_bytes};

use cat_types::{NoMemory, StatValue};
use hms_outside::Source;
use ms_structs::{
    FieldSink, FromWire, Got, StructFault, StructSink, ToWire, put_field, put_optional,
    read_struct, read_whole, skip_field,
};
use std::alloc::Global;
use thrift_binary::{WireFault, WireReader, WireWriter, type_code};

/// What the fields of a LongColumnStatsData said.
#[derive(Drop)]
pub struct LongFields {
    pub low: Got<i64>,
    pub high: Got<i64>,
    pub nulls: Got<i64>,
    pub distinct: Got<i64>,
}

impl FieldSink for LongFields {
    ghost none = { long_none };

    ghost set = { long_set };

    fn empty() -> LongFields {
        LongFields {
            low: Got::Nothing,
            high: Got::Nothing,
            nulls: Got::Nothing,
            distinct: Got::Nothing,
        }
    }

    fn take<S: Source>(
        &mut self,
        alloc: Global,
        reader: &mut WireReader<'_, S>,
        ty: u8,
        id: i16,
    ) -> Result<(), WireFault> {
        match id {
            1 => self.low.take(alloc, reader, ty),
            2 => self.high.take(alloc, reader, ty),
            3 => self.nulls.take(alloc, reader, ty),
            4 => self.distinct.take(alloc, reader, ty),
            _ => skip_field(reader, ty),
        }
    }
}

impl StructSink for LongFields {
    type Out = StatValue;

    ghost whole = { long_whole };

    fn finish(self, _alloc: Global) -> Option<StatValue> {
        Some(self.made())
    }
}

impl LongFields {
    // The value that the fields make.
    fn made(self) -> StatValue
        ensures { result ≡ long_from self }
    {
        StatValue::Long {
            low: self.low.value(),
            high: self.high.value(),
            nulls: self.nulls.value_or(0),
            distinct: self.distinct.value_or(0),
        }
    }
}

impl FromWire for LongFields {
    type Value = StatValue;

    ghost CODE = { struct_code };

    const CODE: u8 = type_code::STRUCT;

    ghost means = { long_of };

    #[tactic(auto, unfolding(crate::specs::Longs::long_of))]
    fn read<S: Source>(
        alloc: Global,
        reader: &mut WireReader<'_, S>,
    ) -> Result<Got<StatValue>, WireFault> {
        read_struct::<LongFields, S>(alloc, reader)
    }
}

impl ToWire for LongFields {
    type Value = StatValue;

    ghost CODE = { struct_code };

    const CODE: u8 = type_code::STRUCT;

    ghost tree = { long_tree };

    // A value of another kind has no fields here; nobody hands one in.
    fn write(writer: &mut WireWriter, value: &StatValue) -> Result<(), NoMemory> {
        match value {
            StatValue::Long {
                low,
                high,
                nulls,
                distinct,
            } => {
                put_optional::<i64>(writer, 1, low)?;
                put_optional::<i64>(writer, 2, high)?;
                put_field::<i64>(writer, 3, nulls)?;
                put_field::<i64>(writer, 4, distinct)?;
                writer.stop()
            }
            StatValue::Flags { .. } => writer.stop(),
            StatValue::Str { .. } => writer.stop(),
        }
    }
}

/// Reads a LongColumnStatsData, as a `StatValue::Long`. An absent lowest or highest value stays absent,
/// and absent counts are 0.
pub fn read_long_column_stats_data<S: Source>(
    alloc: Global,
    reader: &mut WireReader<'_, S>,
) -> Result<StatValue, StructFault>
    ensures same_source { reader.new.source.ghost_name ≡ reader.old.source.ghost_name }
    ensures later { S.faults reader.old.source.now ≤ S.faults reader.new.source.now }
    ensures cause { reader.old.progress.fault ≡ None → IsErrOf result (StructFault.Wire WireFault.ReadFault) → Rose (S.faults reader.old.source.now) (S.faults reader.new.source.now) }
    ensures stays { StaysBut (StructFault.Wire WireFault.ReadFault) result (S.faults reader.old.source.now) (S.faults reader.new.source.now) }
    ensures reads { Makes (S.left reader.old.source.now) (S.left reader.new.source.now) reader.old.progress reader.new.progress result long_made }
{
    read_whole::<LongFields, S>(alloc, reader)
}

/// A LongColumnStatsData with its fields in rising order of their ids. An absent lowest or highest value
/// isn't written.
pub fn write_long_column_stats_data(
    writer: &mut WireWriter,
    value: &StatValue,
) -> Result<(), NoMemory>
    requires { IsLong value.now }
    ensures { Gathers writer.old writer.new result (wire_bytes struct_code (long_tree value.now)) }
{
    LongFields::write(writer, value)
}
