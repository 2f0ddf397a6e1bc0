//! Statistics of flags.

ghost use Rattle.std.specs.Prelude.{◌≡◌, ℕ, ℤ, ◌≤◌, None, IsErrOf};
ghost use Rattle.hms_outside.specs.Causes.{Rose, StaysBut};
ghost use Rattle.ms_structs.specs.Getting.{Makes};
ghost use Rattle.stat_structs.specs.Flags.{IsFlags, flags_from, flags_made, flags_none, flags_of, flags_set, flags_tree, flags_whole};
ghost use Rattle.thrift_binary.specs.Codes.{struct_code};
ghost use Rattle.thrift_binary.specs.Sending.{Gathers};
ghost use Rattle.thrift_binary.specs.Strict.{wire_bytes};

use cat_types::{NoMemory, StatValue};
use hms_outside::Source;
use ms_structs::{
    FieldSink, FromWire, Got, StructFault, StructSink, ToWire, put_field, read_struct, read_whole,
    skip_field,
};
use std::alloc::Global;
use thrift_binary::{WireFault, WireReader, WireWriter, type_code};

/// What the fields of a BooleanColumnStatsData said.
#[derive(Drop)]
pub struct FlagFields {
    pub trues: Got<i64>,
    pub falses: Got<i64>,
    pub nulls: Got<i64>,
}

impl FieldSink for FlagFields {
    ghost none = { flags_none };

    ghost set = { flags_set };

    fn empty() -> FlagFields {
        FlagFields {
            trues: Got::Nothing,
            falses: Got::Nothing,
            nulls: Got::Nothing,
        }
    }

    fn take<S: Source>(
        &mut self,
        alloc: Global,
        reader: &mut WireReader<'_, S>,
        ty: u8,
        id: i16,
    ) -> Result<(), WireFault> {
        match id {
            1 => self.trues.take(alloc, reader, ty),
            2 => self.falses.take(alloc, reader, ty),
            3 => self.nulls.take(alloc, reader, ty),
            _ => skip_field(reader, ty),
        }
    }
}

impl StructSink for FlagFields {
    type Out = StatValue;

    ghost whole = { flags_whole };

    fn finish(self, _alloc: Global) -> Option<StatValue> {
        Some(self.made())
    }
}

impl FlagFields {
    // The value that the fields make.
    fn made(self) -> StatValue
        ensures { result ≡ flags_from self }
    {
        StatValue::Flags {
            trues: self.trues.value_or(0),
            falses: self.falses.value_or(0),
            nulls: self.nulls.value_or(0),
        }
    }
}

impl FromWire for FlagFields {
    type Value = StatValue;

    ghost CODE = { struct_code };

    const CODE: u8 = type_code::STRUCT;

    ghost means = { flags_of };

    #[tactic(auto, unfolding(crate::specs::Flags::flags_of))]
    fn read<S: Source>(
        alloc: Global,
        reader: &mut WireReader<'_, S>,
    ) -> Result<Got<StatValue>, WireFault> {
        read_struct::<FlagFields, S>(alloc, reader)
    }
}

impl ToWire for FlagFields {
    type Value = StatValue;

    ghost CODE = { struct_code };

    const CODE: u8 = type_code::STRUCT;

    ghost tree = { flags_tree };

    // A value of another kind has no fields here; nobody hands one in.
    fn write(writer: &mut WireWriter, value: &StatValue) -> Result<(), NoMemory> {
        match value {
            StatValue::Flags {
                trues,
                falses,
                nulls,
            } => {
                put_field::<i64>(writer, 1, trues)?;
                put_field::<i64>(writer, 2, falses)?;
                put_field::<i64>(writer, 3, nulls)?;
                writer.stop()
            }
            StatValue::Long { .. } => writer.stop(),
            StatValue::Str { .. } => writer.stop(),
        }
    }
}

/// Reads a BooleanColumnStatsData, as a `StatValue::Flags`. Absent numbers are 0.
pub fn read_boolean_column_stats_data<S: Source>(
    alloc: Global,
    reader: &mut WireReader<'_, S>,
) -> Result<StatValue, StructFault>
    ensures same_source { reader.new.source.ghost_name ≡ reader.old.source.ghost_name }
    ensures later { S.faults reader.old.source.now ≤ S.faults reader.new.source.now }
    ensures cause { reader.old.progress.fault ≡ None → IsErrOf result (StructFault.Wire WireFault.ReadFault) → Rose (S.faults reader.old.source.now) (S.faults reader.new.source.now) }
    ensures stays { StaysBut (StructFault.Wire WireFault.ReadFault) result (S.faults reader.old.source.now) (S.faults reader.new.source.now) }
    ensures reads { Makes (S.left reader.old.source.now) (S.left reader.new.source.now) reader.old.progress reader.new.progress result flags_made }
{
    read_whole::<FlagFields, S>(alloc, reader)
}

/// A BooleanColumnStatsData with its fields in rising order of their ids.
pub fn write_boolean_column_stats_data(
    writer: &mut WireWriter,
    value: &StatValue,
) -> Result<(), NoMemory>
    requires { IsFlags value.now }
    ensures { Gathers writer.old writer.new result (wire_bytes struct_code (flags_tree value.now)) }
{
    FlagFields::write(writer, value)
}
