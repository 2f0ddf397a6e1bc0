//! Values of statistics, each as the member of its kind.

ghost use Rattle.std.specs.Prelude.{◌≡◌, ℕ, ℤ, ◌≤◌, None, IsErrOf};
ghost use Rattle.hms_outside.specs.Causes.{Rose, StaysBut};
ghost use Rattle.ms_structs.specs.Getting.{Makes};
ghost use Rattle.ms_structs.specs.Written.{field_spelled};
ghost use Rattle.stat_structs.specs.Members.{member_made, member_none, member_of, member_set, member_tree, member_whole, member_written};
ghost use Rattle.thrift_binary.specs.Codes.{struct_code};
ghost use Rattle.thrift_binary.specs.Sending.{Gathers};
ghost use Rattle.thrift_binary.specs.Strict.{wire_bytes};

use crate::{FlagFields, LongFields, StringFields};
use cat_types::{NoMemory, StatValue};
use hms_outside::Source;
use ms_structs::{
    FieldSink, FromWire, Got, StructFault, StructSink, ToWire, put_field, read_struct, read_whole,
    skip_field,
};
use std::alloc::Global;
use thrift_binary::{WireFault, WireReader, WireWriter, type_code};

/// What the members of a ColumnStatisticsData said: they share one slot, so that the last one counts.
#[derive(Drop)]
pub struct MemberFields {
    pub value: Got<StatValue>,
}

impl FieldSink for MemberFields {
    ghost none = { member_none };

    ghost set = { member_set };

    fn empty() -> MemberFields {
        MemberFields {
            value: Got::Nothing,
        }
    }

    fn take<S: Source>(
        &mut self,
        alloc: Global,
        reader: &mut WireReader<'_, S>,
        ty: u8,
        id: i16,
    ) -> Result<(), WireFault> {
        match id {
            1 => self.value.take_as::<FlagFields, S>(alloc, reader, ty),
            2 => self.value.take_as::<LongFields, S>(alloc, reader, ty),
            4 => self.value.take_as::<StringFields, S>(alloc, reader, ty),
            _ => skip_field(reader, ty),
        }
    }
}

impl StructSink for MemberFields {
    type Out = Option<StatValue>;

    ghost whole = { member_whole };

    fn finish(self, _alloc: Global) -> Option<Option<StatValue>> {
        Some(self.value.value())
    }
}

impl FromWire for MemberFields {
    type Value = Option<StatValue>;

    ghost CODE = { struct_code };

    const CODE: u8 = type_code::STRUCT;

    ghost means = { member_of };

    #[tactic(auto, unfolding(crate::specs::Members::member_of))]
    fn read<S: Source>(
        alloc: Global,
        reader: &mut WireReader<'_, S>,
    ) -> Result<Got<Option<StatValue>>, WireFault> {
        read_struct::<MemberFields, S>(alloc, reader)
    }
}

impl ToWire for MemberFields {
    type Value = StatValue;

    ghost CODE = { struct_code };

    const CODE: u8 = type_code::STRUCT;

    ghost tree = { member_tree };

    fn write(writer: &mut WireWriter, value: &StatValue) -> Result<(), NoMemory> {
        put_member(writer, value)?;
        writer.stop()
    }
}

// The member of the value's kind.
fn put_member(writer: &mut WireWriter, value: &StatValue) -> Result<(), NoMemory>
    ensures { Gathers writer.old writer.new result (field_spelled (member_written value.now)) }
{
    match value {
        StatValue::Flags { .. } => put_field::<FlagFields>(writer, 1, value),
        StatValue::Long { .. } => put_field::<LongFields>(writer, 2, value),
        StatValue::Str { .. } => put_field::<StringFields>(writer, 4, value),
    }
}

/// Reads a ColumnStatisticsData. The last known member counts, of whatever kind; `None` where there is
/// none.
pub fn read_column_statistics_data<S: Source>(
    alloc: Global,
    reader: &mut WireReader<'_, S>,
) -> Result<Option<StatValue>, StructFault>
    ensures same_source { reader.new.source.ghost_name ≡ reader.old.source.ghost_name }
    ensures later { S.faults reader.old.source.now ≤ S.faults reader.new.source.now }
    ensures cause { reader.old.progress.fault ≡ None → IsErrOf result (StructFault.Wire WireFault.ReadFault) → Rose (S.faults reader.old.source.now) (S.faults reader.new.source.now) }
    ensures stays { StaysBut (StructFault.Wire WireFault.ReadFault) result (S.faults reader.old.source.now) (S.faults reader.new.source.now) }
    ensures reads { Makes (S.left reader.old.source.now) (S.left reader.new.source.now) reader.old.progress reader.new.progress result member_made }
{
    read_whole::<MemberFields, S>(alloc, reader)
}

/// A ColumnStatisticsData: the one member of the value's kind.
pub fn write_column_statistics_data(
    writer: &mut WireWriter,
    value: &StatValue,
) -> Result<(), NoMemory>
    ensures { Gathers writer.old writer.new result (wire_bytes struct_code (member_tree value.now)) }
{
    MemberFields::write(writer, value)
}
