//! Statistics of columns, and of what they are.

ghost use Rattle.std.specs.Prelude.{◌≡◌, ℕ, ℤ, ◌≤◌, None, IsErrOf};
ghost use Rattle.hms_outside.specs.Causes.{Rose, StaysBut};
ghost use Rattle.ms_structs.specs.Getting.{Makes};
ghost use Rattle.stat_structs.specs.Statistics.{statistics_is_bad, statistics_made, statistics_none, statistics_of, statistics_set, statistics_tree, statistics_whole};
ghost use Rattle.thrift_binary.specs.Codes.{struct_code};
ghost use Rattle.thrift_binary.specs.Sending.{Gathers};
ghost use Rattle.thrift_binary.specs.Strict.{wire_bytes};

use crate::{DescFields, ObjectFields};
use cat_types::{ListOf, NamedStats, NoMemory, StatArgs, StatsArg, StatsDesc};
use hms_outside::Source;
use ms_structs::{
    FieldSink, FromWire, Got, StructFault, StructSink, put_field, read_struct, read_whole,
    skip_field,
};
use std::alloc::Global;
use thrift_binary::{WireFault, WireReader, WireWriter, type_code};

/// What the fields of a ColumnStatistics said.
#[derive(Drop)]
pub struct StatisticsFields {
    pub desc: Got<StatsDesc>,
    pub objects: Got<StatArgs>,
}

impl FieldSink for StatisticsFields {
    ghost none = { statistics_none };

    ghost set = { statistics_set };

    fn empty() -> StatisticsFields {
        StatisticsFields {
            desc: Got::Nothing,
            objects: Got::Nothing,
        }
    }

    fn take<S: Source>(
        &mut self,
        alloc: Global,
        reader: &mut WireReader<'_, S>,
        ty: u8,
        id: i16,
    ) -> Result<(), WireFault> {
        match id {
            1 => self.desc.take_as::<DescFields, S>(alloc, reader, ty),
            2 => self
                .objects
                .take_as::<ListOf<ObjectFields>, S>(alloc, reader, ty),
            _ => skip_field(reader, ty),
        }
    }
}

impl StructSink for StatisticsFields {
    type Out = StatsArg;

    ghost whole = { statistics_whole };

    fn finish(self, alloc: Global) -> Option<StatsArg> {
        if self.has_bad_text() {
            return None;
        }
        Some(StatsArg {
            desc: self.desc.value(),
            objects: self.objects.value_or(ListOf::new(alloc)),
        })
    }
}

impl StatisticsFields {
    // Whether a text that counts isn't UTF-8.
    fn has_bad_text(&self) -> bool
        ensures { result ≡ statistics_is_bad self.now }
    {
        self.desc.is_bad() || self.objects.is_bad()
    }
}

impl FromWire for StatisticsFields {
    type Value = StatsArg;

    ghost CODE = { struct_code };

    const CODE: u8 = type_code::STRUCT;

    ghost means = { statistics_of };

    #[tactic(auto, unfolding(crate::specs::Statistics::statistics_of))]
    fn read<S: Source>(
        alloc: Global,
        reader: &mut WireReader<'_, S>,
    ) -> Result<Got<StatsArg>, WireFault> {
        read_struct::<StatisticsFields, S>(alloc, reader)
    }
}

/// Reads a ColumnStatistics. An absent `statsDesc` stays absent, and an absent list is empty.
pub fn read_column_statistics<S: Source>(
    alloc: Global,
    reader: &mut WireReader<'_, S>,
) -> Result<StatsArg, StructFault>
    ensures same_source { reader.new.source.ghost_name ≡ reader.old.source.ghost_name }
    ensures later { S.faults reader.old.source.now ≤ S.faults reader.new.source.now }
    ensures cause { reader.old.progress.fault ≡ None → IsErrOf result (StructFault.Wire WireFault.ReadFault) → Rose (S.faults reader.old.source.now) (S.faults reader.new.source.now) }
    ensures stays { StaysBut (StructFault.Wire WireFault.ReadFault) result (S.faults reader.old.source.now) (S.faults reader.new.source.now) }
    ensures reads { Makes (S.left reader.old.source.now) (S.left reader.new.source.now) reader.old.progress reader.new.progress result statistics_made }
{
    read_whole::<StatisticsFields, S>(alloc, reader)
}

/// A ColumnStatistics with its fields in rising order of their ids.
#[tactic(auto, unfolding(crate::specs::Statistics::statistics_tree))]
pub fn write_column_statistics(
    writer: &mut WireWriter,
    desc: &StatsDesc,
    stats: &NamedStats,
) -> Result<(), NoMemory>
    ensures { Gathers writer.old writer.new result (wire_bytes struct_code (statistics_tree desc.now stats.now)) }
{
    put_field::<DescFields>(writer, 1, desc)?;
    put_field::<ListOf<ObjectFields>>(writer, 2, stats)?;
    writer.stop()
}
