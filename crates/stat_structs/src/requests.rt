//! Requests for statistics, and what answers them.

ghost use Rattle.std.specs.Prelude.{◌≡◌, ℕ, ℤ, ◌≤◌, None, IsErrOf};
ghost use Rattle.hms_outside.specs.Causes.{Rose, StaysBut};
ghost use Rattle.ms_structs.specs.Getting.{Makes};
ghost use Rattle.stat_structs.specs.Requests.{request_is_bad, request_made, request_none, request_of, request_set, request_whole, statistics_result};
ghost use Rattle.thrift_binary.specs.Codes.{struct_code};
ghost use Rattle.thrift_binary.specs.Sending.{Gathers};
ghost use Rattle.thrift_binary.specs.Strict.{wire_bytes};

use crate::ObjectFields;
use cat_types::{ListOf, NamedStats, NoMemory, Text, Texts};
use hms_outside::Source;
use ms_structs::{
    FieldSink, FromWire, Got, StructFault, StructSink, put_field, read_struct, read_whole,
    skip_field,
};
use std::alloc::Global;
use thrift_binary::{WireFault, WireReader, WireWriter, type_code};

/// What a TableStatsRequest asks for. An absent name names nothing.
#[derive(Drop)]
pub struct StatsRequest {
    pub db: Option<Text>,
    pub table: Option<Text>,
    pub cols: Texts,
}

/// What the fields of a TableStatsRequest said.
#[derive(Drop)]
pub struct StatsRequestFields {
    pub db: Got<Text>,
    pub table: Got<Text>,
    pub cols: Got<Texts>,
}

impl FieldSink for StatsRequestFields {
    ghost none = { request_none };

    ghost set = { request_set };

    fn empty() -> StatsRequestFields {
        StatsRequestFields {
            db: Got::Nothing,
            table: Got::Nothing,
            cols: Got::Nothing,
        }
    }

    fn take<S: Source>(
        &mut self,
        alloc: Global,
        reader: &mut WireReader<'_, S>,
        ty: u8,
        id: i16,
    ) -> Result<(), WireFault> {
        match id {
            1 => self.db.take(alloc, reader, ty),
            2 => self.table.take(alloc, reader, ty),
            3 => self.cols.take(alloc, reader, ty),
            _ => skip_field(reader, ty),
        }
    }
}

impl StructSink for StatsRequestFields {
    type Out = StatsRequest;

    ghost whole = { request_whole };

    fn finish(self, alloc: Global) -> Option<StatsRequest> {
        if self.has_bad_text() {
            return None;
        }
        Some(StatsRequest {
            db: self.db.value(),
            table: self.table.value(),
            cols: self.cols.value_or(ListOf::new(alloc)),
        })
    }
}

impl StatsRequestFields {
    // Whether a text that counts isn't UTF-8.
    fn has_bad_text(&self) -> bool
        ensures { result ≡ request_is_bad self.now }
    {
        self.db.is_bad() || self.table.is_bad() || self.cols.is_bad()
    }
}

impl FromWire for StatsRequest {
    type Value = StatsRequest;

    ghost CODE = { struct_code };

    const CODE: u8 = type_code::STRUCT;

    ghost means = { request_of };

    #[tactic(auto, unfolding(crate::specs::Requests::request_of))]
    fn read<S: Source>(
        alloc: Global,
        reader: &mut WireReader<'_, S>,
    ) -> Result<Got<StatsRequest>, WireFault> {
        read_struct::<StatsRequestFields, S>(alloc, reader)
    }
}

/// Reads a TableStatsRequest. Absent names stay absent, and an absent list is empty.
pub fn read_table_stats_request<S: Source>(
    alloc: Global,
    reader: &mut WireReader<'_, S>,
) -> Result<StatsRequest, StructFault>
    ensures same_source { reader.new.source.ghost_name ≡ reader.old.source.ghost_name }
    ensures later { S.faults reader.old.source.now ≤ S.faults reader.new.source.now }
    ensures cause { reader.old.progress.fault ≡ None → IsErrOf result (StructFault.Wire WireFault.ReadFault) → Rose (S.faults reader.old.source.now) (S.faults reader.new.source.now) }
    ensures stays { StaysBut (StructFault.Wire WireFault.ReadFault) result (S.faults reader.old.source.now) (S.faults reader.new.source.now) }
    ensures reads { Makes (S.left reader.old.source.now) (S.left reader.new.source.now) reader.old.progress reader.new.progress result request_made }
{
    read_whole::<StatsRequestFields, S>(alloc, reader)
}

/// A TableStatsResult: the statistics of columns.
#[tactic(auto, unfolding(crate::specs::Requests::statistics_result))]
pub fn write_table_stats_result(writer: &mut WireWriter, stats: &NamedStats) -> Result<(), NoMemory>
    ensures { Gathers writer.old writer.new result (wire_bytes struct_code (statistics_result stats.now)) }
{
    put_field::<ListOf<ObjectFields>>(writer, 1, stats)?;
    writer.stop()
}
