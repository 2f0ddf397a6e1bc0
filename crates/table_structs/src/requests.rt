//! Requests for tables, and what answers them.

ghost use Rattle.std.specs.Prelude.{◌≡◌, ℕ, ℤ, ◌≤◌, None, IsErrOf};
ghost use Rattle.hms_outside.specs.Causes.{Rose, StaysBut};
ghost use Rattle.ms_structs.specs.Getting.{Makes};
ghost use Rattle.table_structs.specs.Requests.{request_is_bad, request_made, request_none, request_of, request_set, request_whole, table_result};
ghost use Rattle.thrift_binary.specs.Codes.{struct_code};
ghost use Rattle.thrift_binary.specs.Sending.{Gathers};
ghost use Rattle.thrift_binary.specs.Strict.{wire_bytes};

use crate::TableFields;
use cat_types::{NamedTable, NoMemory, Text};
use hms_outside::Source;
use ms_structs::{
    FieldSink, FromWire, Got, StructFault, StructSink, put_field, read_struct, read_whole,
    skip_field,
};
use std::alloc::Global;
use thrift_binary::{WireFault, WireReader, WireWriter, type_code};

/// What a GetTableRequest asks for. An absent name names nothing.
#[derive(Drop)]
pub struct TableRequest {
    pub db: Option<Text>,
    pub table: Option<Text>,
}

/// What the fields of a GetTableRequest said.
#[derive(Drop)]
pub struct TableRequestFields {
    pub db: Got<Text>,
    pub table: Got<Text>,
}

impl FieldSink for TableRequestFields {
    ghost none = { request_none };

    ghost set = { request_set };

    fn empty() -> TableRequestFields {
        TableRequestFields {
            db: Got::Nothing,
            table: Got::Nothing,
        }
    }

    fn take<S: Source>(
        &mut self,
        alloc: Global,
        reader: &mut WireReader<'_, S>,
        ty: u8,
        id: i16,
    ) -> Result<(), WireFault> {
        match id {
            1 => self.db.take(alloc, reader, ty),
            2 => self.table.take(alloc, reader, ty),
            _ => skip_field(reader, ty),
        }
    }
}

impl StructSink for TableRequestFields {
    type Out = TableRequest;

    ghost whole = { request_whole };

    fn finish(self, _alloc: Global) -> Option<TableRequest> {
        if self.has_bad_text() {
            return None;
        }
        Some(TableRequest {
            db: self.db.value(),
            table: self.table.value(),
        })
    }
}

impl TableRequestFields {
    // Whether a text that counts isn't UTF-8.
    fn has_bad_text(&self) -> bool
        ensures { result ≡ request_is_bad self.now }
    {
        self.db.is_bad() || self.table.is_bad()
    }
}

impl FromWire for TableRequest {
    type Value = TableRequest;

    ghost CODE = { struct_code };

    const CODE: u8 = type_code::STRUCT;

    ghost means = { request_of };

    #[tactic(auto, unfolding(crate::specs::Requests::request_of))]
    fn read<S: Source>(
        alloc: Global,
        reader: &mut WireReader<'_, S>,
    ) -> Result<Got<TableRequest>, WireFault> {
        read_struct::<TableRequestFields, S>(alloc, reader)
    }
}

/// Reads a GetTableRequest.
pub fn read_get_table_request<S: Source>(
    alloc: Global,
    reader: &mut WireReader<'_, S>,
) -> Result<TableRequest, StructFault>
    ensures same_source { reader.new.source.ghost_name ≡ reader.old.source.ghost_name }
    ensures later { S.faults reader.old.source.now ≤ S.faults reader.new.source.now }
    ensures cause { reader.old.progress.fault ≡ None → IsErrOf result (StructFault.Wire WireFault.ReadFault) → Rose (S.faults reader.old.source.now) (S.faults reader.new.source.now) }
    ensures stays { StaysBut (StructFault.Wire WireFault.ReadFault) result (S.faults reader.old.source.now) (S.faults reader.new.source.now) }
    ensures reads { Makes (S.left reader.old.source.now) (S.left reader.new.source.now) reader.old.progress reader.new.progress result request_made }
{
    read_whole::<TableRequestFields, S>(alloc, reader)
}

/// A GetTableResult: the table.
pub fn write_get_table_result(writer: &mut WireWriter, value: &NamedTable) -> Result<(), NoMemory>
    ensures { Gathers writer.old writer.new result (wire_bytes struct_code (table_result value.now)) }
{
    put_field::<TableFields>(writer, 1, value)?;
    writer.stop()
}
