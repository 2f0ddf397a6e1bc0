//! Requests that add partitions, and what answers them.

ghost use Rattle.std.specs.Prelude.{◌≡◌, ℕ, ℤ, ◌≤◌, None, IsErrOf};
ghost use Rattle.std.specs.Option.{option_copied};
ghost use Rattle.hms_outside.specs.Causes.{Rose, StaysBut};
ghost use Rattle.ms_structs.specs.Getting.{Makes};
ghost use Rattle.ms_structs.specs.Written.{field_spelled};
ghost use Rattle.table_structs.specs.PartRequests.{adding_from, adding_is_bad, adding_made, adding_none, adding_of, adding_set, adding_whole, partitions_field, partitions_result};
ghost use Rattle.thrift_binary.specs.Codes.{struct_code};
ghost use Rattle.thrift_binary.specs.Sending.{Gathers};
ghost use Rattle.thrift_binary.specs.Strict.{wire_bytes};

use crate::PartitionFields;
use cat_types::{Call, ListOf, NoMemory, PartArgs, Parts, Text};
use hms_outside::Source;
use ms_structs::{
    FieldSink, FromWire, Got, StructFault, StructSink, put_field, read_struct, read_whole,
    skip_field,
};
use std::alloc::Global;
use thrift_binary::{WireFault, WireReader, WireWriter, type_code};

/// What the fields of an AddPartitionsRequest said. As a type of the wire it is the call that the
/// request asks for.
#[derive(Drop)]
pub struct AddPartitionsFields {
    pub db: Got<Text>,
    pub table: Got<Text>,
    pub parts: Got<PartArgs>,
    pub if_not_exists: Got<bool>,
    pub need_result: Got<bool>,
}

impl FieldSink for AddPartitionsFields {
    ghost none = { adding_none };

    ghost set = { adding_set };

    fn empty() -> AddPartitionsFields {
        AddPartitionsFields {
            db: Got::Nothing,
            table: Got::Nothing,
            parts: Got::Nothing,
            if_not_exists: Got::Nothing,
            need_result: Got::Nothing,
        }
    }

    fn take<S: Source>(
        &mut self,
        alloc: Global,
        reader: &mut WireReader<'_, S>,
        ty: u8,
        id: i16,
    ) -> Result<(), WireFault> {
        match id {
            1 => self.db.take(alloc, reader, ty),
            2 => self.table.take(alloc, reader, ty),
            3 => self
                .parts
                .take_as::<ListOf<PartitionFields>, S>(alloc, reader, ty),
            4 => self.if_not_exists.take(alloc, reader, ty),
            5 => self.need_result.take(alloc, reader, ty),
            _ => skip_field(reader, ty),
        }
    }
}

impl StructSink for AddPartitionsFields {
    type Out = Call;

    ghost whole = { adding_whole };

    fn finish(self, alloc: Global) -> Option<Call> {
        if self.has_bad_text() {
            return None;
        }
        Some(self.made(alloc))
    }
}

impl AddPartitionsFields {
    // Whether a text that counts isn't UTF-8.
    fn has_bad_text(&self) -> bool
        ensures { result ≡ adding_is_bad self.now }
    {
        self.db.is_bad() || self.table.is_bad() || self.parts.is_bad()
    }

    // The call that the fields make, where no text is bad.
    fn made(self, alloc: Global) -> Call
        ensures { result ≡ adding_from self }
    {
        Call::AddPartitionsReq {
            db: self.db.value(),
            table: self.table.value(),
            parts: self.parts.value_or(ListOf::new(alloc)),
            if_not_exists: self.if_not_exists.value_or(false),
            need_result: self.need_result.value_or(true),
        }
    }
}

impl FromWire for AddPartitionsFields {
    type Value = Call;

    ghost CODE = { struct_code };

    const CODE: u8 = type_code::STRUCT;

    ghost means = { adding_of };

    #[tactic(auto, unfolding(crate::specs::PartRequests::adding_of))]
    fn read<S: Source>(
        alloc: Global,
        reader: &mut WireReader<'_, S>,
    ) -> Result<Got<Call>, WireFault> {
        read_struct::<AddPartitionsFields, S>(alloc, reader)
    }
}

/// Reads an AddPartitionsRequest, and answers the call `AddPartitionsReq` that it asks for. Absent names
/// stay absent, an absent list is empty, an absent `ifNotExists` is false, and an absent `needResult` is
/// true.
pub fn read_add_partitions_request<S: Source>(
    alloc: Global,
    reader: &mut WireReader<'_, S>,
) -> Result<Call, StructFault>
    ensures same_source { reader.new.source.ghost_name ≡ reader.old.source.ghost_name }
    ensures later { S.faults reader.old.source.now ≤ S.faults reader.new.source.now }
    ensures cause { reader.old.progress.fault ≡ None → IsErrOf result (StructFault.Wire WireFault.ReadFault) → Rose (S.faults reader.old.source.now) (S.faults reader.new.source.now) }
    ensures stays { StaysBut (StructFault.Wire WireFault.ReadFault) result (S.faults reader.old.source.now) (S.faults reader.new.source.now) }
    ensures reads { Makes (S.left reader.old.source.now) (S.left reader.new.source.now) reader.old.progress reader.new.progress result adding_made }
{
    read_whole::<AddPartitionsFields, S>(alloc, reader)
}

/// An AddPartitionsResult: the partitions that were added, where they are to be told.
pub fn write_add_partitions_result(
    writer: &mut WireWriter,
    parts: Option<&Parts>,
) -> Result<(), NoMemory>
    ensures { Gathers writer.old writer.new result (wire_bytes struct_code (partitions_result (option_copied parts.entry))) }
{
    put_partitions(writer, parts)?;
    writer.stop()
}

// The field of the partitions; absent ones aren't written.
fn put_partitions(writer: &mut WireWriter, parts: Option<&Parts>) -> Result<(), NoMemory>
    ensures { Gathers writer.old writer.new result (field_spelled (partitions_field (option_copied parts.entry))) }
{
    match parts {
        Some(parts) => put_field::<ListOf<PartitionFields>>(writer, 1, parts),
        None => Ok(()),
    }
}
