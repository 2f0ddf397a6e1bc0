//! Requests for notifications.

ghost use Rattle.std.specs.Prelude.{◌≡◌, ℕ, ℤ, ◌≤◌, None, IsErrOf};
ghost use Rattle.hms_outside.specs.Causes.{Rose, StaysBut};
ghost use Rattle.ms_structs.specs.Getting.{Makes};
ghost use Rattle.ms_structs.specs.Notifications.{request_made, request_none, request_of, request_set, request_whole};
ghost use Rattle.thrift_binary.specs.Codes.{struct_code};

use crate::{
    FieldSink, FromWire, Got, StructFault, StructSink, read_struct, read_whole, skip_field,
};
use hms_outside::Source;
use std::alloc::Global;
use thrift_binary::{WireFault, WireReader, type_code};

/// What a NotificationEventRequest asks for: the events above the number `last`, `max` of them at
/// most; all where `max` is absent, 0 or negative.
#[derive(Drop)]
pub struct NotificationRequest {
    pub last: i64,
    pub max: Option<i32>,
}

/// What the fields of a NotificationEventRequest said.
#[derive(Drop)]
pub struct NotificationRequestFields {
    pub last: Got<i64>,
    pub max: Got<i32>,
}

impl FieldSink for NotificationRequestFields {
    ghost none = { request_none };

    ghost set = { request_set };

    fn empty() -> NotificationRequestFields {
        NotificationRequestFields {
            last: Got::Nothing,
            max: Got::Nothing,
        }
    }

    fn take<S: Source>(
        &mut self,
        alloc: Global,
        reader: &mut WireReader<'_, S>,
        ty: u8,
        id: i16,
    ) -> Result<(), WireFault> {
        match id {
            1 => self.last.take(alloc, reader, ty),
            2 => self.max.take(alloc, reader, ty),
            _ => skip_field(reader, ty),
        }
    }
}

impl StructSink for NotificationRequestFields {
    type Out = NotificationRequest;

    ghost whole = { request_whole };

    fn finish(self, _alloc: Global) -> Option<NotificationRequest> {
        let last = self.last.or(0)?;
        let max = self.max.optional()?;
        Some(NotificationRequest { last, max })
    }
}

impl FromWire for NotificationRequest {
    type Value = NotificationRequest;

    ghost CODE = { struct_code };

    const CODE: u8 = type_code::STRUCT;

    ghost means = { request_of };

    fn read<S: Source>(
        alloc: Global,
        reader: &mut WireReader<'_, S>,
    ) -> Result<Got<NotificationRequest>, WireFault> {
        read_struct::<NotificationRequestFields, S>(alloc, reader)
    }
}

/// Reads a NotificationEventRequest.
pub fn read_notification_event_request<S: Source>(
    alloc: Global,
    reader: &mut WireReader<'_, S>,
) -> Result<NotificationRequest, StructFault>
    ensures same_source { reader.new.source.ghost_name ≡ reader.old.source.ghost_name }
    ensures later { S.faults reader.old.source.now ≤ S.faults reader.new.source.now }
    ensures cause { reader.old.progress.fault ≡ None → IsErrOf result (StructFault.Wire WireFault.ReadFault) → Rose (S.faults reader.old.source.now) (S.faults reader.new.source.now) }
    ensures stays { StaysBut (StructFault.Wire WireFault.ReadFault) result (S.faults reader.old.source.now) (S.faults reader.new.source.now) }
    ensures reads { Makes (S.left reader.old.source.now) (S.left reader.new.source.now) reader.old.progress reader.new.progress result request_made }
{
    read_whole::<NotificationRequestFields, S>(alloc, reader)
}
