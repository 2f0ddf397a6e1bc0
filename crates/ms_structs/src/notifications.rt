//! Events onto the wire.

ghost use Rattle.std.specs.Prelude.{◌≡◌, ◌<◌, ◌^◌, ◌++◌, length, pos};
ghost use Rattle.std.specs.List.{flat_map, zip};
ghost use Rattle.std.specs.Option.{option_copied};
ghost use Rattle.thrift_binary.specs.Sending.{Gathers};
ghost use Rattle.thrift_binary.specs.Strict.{field_bytes, fields_bytes, wire_bytes};
ghost use Rattle.thrift_binary.specs.Tree.{Struct};
ghost use Rattle.thrift_binary.specs.Wire.{int_bytes, long_bytes, text_bytes};
ghost use Rattle.ms_structs.specs.Notifications.{cut_int, cut_long, event_fields, event_tree, events_fields, newest_fields};
ghost use Rattle.ms_structs.specs.Written.{optional_text};

use crate::literals::put_literal;
use crate::told_events::{cut_int, cut_long, kind_name, table_of};
use cat_types::{Event, Events, NoMemory, Text, Texts};
use thrift_binary::WireWriter;

/// A NotificationEvent with its message: its fields stand in rising order of their ids, and an event
/// without a table has no `tableName`.
pub fn write_notification_event(
    writer: &mut WireWriter,
    event: &Event,
    message: &Text,
) -> Result<(), NoMemory>
    ensures { Gathers writer.old writer.new result (wire_bytes 12 (event_tree event.now message.now)) }
{
    put_event_fields(writer, event, message)?;
    writer.stop()
}

/// A NotificationEventResponse: the events, each with its message.
pub fn write_notification_event_response(
    writer: &mut WireWriter,
    events: &Events,
    messages: &Texts,
) -> Result<(), NoMemory>
    requires { length messages.now ≡ length events.now }
    ensures { Gathers writer.old writer.new result (wire_bytes 12 (Struct (events_fields events.now messages.now))) }
{
    put_events_field(writer, events.as_slice(), messages.as_slice())?;
    writer.stop()
}

/// A CurrentNotificationEventId.
pub fn write_current_notification_event_id(writer: &mut WireWriter, id: i64) -> Result<(), NoMemory>
    ensures { Gathers writer.old writer.new result (wire_bytes 12 (Struct (newest_fields id))) }
{
    put_long(writer, 1, id)?;
    writer.stop()
}

// The field of the events.
fn put_events_field(
    writer: &mut WireWriter,
    events: &[Event],
    messages: &[Text],
) -> Result<(), NoMemory>
    requires fits { length events.now < 2 ^ 31 }
    requires equally_many { length messages.now ≡ length events.now }
    ensures { Gathers writer.old writer.new result (fields_bytes (events_fields events.now messages.now)) }
{
    writer.field(15, 1)?;
    writer.list(12, events.len() as u32)?;
    put_events(writer, events, messages)
}

// Events, one after the other.
fn put_events(writer: &mut WireWriter, events: &[Event], messages: &[Text]) -> Result<(), NoMemory>
    requires { length messages.now ≡ length events.now }
    ensures { Gathers writer.old writer.new result (flat_map (λ pair. wire_bytes 12 (event_tree pair.0 pair.1)) (zip events.now messages.now)) }
{
    for at in 0..events.len() {
        write_notification_event(writer, &events[at], &messages[at])?;
    }
    Ok(())
}

// The fields of an event.
fn put_event_fields(writer: &mut WireWriter, event: &Event, message: &Text) -> Result<(), NoMemory>
    ensures { Gathers writer.old writer.new result (fields_bytes (event_fields event.now message.now)) }
{
    put_id(writer, event.id)?;
    put_moment(writer, event.moment)?;
    put_word(writer, 3, kind_name(event.change.kind))?;
    put_text(writer, 4, &event.change.db)?;
    put_lent(writer, 5, table_of(event))?;
    put_text(writer, 6, message)?;
    put_word(writer, 7, MESSAGE_FORMAT)
}

// How messages are written.
const MESSAGE_FORMAT: &str = "hms-own-1";

fn put_long(writer: &mut WireWriter, id: i16, value: i64) -> Result<(), NoMemory>
    ensures { Gathers writer.old writer.new result (field_bytes 10 id ++ long_bytes value) }
{
    writer.field(10, id)?;
    writer.long(value)
}

// The number of an event.
fn put_id(writer: &mut WireWriter, id: u64) -> Result<(), NoMemory>
    ensures { Gathers writer.old writer.new result (field_bytes 10 (pos 1) ++ long_bytes (cut_long id)) }
{
    writer.field(10, 1)?;
    writer.long(cut_long(id))
}

// The moment of an event.
fn put_moment(writer: &mut WireWriter, moment: u64) -> Result<(), NoMemory>
    ensures { Gathers writer.old writer.new result (field_bytes 8 (pos 2) ++ int_bytes (cut_int moment)) }
{
    writer.field(8, 2)?;
    writer.int(cut_int(moment))
}

fn put_text(writer: &mut WireWriter, id: i16, text: &Text) -> Result<(), NoMemory>
    ensures { Gathers writer.old writer.new result (field_bytes 11 id ++ text_bytes text.now) }
{
    writer.field(11, id)?;
    writer.text(text)
}

fn put_word(writer: &mut WireWriter, id: i16, word: &str) -> Result<(), NoMemory>
    requires { length word.now < 2 ^ 31 }
    ensures { Gathers writer.old writer.new result (field_bytes 11 id ++ text_bytes word.now) }
{
    writer.field(11, id)?;
    put_literal(writer, word)
}

// A text in a field with this id; an absent one isn't written.
fn put_lent(writer: &mut WireWriter, id: i16, text: Option<&Text>) -> Result<(), NoMemory>
    ensures { Gathers writer.old writer.new result (fields_bytes (optional_text id (option_copied text.entry))) }
{
    match text {
        Some(text) => {
            writer.field(11, id)?;
            writer.text(text)
        }
        None => Ok(()),
    }
}
