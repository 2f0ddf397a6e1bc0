//! Replies to messages.

ghost use Rattle.std.specs.Prelude.{◌≡◌, ◌==◌, IfOk, IsSome, map, pos};
ghost use Rattle.std.specs.Option.{option_copied};
ghost use Rattle.thrift_binary.specs.Codes.{i64_code, list_code, map_code, oneway_kind, struct_code};
ghost use Rattle.thrift_binary.specs.Sending.{Gathers};
ghost use Rattle.thrift_binary.specs.Strict.{fields_bytes, message_bytes, wire_bytes};
ghost use Rattle.thrift_binary.specs.Tree.{Field, NoFields, Number, Struct};
ghost use Rattle.ms_structs.specs.Dumps.{dump_result};
ghost use Rattle.ms_structs.specs.Notifications.{cut_long, events_fields, newest_fields};
ghost use Rattle.ms_structs.specs.Written.{items_tree, params_tree};
ghost use Rattle.stat_structs.specs.Statistics.{statistics_tree};
ghost use Rattle.stat_structs.specs.Requests.{statistics_result};
ghost use Rattle.table_structs.specs.Columns.{column_tree};
ghost use Rattle.table_structs.specs.PartRequests.{partitions_result};
ghost use Rattle.table_structs.specs.Partitions.{partition_tree};
ghost use Rattle.table_structs.specs.Requests.{table_result};
ghost use Rattle.table_structs.specs.Tables.{table_tree};
ghost use Rattle.notify_log.specs.Messages.{message_text};
ghost use Rattle.ms_calls.specs.Methods.{method_named};
ghost use Rattle.ms_calls.specs.Replies.{CanReply, declared_fields, desc_of, exception_tree, general_fields, one_part, one_table, one_text, or_none, refused_as, reply_fields, reply_head, reply_kind, result_fields, table_in_struct, taken_at};

use crate::exception::{declared_id, general_code};
use crate::{Method, ResultType, method_named};
use cat_types::{
    Columns, CopyParts, Event, Events, ListOf, NamedPart, NamedStats, NamedTable, NoMemory, Params,
    Parts, Reply, StatsDesc, Tables, Text, Texts,
};
use ms_structs::{
    ToWire, cut_long, put_list, put_texts, write_current_notification_event_id, write_database,
    write_get_all_functions_response, write_notification_event_response, write_repl_dump_result,
};
use notify_log::message;
use stat_structs::{write_column_statistics, write_table_stats_result};
use std::alloc::Global;
use table_structs::{
    ColumnFields, PartitionFields, TableFields, write_add_partitions_result,
    write_get_table_result, write_partition, write_table,
};
use thrift_binary::{Head, WireWriter, message_kind, type_code};

/// Whether the sender of a message wants no reply.
pub fn is_one_way(head: &Head) -> bool
    ensures { result ≡ (head.now.kind == oneway_kind) }
{
    head.kind == message_kind::ONEWAY
}

/// Gathers the reply to the message with this head, in the strict spelling of Thrift's binary
/// protocol: a result under field 0, an exception under the id at which the call declares it, or a
/// TApplicationException in a message of kind 3.
pub fn put_reply(
    alloc: Global,
    writer: &mut WireWriter,
    head: &Head,
    reply: &Reply,
) -> Result<(), NoMemory>
    requires { CanReply (method_named head.now.name) reply.now }
    ensures { Gathers writer.old writer.new result (message_bytes (reply_head head.now reply.now) (reply_fields (method_named head.now.name) reply.now)) }
{
    put_reply_of(alloc, writer, head, method_named(head.name.as_str()), reply)
}

/// Gathers the reply to the message with this head, as a call with this method declares it, or as
/// one that nobody knows.
pub fn put_reply_of(
    alloc: Global,
    writer: &mut WireWriter,
    head: &Head,
    method: Option<Method>,
    reply: &Reply,
) -> Result<(), NoMemory>
    requires { CanReply method reply.now }
    ensures { Gathers writer.old writer.new result (message_bytes (reply_head head.now reply.now) (reply_fields method reply.now)) }
{
    writer.reply_head(head, reply_kind(reply))?;
    put_fields(alloc, writer, method, reply)?;
    writer.stop()
}

// The kind of the message that sends a reply.
fn reply_kind(reply: &Reply) -> u8
    ensures { result ≡ reply_kind reply.now }
{
    match reply {
        Reply::Refused(number, _) => match general_code(*number) {
            Some(_) => message_kind::EXCEPTION,
            None => message_kind::REPLY,
        },
        Reply::Nothing | Reply::Flag(_) | Reply::Number(_) | Reply::Big(_) => message_kind::REPLY,
        Reply::Names(_) | Reply::Spec(_) | Reply::Fields(_) => message_kind::REPLY,
        Reply::Db(_, _) | Reply::Tables(_) | Reply::Parts(_) => message_kind::REPLY,
        Reply::Stats(_) | Reply::ColumnStats { .. } => message_kind::REPLY,
        Reply::Events(_) | Reply::Dumped(_, _) => message_kind::REPLY,
    }
}

// The fields of a reply.
fn put_fields(
    alloc: Global,
    writer: &mut WireWriter,
    method: Option<Method>,
    reply: &Reply,
) -> Result<(), NoMemory>
    requires { CanReply method reply.now }
    ensures { Gathers writer.old writer.new result (fields_bytes (reply_fields method reply.now)) }
{
    match (method, reply) {
        (method, Reply::Refused(number, text)) => put_refused(
            writer,
            text,
            general_code(*number),
            declared_id(method, *number),
        ),
        (Some(method), result) => put_result(alloc, writer, method.result_type(), result),
        (None, _) => unreachable!(),
    }
}

// The field of a result.
fn put_result(
    alloc: Global,
    writer: &mut WireWriter,
    result_type: ResultType,
    reply: &Reply,
) -> Result<(), NoMemory>
    requires { IsSome (result_fields result_type reply.now) }
    ensures { Gathers writer.old writer.new result (fields_bytes (or_none (result_fields result_type reply.now))) }
{
    match (result_type, reply) {
        (ResultType::NoField, Reply::Nothing) => Ok(()),
        (ResultType::EmptyStruct, Reply::Nothing) => {
            writer.field(type_code::STRUCT, 0)?;
            write_get_all_functions_response(writer)
        }
        (ResultType::OneText, Reply::Names(texts)) => put_one_text(writer, texts),
        (ResultType::TextList, Reply::Names(texts)) => {
            writer.field(type_code::LIST, 0)?;
            put_texts(writer, texts.as_slice())
        }
        (ResultType::Flag, Reply::Flag(flag)) => {
            writer.field(type_code::BOOL, 0)?;
            writer.flag(*flag)
        }
        (ResultType::TextMap, Reply::Spec(spec)) => put_spec(writer, spec),
        (ResultType::Int, Reply::Number(number)) => {
            writer.field(type_code::I32, 0)?;
            writer.int(*number)
        }
        (ResultType::Database, Reply::Db(name, rec)) => {
            writer.field(type_code::STRUCT, 0)?;
            write_database(writer, name, rec)
        }
        (ResultType::OneTable, Reply::Tables(tables)) => put_one_table(writer, tables),
        (ResultType::TableResult, Reply::Tables(tables)) => put_table_in_struct(writer, tables),
        (ResultType::TableList, Reply::Tables(tables)) => put_tables(writer, tables),
        (ResultType::ColumnList, Reply::Fields(columns)) => put_columns(writer, columns),
        (ResultType::OnePart, Reply::Parts(parts)) => put_one_part(writer, parts),
        (ResultType::PartList, Reply::Parts(parts)) => put_parts(writer, parts),
        (ResultType::PartsResult, Reply::Parts(parts)) => put_parts_result(writer, Some(parts)),
        (ResultType::PartsResult, Reply::Nothing) => put_parts_result(writer, None),
        (
            ResultType::Statistics,
            Reply::ColumnStats {
                db,
                table,
                part,
                stats,
            },
        ) => put_statistics(alloc, writer, db, table, part, stats),
        (ResultType::StatisticsResult, Reply::Stats(stats)) => put_statistics_result(writer, stats),
        (ResultType::Events, Reply::Events(events)) => put_events(alloc, writer, events),
        (ResultType::NewestEvent, Reply::Big(number)) => put_newest(writer, *number),
        (ResultType::DumpResult, Reply::Dumped(dir, last)) => put_dumped(writer, dir, *last),
        (ResultType::Long, Reply::Big(number)) => put_long(writer, *number),
        _ => unreachable!(),
    }
}

// The one text of a list, under field 0.
fn put_one_text(writer: &mut WireWriter, texts: &Texts) -> Result<(), NoMemory>
    requires { IsSome (one_text texts.now) }
    ensures { Gathers writer.old writer.new result (fields_bytes (or_none (one_text texts.now))) }
{
    let [text] = texts.as_slice() else {
        unreachable!()
    };
    writer.field(type_code::STRING, 0)?;
    writer.text(text)
}

// The one table of a list, under field 0.
fn put_one_table(writer: &mut WireWriter, tables: &Tables) -> Result<(), NoMemory>
    requires { IsSome (one_table tables.now) }
    ensures { Gathers writer.old writer.new result (fields_bytes (or_none (one_table tables.now))) }
{
    let [table] = tables.as_slice() else {
        unreachable!()
    };
    put_table(writer, table)
}

// A table, under field 0.
fn put_table(writer: &mut WireWriter, table: &NamedTable) -> Result<(), NoMemory>
    ensures { Gathers writer.old writer.new result (fields_bytes (Field struct_code (pos 0) (table_tree table.now) NoFields)) }
{
    writer.field(type_code::STRUCT, 0)?;
    write_table(writer, table)
}

// The one table of a list, in a struct under field 0.
fn put_table_in_struct(writer: &mut WireWriter, tables: &Tables) -> Result<(), NoMemory>
    requires { IsSome (table_in_struct tables.now) }
    ensures { Gathers writer.old writer.new result (fields_bytes (or_none (table_in_struct tables.now))) }
{
    let [table] = tables.as_slice() else {
        unreachable!()
    };
    put_table_result(writer, table)
}

// A table in a struct, under field 0.
fn put_table_result(writer: &mut WireWriter, table: &NamedTable) -> Result<(), NoMemory>
    ensures { Gathers writer.old writer.new result (fields_bytes (Field struct_code (pos 0) (table_result table.now) NoFields)) }
{
    writer.field(type_code::STRUCT, 0)?;
    write_get_table_result(writer, table)
}

// A list of tables, under field 0.
fn put_tables(writer: &mut WireWriter, tables: &Tables) -> Result<(), NoMemory>
    ensures { Gathers writer.old writer.new result (fields_bytes (Field list_code (pos 0) (items_tree struct_code table_tree tables.now) NoFields)) }
{
    writer.field(type_code::LIST, 0)?;
    put_list::<TableFields>(writer, tables.as_slice())
}

// A list of columns, under field 0.
fn put_columns(writer: &mut WireWriter, columns: &Columns) -> Result<(), NoMemory>
    ensures { Gathers writer.old writer.new result (fields_bytes (Field list_code (pos 0) (items_tree struct_code column_tree columns.now) NoFields)) }
{
    writer.field(type_code::LIST, 0)?;
    put_list::<ColumnFields>(writer, columns.as_slice())
}

// A map from texts to texts, under field 0.
fn put_spec(writer: &mut WireWriter, spec: &Params) -> Result<(), NoMemory>
    ensures { Gathers writer.old writer.new result (fields_bytes (Field map_code (pos 0) (params_tree spec.now) NoFields)) }
{
    writer.field(type_code::MAP, 0)?;
    Params::write(writer, spec)
}

// The one partition of a list, under field 0.
fn put_one_part(writer: &mut WireWriter, parts: &Parts) -> Result<(), NoMemory>
    requires { IsSome (one_part parts.now) }
    ensures { Gathers writer.old writer.new result (fields_bytes (or_none (one_part parts.now))) }
{
    let [part] = parts.as_slice() else {
        unreachable!()
    };
    put_part(writer, part)
}

// A partition, under field 0.
fn put_part(writer: &mut WireWriter, part: &NamedPart) -> Result<(), NoMemory>
    ensures { Gathers writer.old writer.new result (fields_bytes (Field struct_code (pos 0) (partition_tree part.now) NoFields)) }
{
    writer.field(type_code::STRUCT, 0)?;
    write_partition(writer, part)
}

// A list of partitions, under field 0.
fn put_parts(writer: &mut WireWriter, parts: &Parts) -> Result<(), NoMemory>
    ensures { Gathers writer.old writer.new result (fields_bytes (Field list_code (pos 0) (items_tree struct_code partition_tree parts.now) NoFields)) }
{
    writer.field(type_code::LIST, 0)?;
    put_list::<PartitionFields>(writer, parts.as_slice())
}

// A list of partitions in a struct, or the struct without it, under field 0.
fn put_parts_result(writer: &mut WireWriter, parts: Option<&Parts>) -> Result<(), NoMemory>
    ensures { Gathers writer.old writer.new result (fields_bytes (Field struct_code (pos 0) (partitions_result (option_copied parts.entry)) NoFields)) }
{
    writer.field(type_code::STRUCT, 0)?;
    write_add_partitions_result(writer, parts)
}

// Statistics, and of what they are, under field 0.
fn put_statistics(
    alloc: Global,
    writer: &mut WireWriter,
    db: &Text,
    table: &Text,
    part: &Option<Text>,
    stats: &NamedStats,
) -> Result<(), NoMemory>
    ensures { Gathers writer.old writer.new result (fields_bytes (Field struct_code (pos 0) (statistics_tree (desc_of db.now table.now part.now stats.now) stats.now) NoFields)) }
{
    let desc = desc_of(alloc, db, table, part, stats)?;
    writer.field(type_code::STRUCT, 0)?;
    write_column_statistics(writer, &desc, stats)
}

// Of what statistics are: of a table, unless a partition is named; they were taken when the first of
// them was.
fn desc_of(
    alloc: Global,
    db: &Text,
    table: &Text,
    part: &Option<Text>,
    stats: &NamedStats,
) -> Result<StatsDesc, NoMemory>
    ensures { IfOk result (λ desc. desc ≡ desc_of db.now table.now part.now stats.now) }
{
    match (db, table, part).copy_parts(alloc) {
        Ok((db, table, part)) => Ok(StatsDesc {
            table_level: part.is_none(),
            db: Some(db),
            table: Some(table),
            part,
            analyzed: taken_at(stats),
        }),
        Err(NoMemory) => Err(NoMemory),
    }
}

// When the first of these statistics was taken.
fn taken_at(stats: &NamedStats) -> Option<i64>
    ensures { result ≡ taken_at stats.now }
{
    match stats.as_slice() {
        [stat, ..] => Some(stat.rec.analyzed),
        [] => None,
    }
}

// Statistics in a struct, under field 0.
fn put_statistics_result(writer: &mut WireWriter, stats: &NamedStats) -> Result<(), NoMemory>
    ensures { Gathers writer.old writer.new result (fields_bytes (Field struct_code (pos 0) (statistics_result stats.now) NoFields)) }
{
    writer.field(type_code::STRUCT, 0)?;
    write_table_stats_result(writer, stats)
}

// Events with their messages, under field 0.
fn put_events(alloc: Global, writer: &mut WireWriter, events: &Events) -> Result<(), NoMemory>
    ensures { Gathers writer.old writer.new result (fields_bytes (Field struct_code (pos 0) (Struct (events_fields events.now (map message_text events.now))) NoFields)) }
{
    let messages = messages_of(alloc, events.as_slice())?;
    writer.field(type_code::STRUCT, 0)?;
    write_notification_event_response(writer, events, &messages)
}

// The message of each event.
fn messages_of(alloc: Global, events: &[Event]) -> Result<Texts, NoMemory>
    ensures { IfOk result (λ messages. messages ≡ map message_text events.now) }
{
    let mut messages = ListOf::new(alloc);
    for event in events {
        messages.push(message(alloc, event)?)?;
    }
    Ok(messages)
}

// The number of the newest event, under field 0.
fn put_newest(writer: &mut WireWriter, number: i64) -> Result<(), NoMemory>
    ensures { Gathers writer.old writer.new result (fields_bytes (Field struct_code (pos 0) (Struct (newest_fields number)) NoFields)) }
{
    writer.field(type_code::STRUCT, 0)?;
    write_current_notification_event_id(writer, number)
}

// The folder of a dump, and the number of the event up to which it goes, under field 0.
fn put_dumped(writer: &mut WireWriter, dir: &Text, last: u64) -> Result<(), NoMemory>
    ensures { Gathers writer.old writer.new result (fields_bytes (Field struct_code (pos 0) (dump_result dir.now (cut_long last)) NoFields)) }
{
    writer.field(type_code::STRUCT, 0)?;
    write_repl_dump_result(writer, dir, cut_long(last))
}

// A number of eight bytes, under field 0.
fn put_long(writer: &mut WireWriter, number: i64) -> Result<(), NoMemory>
    ensures { Gathers writer.old writer.new result (fields_bytes (Field i64_code (pos 0) (Number number) NoFields)) }
{
    writer.field(type_code::I64, 0)?;
    writer.long(number)
}

// The fields of a refusal, by its code where every call may be answered it, or by the id of its exception.
fn put_refused(
    writer: &mut WireWriter,
    text: &Text,
    code: Option<i32>,
    id: Option<i16>,
) -> Result<(), NoMemory>
    requires { IsSome (refused_as text.now code id) }
    ensures { Gathers writer.old writer.new result (fields_bytes (or_none (refused_as text.now code id))) }
{
    match (code, id) {
        (Some(code), _) => put_general(writer, text, code),
        (None, Some(id)) => put_declared(writer, text, id),
        (None, None) => unreachable!(),
    }
}

// A TApplicationException with this text and code.
fn put_general(writer: &mut WireWriter, text: &Text, code: i32) -> Result<(), NoMemory>
    ensures { Gathers writer.old writer.new result (fields_bytes (general_fields text.now code)) }
{
    writer.field(type_code::STRING, 1)?;
    writer.text(text)?;
    writer.field(type_code::I32, 2)?;
    writer.int(code)
}

// An exception with this text, which is declared under this id.
fn put_declared(writer: &mut WireWriter, text: &Text, id: i16) -> Result<(), NoMemory>
    ensures { Gathers writer.old writer.new result (fields_bytes (declared_fields text.now id)) }
{
    writer.field(type_code::STRUCT, id)?;
    put_exception(writer, text)
}

// The struct of an exception with this text.
fn put_exception(writer: &mut WireWriter, text: &Text) -> Result<(), NoMemory>
    ensures { Gathers writer.old writer.new result (wire_bytes struct_code (exception_tree text.now)) }
{
    writer.field(type_code::STRING, 1)?;
    writer.text(text)?;
    writer.stop()
}
