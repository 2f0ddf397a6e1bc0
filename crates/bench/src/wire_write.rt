//! A reply that tells a table of 50 columns, gathered and sent to a sink that only counts its bytes.

ghost use Rattle.std.specs.Prelude.{None};

use crate::samples::texts_of;
use crate::stop::Stop;
use cat_values::{NoMemory, Text, Texts};
use hms_outside::{Outage, Sink};
use std::alloc::Global;
use thrift_binary::{Head, WireWriter};

const BOOL: u8 = 2;

const INT: u8 = 8;

const TEXT: u8 = 11;

const STRUCT: u8 = 12;

const MAP: u8 = 13;

const LIST: u8 = 15;

// How many columns the table has.
const COLUMNS: u8 = 50;

// How many parameters the table has.
const PARAMETERS: u32 = 10;

// The names of the table, its database and its owner.
const NAMES: &str = "orders_of_the_day|warehouse|etl";

// A column's name, type and comment.
const COLUMN: &str = "customer_number|decimal(18,2)|as it was when the order was placed";

// Where the rows are, and the formats that they are read and written in.
const STORAGE: &str = "hdfs://name/warehouse/warehouse.db/orders_of_the_day|\
    org.apache.hadoop.hive.ql.io.orc.OrcInputFormat|\
    org.apache.hadoop.hive.ql.io.orc.OrcInputFormat";

// A parameter's key and value.
const PARAMETER: &str = "transient_lastDdlTime|1767225600";

/// Writes the reply so often, and adds up its bytes.
pub fn write(alloc: Global, count: u32) -> Result<u64, Stop> {
    let head = head(alloc)?;
    let lists = lists(alloc)?;
    let [names, column, storage, parameter] = lists.as_slice() else {
        return Err(Stop::Sample);
    };
    let table = Table {
        names,
        column,
        storage,
        parameter,
    };
    write_replies(alloc, &head, &table, count)
}

fn head(alloc: Global) -> Result<Head, Stop> {
    let name = Text::of(alloc, "get_table")?;
    Ok(Head {
        name,
        kind: 2,
        sequence: 7,
    })
}

fn lists(alloc: Global) -> Result<Vec<Texts>, Stop> {
    let mut lists = Vec::new(alloc);
    for joined in [NAMES, COLUMN, STORAGE, PARAMETER] {
        lists.push(texts_of(alloc, joined)?)?;
    }
    Ok(lists)
}

// The texts of a table.
#[derive(Drop)]
struct Table<'a> {
    names: &'a Texts,
    column: &'a Texts,
    storage: &'a Texts,
    parameter: &'a Texts,
}

fn write_replies(alloc: Global, head: &Head, table: &Table<'_>, count: u32) -> Result<u64, Stop> {
    let mut writer = WireWriter::new(alloc);
    let mut sink = Counted { bytes: 0 };
    for _ in 0..count {
        write_reply(&mut writer, head, table)?;
        writer.send(&mut sink)?;
    }
    Ok(sink.bytes)
}

// A sink that keeps nothing of its bytes but how many they were.
#[derive(Drop)]
struct Counted {
    bytes: u64,
}

impl Sink for Counted {
    ghost held = { λ _. None };

    ghost faults = { λ _. 0 };

    fn write(&mut self, bytes: &[u8]) -> Result<usize, Outage> {
        self.bytes = self.bytes.saturating_add(bytes.len() as u64);
        Ok(bytes.len())
    }

    fn flush(&mut self) -> Result<(), Outage> {
        Ok(())
    }
}

// Gathers the reply: its head, and the struct that has the table.
fn write_reply(writer: &mut WireWriter, head: &Head, table: &Table<'_>) -> Result<(), NoMemory> {
    writer.head(head)?;
    writer.field(STRUCT, 0)?;
    write_texts(writer, 1, table.names)?;
    write_numbers(writer, 4, &[1_767_225_600, 0, 0])?;
    writer.field(STRUCT, 7)?;
    write_storage(writer, table)?;
    writer.field(LIST, 8)?;
    write_columns(writer, table.column, 1)?;
    writer.field(MAP, 9)?;
    write_parameters(writer, table.parameter)?;
    writer.stop()?;
    writer.stop()
}

fn write_storage(writer: &mut WireWriter, table: &Table<'_>) -> Result<(), NoMemory> {
    writer.field(LIST, 1)?;
    write_columns(writer, table.column, COLUMNS)?;
    write_texts(writer, 2, table.storage)?;
    writer.field(BOOL, 5)?;
    writer.flag(false)?;
    write_numbers(writer, 6, &[-1])?;
    writer.stop()
}

fn write_columns(writer: &mut WireWriter, column: &Texts, count: u8) -> Result<(), NoMemory> {
    writer.list(STRUCT, u32::from(count))?;
    for _ in 0..count {
        write_texts(writer, 1, column)?;
        writer.stop()?;
    }
    Ok(())
}

fn write_parameters(writer: &mut WireWriter, parameter: &Texts) -> Result<(), NoMemory> {
    writer.map(TEXT, TEXT, PARAMETERS)?;
    for _ in 0..PARAMETERS {
        for text in parameter.as_slice() {
            writer.text(text)?;
        }
    }
    Ok(())
}

// Gathers fields with texts, whose ids count from the first one's.
fn write_texts(writer: &mut WireWriter, first: i16, texts: &Texts) -> Result<(), NoMemory> {
    let mut id = first;
    for text in texts.as_slice() {
        writer.field(TEXT, id)?;
        writer.text(text)?;
        id = id.wrapping_add(1);
    }
    Ok(())
}

// The same with numbers.
fn write_numbers(writer: &mut WireWriter, first: i16, numbers: &[i32]) -> Result<(), NoMemory> {
    let mut id = first;
    for number in numbers {
        writer.field(INT, id)?;
        writer.int(*number)?;
        id = id.wrapping_add(1);
    }
    Ok(())
}
