//! A session of messages in memory, read again and again.

ghost use Rattle.std.specs.Prelude.{None};

use crate::samples::{Part, bytes_of};
use crate::stop::Stop;
use hms_outside::{Outage, Source};
use std::alloc::Global;
use thrift_binary::WireReader;

// Messages as a session has them: a table of 50 columns that is created, and thirty calls with few
// arguments.
const MESSAGES: [Part; 11] = [
    // The call's head, and the table's name, database and owner.
    (
        1,
        b"\x80\x01\0\x01\0\0\0\x0ccreate_table\0\0\0\x07\x0c\0\x01",
    ),
    (
        1,
        b"\x0b\0\x01\0\0\0\x06orders\x0b\0\x02\0\0\0\x05sales\x0b\0\x03\0\0\0\x04hive",
    ),
    // When it was made, and its columns.
    (
        1,
        b"\x08\0\x04\x65\x53\xf1\0\x0c\0\x07\x0f\0\x01\x0c\0\0\0\x32",
    ),
    (
        50,
        b"\x0b\0\x01\0\0\0\x0bcustomer_id\x0b\0\x02\0\0\0\x0ddecimal(18,2)\x0b\0\x03\0\0\0\x0bwho ordered\0",
    ),
    // How its rows are stored.
    (
        1,
        b"\x0b\0\x02\0\0\0\x20hdfs://warehouse/sales.db/orders\x02\0\x05\0\x08\0\x06\xff\xff\xff\xff\0",
    ),
    // Its parameters, and its kind.
    (1, b"\x0d\0\x09\x0b\x0b\0\0\0\x08"),
    (8, b"\0\0\0\x15transient_lastDdlTime\0\0\0\x0a1700000000"),
    (1, b"\x0b\0\x0c\0\0\0\x0dMANAGED_TABLE\0\0"),
    // Calls with few arguments.
    (10, b"\x80\x01\0\x01\0\0\0\x11get_all_databases\0\0\0\x07\0"),
    (
        10,
        b"\x80\x01\0\x01\0\0\0\x0cget_database\0\0\0\x07\x0b\0\x01\0\0\0\x05sales\0",
    ),
    (
        10,
        b"\x80\x01\0\x01\0\0\0\x0eget_partitions\0\0\0\x07\x0b\0\x01\0\0\0\x05sales\x0b\0\x02\0\0\0\x06orders\x06\0\x03\0\x64\0",
    ),
];

// How deep values are read.
const DEPTH: u8 = 64;

/// How the arguments of messages are read.
#[derive(Clone, Copy)]
pub enum Reading {
    /// They are passed over.
    Skip,
    /// Value by value.
    Fields,
}

/// What reading gave: how many messages the session has, and a sum of what all rounds gave.
#[derive(Clone, Copy)]
pub struct Gave {
    pub messages: u64,
    pub sum: u64,
}

/// Reads a session of about so many MiB so often.
pub fn read(alloc: Global, reading: Reading, rounds: u32, size: u32) -> Result<Gave, Stop> {
    let bytes = session(alloc, size)?;
    let mut messages = 0;
    let mut sum: u64 = 0;
    for _ in 0..rounds {
        let mut source = SliceSource { left: &bytes };
        let gave = round(alloc, &mut WireReader::new(&mut source), reading)?;
        messages = gave.messages;
        sum = sum.wrapping_add(gave.sum);
    }
    Ok(Gave { messages, sum })
}

// The messages over and over, until they have so many MiB.
fn session(alloc: Global, size: u32) -> Result<Vec<u8>, Stop> {
    let part = bytes_of(alloc, &MESSAGES)?;
    let mut bytes = Vec::new(alloc);
    for _ in 0..size as u64 * 1_000 {
        if bytes.len() / 1_048_576 < size as usize {
            bytes.extend_from_slice(&part)?;
        }
    }
    Ok(bytes)
}

// Bytes that stand in memory. It tells nothing of what it has left.
#[derive(Drop)]
struct SliceSource<'a> {
    left: &'a [u8],
}

impl<'a> Source for SliceSource<'a> {
    ghost left = { λ _. None };

    ghost faults = { λ _. 0 };

    #[inline]
    fn read(&mut self, buf: &mut [u8]) -> Result<usize, Outage> {
        let count = buf.len().min(self.left.len());
        let (front, rest) = self.left.split_at(count);
        buf[..count].copy_from_slice(front);
        self.left = rest;
        Ok(count)
    }
}

// Reads messages up to the end of the input.
fn round(
    alloc: Global,
    reader: &mut WireReader<'_, SliceSource<'_>>,
    reading: Reading,
) -> Result<Gave, Stop> {
    let mut sum: u64 = 0;
    for messages in 0..u64::MAX {
        let Some(head) = reader.head(alloc)? else {
            return Ok(Gave { messages, sum });
        };
        sum = sum.wrapping_add(head.name.len() as u64);
        match reading {
            Reading::Skip => reader.skip(12)?,
            Reading::Fields => sum = sum.wrapping_add(fields(alloc, reader, DEPTH)?),
        }
    }
    Err(Stop::Sample)
}

// Reads a struct's fields up to its end. The depth is counted here alone: nothing is opened.
#[cycle(value)]
fn fields(
    alloc: Global,
    reader: &mut WireReader<'_, SliceSource<'_>>,
    depth: u8,
) -> Result<u64, Stop> {
    let mut sum: u64 = 0;
    for _ in 0..u64::MAX {
        let Some((ty, id)) = reader.field()? else {
            return Ok(sum);
        };
        sum = sum.wrapping_add(id.unsigned_abs() as u64);
        sum = sum.wrapping_add(value(alloc, reader, ty, depth)?);
    }
    Ok(sum)
}

// Reads a value of this type.
#[cycle(value)]
fn value(
    alloc: Global,
    reader: &mut WireReader<'_, SliceSource<'_>>,
    ty: u8,
    depth: u8,
) -> Result<u64, Stop> {
    match ty {
        11 => text(alloc, reader),
        12 | 13 | 14 | 15 => {
            if depth == 0 {
                return Err(Stop::Sample);
            }
            nested(alloc, reader, ty, depth - 1)
        }
        _ => number(reader, ty),
    }
}

// Reads a struct, a map, a set or a list.
#[cycle(value)]
fn nested(
    alloc: Global,
    reader: &mut WireReader<'_, SliceSource<'_>>,
    ty: u8,
    depth: u8,
) -> Result<u64, Stop> {
    match ty {
        12 => fields(alloc, reader, depth),
        13 => pairs(alloc, reader, depth),
        _ => elements(alloc, reader, depth),
    }
}

#[cycle(value)]
fn elements(
    alloc: Global,
    reader: &mut WireReader<'_, SliceSource<'_>>,
    depth: u8,
) -> Result<u64, Stop> {
    let (ty, count) = reader.list()?;
    let mut sum: u64 = 0;
    for _ in 0..count {
        sum = sum.wrapping_add(value(alloc, reader, ty, depth)?);
    }
    Ok(sum)
}

#[cycle(value)]
fn pairs(
    alloc: Global,
    reader: &mut WireReader<'_, SliceSource<'_>>,
    depth: u8,
) -> Result<u64, Stop> {
    let (key, ty, count) = reader.map()?;
    let mut sum: u64 = 0;
    for _ in 0..count {
        sum = sum.wrapping_add(value(alloc, reader, key, depth)?);
        sum = sum.wrapping_add(value(alloc, reader, ty, depth)?);
    }
    Ok(sum)
}

fn text(alloc: Global, reader: &mut WireReader<'_, SliceSource<'_>>) -> Result<u64, Stop> {
    match reader.text(alloc)? {
        Some(text) => Ok(text.len() as u64),
        None => Ok(0),
    }
}

fn number(reader: &mut WireReader<'_, SliceSource<'_>>, ty: u8) -> Result<u64, Stop> {
    match ty {
        2 => Ok(reader.flag()? as u64),
        3 => Ok(reader.byte()?.unsigned_abs() as u64),
        6 => Ok(reader.short()?.unsigned_abs() as u64),
        8 => Ok(reader.int()?.unsigned_abs() as u64),
        10 => Ok(reader.long()?.unsigned_abs()),
        _ => Ok(reader.eight()?[0] as u64),
    }
}
