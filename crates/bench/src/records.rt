//! An event as a record in bytes, written and read.

use crate::samples::{Part, bytes_of};
use crate::stop::Stop;
use cat_types::{Bytes, Event};
use change_codec::{get_event, put_event};
use std::alloc::Global;

// The record of an event that puts a table of 50 columns.
const EVENT: [Part; 15] = [
    // The event's number, moment and kind, its database, and when that was born.
    (
        1,
        b"\0\0\0\0\0\0\x04\xd2\0\0\0\0j\xb1;\x80\x04\0\0\0\x09warehouse\0\0\0\0\0\0\0\x11",
    ),
    // One operation on a table, and when that was born.
    (
        1,
        b"\0\0\0\x01\x03\0\0\0\x10web_sales_by_day\0\0\0\0\0\0\x04\xd2",
    ),
    // The table's owner, and its times.
    (1, b"\x01\0\0\0\x06loaderj\xb1;\x80"),
    (8, b"\0"),
    // Its columns.
    (1, b"\0\0\0\x32"),
    (
        10,
        b"\0\0\0\x0cws_measure_0\0\0\0\x0ddecimal(18,4)\x01\0\0\0\x1emeasure 0 of the day, in cents",
    ),
    (
        40,
        b"\0\0\0\x0dws_measure_10\0\0\0\x0ddecimal(18,4)\x01\0\0\0\x1fmeasure 10 of the day, in cents",
    ),
    // How its rows are stored.
    (1, b"\x01\0\0\0\x24hdfs://nn/warehouse/web_sales_by_day"),
    (
        1,
        b"\x01\0\0\0\x28org.apache.hadoop.mapred.TextInputFormat\0\0\xff\xff\xff\xff",
    ),
    (
        1,
        b"\x01\0\x01\0\0\0\x29org.apache.hadoop.hive.ql.io.orc.OrcSerde",
    ),
    (18, b"\0"),
    // Its one key.
    (
        1,
        b"\0\0\0\x01\0\0\0\x0dws_measure_50\0\0\0\x0ddecimal(18,4)\x01\0\0\0\x1fmeasure 50 of the day, in cents",
    ),
    // Its parameters, no view, its kind, and no statistics.
    (
        1,
        b"\0\0\0\x02\0\0\0\x07comment\0\0\0\x1csales of the shop on the web",
    ),
    (1, b"\0\0\0\x15transient_lastDdlTime\0\0\0\x0a1790000000"),
    (1, b"\0\0\x01\0\0\0\x0dMANAGED_TABLE\0\0\0\0"),
];

/// Writes the event so often, each time into new bytes. The sum is of the bytes.
pub fn put(alloc: Global, count: u32) -> Result<u64, Stop> {
    let event = get_event(alloc, &bytes_of(alloc, &EVENT)?)?;
    put_often(alloc, &event, count)
}

fn put_often(alloc: Global, event: &Event, count: u32) -> Result<u64, Stop> {
    let mut sum: u64 = 0;
    for _ in 0..count {
        let mut bytes = Bytes::new(alloc);
        put_event(event, &mut bytes)?;
        sum = sum.saturating_add(bytes.len() as u64);
    }
    Ok(sum)
}

/// Reads the event so often. The sum is of the bytes.
pub fn get(alloc: Global, count: u32) -> Result<u64, Stop> {
    let bytes = bytes_of(alloc, &EVENT)?;
    let mut sum: u64 = 0;
    for _ in 0..count {
        get_event(alloc, &bytes)?;
        sum = sum.saturating_add(bytes.len() as u64);
    }
    Ok(sum)
}
