//! Structs off the wire and onto it again.

use crate::again::{Reader, rewritten};
use crate::partitions::{Told, rewritten_partition, told_adding};
use crate::requests::{told_context, told_request};
use crate::statistics::{
    Written, rewritten_data, rewritten_object, rewritten_statistics, told_stats_request,
};
use crate::tables::{Form, rewritten_table};
use cat_types::{Bytes, Column, Order, Serde, Skew, StatsDesc, Storage};
use hms_outside::MemSource;
use std::alloc::Global;
use table_cases::{Answers, Unable, bytes_of};
use thrift_binary::WireReader;

/// Reads the struct that an input spells, and writes it again. An input is the struct's kind and its
/// bytes. The outcome is the bytes that are written; of a struct that is only read, what it asks for; and
/// `bad text`, `truncated PLACE`, `bad CODE PLACE` or `too large PLACE` where nothing is read. A
/// GetTableResult, which is only written, is made of a Table, an AddPartitionsResult of an
/// AddPartitionsRequest, and a TableStatsResult of a ColumnStatistics.
pub struct Structs;

impl Answers for Structs {
    fn answer(&self, alloc: Global, input: &str) -> Result<String, Unable> {
        let (kind, digits) = input.split_once(' ').unwrap_or((input, ""));
        let mut source = source_of(alloc, digits)?;
        told(alloc, kind, &mut WireReader::new(&mut source))
    }
}

// A source of the bytes that digits spell.
fn source_of(alloc: Global, digits: &str) -> Result<MemSource, Unable> {
    let bytes = Bytes::from_vec(bytes_of(alloc, digits)?)?;
    Ok(MemSource::new(bytes, Vec::new(alloc)))
}

// What is told of a struct of this kind.
fn told(alloc: Global, kind: &str, reader: &mut Reader<'_>) -> Result<String, Unable> {
    match kind {
        "FieldSchema" => rewritten::<Column>(alloc, reader),
        "SerDeInfo" => rewritten::<Serde>(alloc, reader),
        "Order" => rewritten::<Order>(alloc, reader),
        "SkewedInfo" => rewritten::<Skew>(alloc, reader),
        "StorageDescriptor" => rewritten::<Storage>(alloc, reader),
        "Table" => rewritten_table(alloc, reader, Form::Table),
        "GetTableResult" => rewritten_table(alloc, reader, Form::Result),
        "Partition" => rewritten_partition(alloc, reader),
        "AddPartitionsRequest" => told_adding(alloc, reader, Told::Request),
        "AddPartitionsResult" => told_adding(alloc, reader, Told::Result),
        "GetTableRequest" => told_request(alloc, reader),
        "EnvironmentContext" => told_context(alloc, reader),
        _ => told_of_columns(alloc, kind, reader),
    }
}

// What is told of a struct of this kind, of those of statistics of columns.
fn told_of_columns(alloc: Global, kind: &str, reader: &mut Reader<'_>) -> Result<String, Unable> {
    match kind {
        "ColumnStatisticsData" => rewritten_data(alloc, reader),
        "ColumnStatisticsObj" => rewritten_object(alloc, reader),
        "ColumnStatisticsDesc" => rewritten::<StatsDesc>(alloc, reader),
        "ColumnStatistics" => rewritten_statistics(alloc, reader, Written::Statistics),
        "TableStatsResult" => rewritten_statistics(alloc, reader, Written::Result),
        "TableStatsRequest" => told_stats_request(alloc, reader),
        _ => Err(Unable::Form),
    }
}
