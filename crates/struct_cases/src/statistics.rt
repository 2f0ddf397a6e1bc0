//! Statistics of columns.

use crate::again::{Reader, Spelled, gathered};
use crate::faults::told_fault;
use crate::requests::text_or_none;
use cat_types::{
    NamedStat, NamedStats, NoMemory, StatArg, StatRec, StatValue, StatsArg, StatsDesc, Text,
    TryCopy,
};
use ms_structs::StructFault;
use stat_structs::{
    StatsRequest, read_column_statistics, read_column_statistics_data, read_column_statistics_desc,
    read_column_statistics_obj, read_table_stats_request, write_column_statistics,
    write_column_statistics_data, write_column_statistics_desc, write_column_statistics_obj,
    write_table_stats_result,
};
use std::alloc::Global;
use table_cases::Unable;
use thrift_binary::WireWriter;

/// As what the statistics that were read are written.
#[derive(Clone, Copy)]
pub enum Written {
    Statistics,
    Result,
}

impl Spelled for StatsDesc {
    fn read(alloc: Global, reader: &mut Reader<'_>) -> Result<StatsDesc, StructFault> {
        read_column_statistics_desc(alloc, reader)
    }

    fn write(&self, writer: &mut WireWriter) -> Result<(), NoMemory> {
        write_column_statistics_desc(writer, self)
    }
}

/// The bytes that are written of the data in front, or `no member`.
pub fn rewritten_data(alloc: Global, reader: &mut Reader<'_>) -> Result<String, Unable> {
    match read_column_statistics_data(alloc, reader) {
        Ok(Some(value)) => written_data(alloc, &value),
        Ok(None) => Ok(String::from_str(alloc, "no member")?),
        Err(fault) => told_fault(alloc, fault),
    }
}

fn written_data(alloc: Global, value: &StatValue) -> Result<String, Unable> {
    let mut writer = WireWriter::new(alloc);
    write_column_statistics_data(&mut writer, value)?;
    gathered(alloc, &mut writer)
}

/// The bytes that are written of the object in front, and before them `no colName` where that is so, as
/// an absent name is written as an empty one; or `no statsData`.
pub fn rewritten_object(alloc: Global, reader: &mut Reader<'_>) -> Result<String, Unable> {
    match read_column_statistics_obj(alloc, reader) {
        Ok(object) => told_object(alloc, &object),
        Err(fault) => told_fault(alloc, fault),
    }
}

fn told_object(alloc: Global, object: &StatArg) -> Result<String, Unable> {
    let Some(value) = object.value else {
        return Ok(String::from_str(alloc, "no statsData")?);
    };
    let mut words = String::new(alloc);
    if object.col.is_none() {
        words.push_str("no colName ")?;
    }
    words.push_str(written_object(alloc, &named(alloc, object, value)?)?.as_str())?;
    Ok(words)
}

fn written_object(alloc: Global, object: &NamedStat) -> Result<String, Unable> {
    let mut writer = WireWriter::new(alloc);
    write_column_statistics_obj(&mut writer, object)?;
    gathered(alloc, &mut writer)
}

// A value under its column's name, or under an empty one. Its type isn't kept, so it is written as empty.
fn named(alloc: Global, object: &StatArg, value: StatValue) -> Result<NamedStat, Unable> {
    let col = object.col.copy(alloc)?;
    Ok(NamedStat {
        col: col.unwrap_or(Text::of(alloc, "")?),
        ty: Text::of(alloc, "")?,
        rec: StatRec { analyzed: 0, value },
    })
}

/// The bytes that are written of the statistics in front, or `no statsDesc` where they can't be written
/// without it. Before them stands `no statsData` where objects without a member were left out.
pub fn rewritten_statistics(
    alloc: Global,
    reader: &mut Reader<'_>,
    form: Written,
) -> Result<String, Unable> {
    match read_column_statistics(alloc, reader) {
        Ok(stats) => told_statistics(alloc, &stats, form),
        Err(fault) => told_fault(alloc, fault),
    }
}

fn told_statistics(alloc: Global, stats: &StatsArg, form: Written) -> Result<String, Unable> {
    let objects = named_all(alloc, stats.objects.as_slice())?;
    let mut words = String::new(alloc);
    if objects.len() < stats.objects.len() {
        words.push_str("no statsData ")?;
    }
    words.push_str(written_statistics(alloc, stats.desc.as_ref(), &objects, form)?.as_str())?;
    Ok(words)
}

// The objects that have a member.
fn named_all(alloc: Global, objects: &[StatArg]) -> Result<NamedStats, Unable> {
    let mut all = NamedStats::new(alloc);
    for object in objects {
        if let Some(value) = object.value {
            all.push(named(alloc, object, value)?)?;
        }
    }
    Ok(all)
}

fn written_statistics(
    alloc: Global,
    desc: Option<&StatsDesc>,
    objects: &NamedStats,
    form: Written,
) -> Result<String, Unable> {
    let mut writer = WireWriter::new(alloc);
    match (form, desc) {
        (Written::Statistics, Some(desc)) => write_column_statistics(&mut writer, desc, objects)?,
        (Written::Statistics, None) => return Ok(String::from_str(alloc, "no statsDesc")?),
        (Written::Result, _) => write_table_stats_result(&mut writer, objects)?,
    }
    gathered(alloc, &mut writer)
}

/// The database, the table and the columns that the request in front asks for; a name is `none` where it
/// is absent.
pub fn told_stats_request(alloc: Global, reader: &mut Reader<'_>) -> Result<String, Unable> {
    match read_table_stats_request(alloc, reader) {
        Ok(request) => told_names(alloc, &request),
        Err(fault) => told_fault(alloc, fault),
    }
}

fn told_names(alloc: Global, request: &StatsRequest) -> Result<String, Unable> {
    let db = text_or_none(request.db.as_ref());
    let table = text_or_none(request.table.as_ref());
    let mut words = format!(in alloc; "{db} {table}")?;
    for col in request.cols.as_slice() {
        words.push_str(" ")?;
        words.push_str(col.as_str())?;
    }
    Ok(words)
}
