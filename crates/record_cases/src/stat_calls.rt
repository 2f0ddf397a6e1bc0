//! Calls on statistics of columns in words.

use crate::outcome::words_of;
use crate::part_calls::part_call_of;
use crate::texts::texts_of;
use crate::worded::text_of;
use cat_types::{
    Call, ListOf, NamedStat, NamedStats, StatArg, StatArgs, StatRec, StatValue, StatsArg,
    StatsDesc, Text,
};
use std::alloc::Global;
use table_cases::Unable;

/// The call with this name, by the words of its arguments.
pub fn stat_call_of(alloc: Global, call: &str, words: &str) -> Result<Call, Unable> {
    match call {
        "update_table_column_statistics" => Ok(Call::UpdateTableColumnStatistics {
            stats: stats_arg_of(alloc, words)?,
        }),
        "update_partition_column_statistics" => Ok(Call::UpdatePartitionColumnStatistics {
            stats: stats_arg_of(alloc, words)?,
        }),
        "get_table_statistics_req" => get_statistics_req(alloc, words),
        "get_table_column_statistics"
        | "get_partition_column_statistics"
        | "delete_table_column_statistics"
        | "delete_partition_column_statistics" => call_in_table(alloc, call, words),
        _ => part_call_of(alloc, call, words),
    }
}

// A request for statistics, whose names may be absent.
fn get_statistics_req(alloc: Global, words: &str) -> Result<Call, Unable> {
    let (db, words) = words_of(words);
    let (table, cols) = words_of(words);
    let db = text_of(alloc, db)?;
    let table = text_of(alloc, table)?;
    let cols = texts_of(alloc, cols)?;
    Ok(Call::GetTableStatisticsReq { db, table, cols })
}

// A call whose first arguments are the names of a database and a table.
fn call_in_table(alloc: Global, call: &str, words: &str) -> Result<Call, Unable> {
    let (db, words) = words_of(words);
    let (table, rest) = words_of(words);
    let db = Text::of(alloc, db)?;
    let table = Text::of(alloc, table)?;
    match call {
        "get_table_column_statistics" => {
            let col = Text::of(alloc, rest)?;
            Ok(Call::GetTableColumnStatistics { db, table, col })
        }
        "delete_table_column_statistics" => {
            let col = text_of(alloc, rest)?;
            Ok(Call::DeleteTableColumnStatistics { db, table, col })
        }
        _ => call_in_partition(alloc, call, db, table, rest),
    }
}

// A call on the statistics of a partition, by its name and a column.
fn call_in_partition(
    alloc: Global,
    call: &str,
    db: Text,
    table: Text,
    words: &str,
) -> Result<Call, Unable> {
    let (part, col) = words_of(words);
    let part = Text::of(alloc, part)?;
    match call {
        "get_partition_column_statistics" => {
            let col = Text::of(alloc, col)?;
            Ok(Call::GetPartitionColumnStatistics {
                db,
                table,
                part,
                col,
            })
        }
        "delete_partition_column_statistics" => {
            let col = text_of(alloc, col)?;
            Ok(Call::DeletePartitionColumnStatistics {
                db,
                table,
                part,
                col,
            })
        }
        _ => Err(Unable::Form),
    }
}

// Statistics that are handed in, by the words `DB TABLE PART COL KIND`; those of a table name no
// partition, and where there is no word nothing was said.
fn stats_arg_of(alloc: Global, words: &str) -> Result<StatsArg, Unable> {
    if words.is_empty() {
        return Ok(StatsArg {
            desc: None,
            objects: ListOf::new(alloc),
        });
    }
    let (db, words) = words_of(words);
    let (table, words) = words_of(words);
    let (part, object) = words_of(words);
    let desc = desc_of(alloc, db, table, part)?;
    let mut objects: StatArgs = ListOf::new(alloc);
    objects.push(stat_arg_of(alloc, object)?)?;
    Ok(StatsArg {
        desc: Some(desc),
        objects,
    })
}

// Of what statistics are.
fn desc_of(alloc: Global, db: &str, table: &str, part: &str) -> Result<StatsDesc, Unable> {
    let db = text_of(alloc, db)?;
    let table = text_of(alloc, table)?;
    let part = text_of(alloc, part)?;
    Ok(StatsDesc {
        table_level: part.is_none(),
        db,
        table,
        part,
        analyzed: Some(7),
    })
}

// A column's statistics that are handed in, by the words `COL KIND`.
fn stat_arg_of(alloc: Global, words: &str) -> Result<StatArg, Unable> {
    let (col, kind) = words_of(words);
    let col = text_of(alloc, col)?;
    if kind == "-" {
        return Ok(StatArg { col, value: None });
    }
    Ok(StatArg {
        col,
        value: Some(value_of(kind)?),
    })
}

// A value of this kind.
fn value_of(kind: &str) -> Result<StatValue, Unable> {
    match kind {
        "flags" => Ok(StatValue::Flags {
            trues: 1,
            falses: 2,
            nulls: 3,
        }),
        "long" => Ok(StatValue::Long {
            low: None,
            high: Some(-5),
            nulls: 0,
            distinct: 4,
        }),
        "str" => Ok(StatValue::Str {
            longest: 1,
            average: [0, 1, 2, 3, 4, 5, 6, 7],
            nulls: 0,
            distinct: 9,
        }),
        _ => Err(Unable::Form),
    }
}

/// A list of one column's statistics that are told, by the words `COL TYPE KIND`.
pub fn named_stats_of(alloc: Global, words: &str) -> Result<NamedStats, Unable> {
    let (col, words) = words_of(words);
    let (ty, kind) = words_of(words);
    let col = Text::of(alloc, col)?;
    let ty = Text::of(alloc, ty)?;
    let rec = StatRec {
        analyzed: 7,
        value: value_of(kind)?,
    };
    let mut stats: NamedStats = ListOf::new(alloc);
    stats.push(NamedStat { col, ty, rec })?;
    Ok(stats)
}
