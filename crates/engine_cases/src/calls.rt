//! Calls in words.

use crate::words::{texts_of, words_of};
use cat_types::{
    Call, Column, Columns, DbArg, DbRec, ListOf, MapOf, PartArg, PartArgs, PartRec, Storage,
    TableArg, TableRec, Text, Texts,
};
use std::alloc::Global;
use table_cases::Unable;

/// The call of these words.
pub fn call_of(alloc: Global, call: &str, words: &str) -> Result<Call, Unable> {
    match call {
        "create_database" => create_database(alloc, words),
        "drop_database" => drop_database(alloc, words),
        "alter_database" => alter_database(alloc, words),
        "create_table" => create_table(alloc, words),
        "drop_table" => drop_table(alloc, words),
        "rename_table" => rename_table(alloc, words),
        "add_partition" => add_partition(alloc, words),
        "add_partitions" => add_partitions(alloc, words),
        "alter_partition" => alter_partition(alloc, words),
        "rename_partition" => rename_partition(alloc, words),
        _ => Err(Unable::Form),
    }
}

fn create_database(alloc: Global, name: &str) -> Result<Call, Unable> {
    Ok(Call::CreateDatabase {
        db: db_arg(alloc, name)?,
    })
}

// A database's record is put again as it is.
fn alter_database(alloc: Global, name: &str) -> Result<Call, Unable> {
    let db = db_arg(alloc, name)?;
    Ok(Call::AlterDatabase {
        name: Text::of(alloc, name)?,
        db,
    })
}

fn db_arg(alloc: Global, name: &str) -> Result<DbArg, Unable> {
    let name = Text::of(alloc, name)?;
    Ok(DbArg {
        name: Some(name),
        rec: DbRec {
            description: None,
            location: None,
            params: MapOf::new(alloc),
            owner: None,
        },
    })
}

fn drop_database(alloc: Global, name: &str) -> Result<Call, Unable> {
    Ok(Call::DropDatabase {
        name: Text::of(alloc, name)?,
        cascade: true,
    })
}

// A table with these keys, by the words `DB TABLE KEYS`.
fn create_table(alloc: Global, words: &str) -> Result<Call, Unable> {
    let (db, rest) = words_of(words);
    let (table, keys) = words_of(rest);
    Ok(Call::CreateTable {
        table: table_arg(alloc, db, table, keys)?,
    })
}

fn drop_table(alloc: Global, words: &str) -> Result<Call, Unable> {
    let (db, table) = words_of(words);
    let db = Text::of(alloc, db)?;
    Ok(Call::DropTable {
        db,
        table: Text::of(alloc, table)?,
    })
}

// A table of another name, without keys, by the words `DB TABLE NEW`.
fn rename_table(alloc: Global, words: &str) -> Result<Call, Unable> {
    let (db, rest) = words_of(words);
    let (table, to) = words_of(rest);
    let new = table_arg(alloc, db, to, "-")?;
    let db_text = Text::of(alloc, db)?;
    Ok(Call::AlterTable {
        db: db_text,
        table: Text::of(alloc, table)?,
        new,
    })
}

// Partitions of one key, from 001 to a number of three digits, by the words `DB TABLE COUNT`.
fn add_partitions(alloc: Global, words: &str) -> Result<Call, Unable> {
    let (db, rest) = words_of(words);
    let (table, count) = words_of(rest);
    let count = count.parse::<u32>().or(Err(Unable::Form))?;
    let mut parts: PartArgs = ListOf::new(alloc);
    for number in 0..count {
        parts.push(numbered_part(alloc, db, table, number)?)?;
    }
    Ok(Call::AddPartitions { parts })
}

// The partition after so many others, its value a number of three digits.
fn numbered_part(alloc: Global, db: &str, table: &str, before: u32) -> Result<PartArg, Unable> {
    let number = before.saturating_add(1);
    let value = format!(in alloc; "{number:03}")?;
    part_arg(alloc, db, table, value.as_str())
}

// One partition, by the words `DB TABLE VALUES`.
fn add_partition(alloc: Global, words: &str) -> Result<Call, Unable> {
    let (db, rest) = words_of(words);
    let (table, values) = words_of(rest);
    Ok(Call::AddPartition {
        part: part_arg(alloc, db, table, values)?,
    })
}

fn alter_partition(alloc: Global, words: &str) -> Result<Call, Unable> {
    let (db, rest) = words_of(words);
    let (table, values) = words_of(rest);
    let part = part_arg(alloc, db, table, values)?;
    let db_text = Text::of(alloc, db)?;
    Ok(Call::AlterPartition {
        db: db_text,
        table: Text::of(alloc, table)?,
        part,
    })
}

// A partition gets other values, by the words `DB TABLE VALUES NEW`.
fn rename_partition(alloc: Global, words: &str) -> Result<Call, Unable> {
    let (db, rest) = words_of(words);
    let (table, rest) = words_of(rest);
    let (values, to) = words_of(rest);
    let part = part_arg(alloc, db, table, to)?;
    let values = texts_of(alloc, values)?;
    let db_text = Text::of(alloc, db)?;
    Ok(Call::RenamePartition {
        db: db_text,
        table: Text::of(alloc, table)?,
        values,
        part,
    })
}

fn part_arg(alloc: Global, db: &str, table: &str, values: &str) -> Result<PartArg, Unable> {
    let rec = PartRec {
        created: 0,
        accessed: 0,
        sd: None,
        params: MapOf::new(alloc),
        stats: MapOf::new(alloc),
    };
    let values = texts_of(alloc, values)?;
    let db = Text::of(alloc, db)?;
    let table = Text::of(alloc, table)?;
    Ok(PartArg {
        db: Some(db),
        table: Some(table),
        values,
        rec,
    })
}

fn table_arg(alloc: Global, db: &str, table: &str, keys: &str) -> Result<TableArg, Unable> {
    let keys = keys_of(alloc, keys)?;
    let db = Text::of(alloc, db)?;
    let table = Text::of(alloc, table)?;
    Ok(TableArg {
        table: Some(table),
        db: Some(db),
        has_sd: true,
        rec: record_of(alloc, keys),
    })
}

// Keys of texts with these names, where `-` stands for none.
fn keys_of(alloc: Global, names: &str) -> Result<Columns, Unable> {
    let mut keys: Columns = ListOf::new(alloc);
    if names == "-" {
        return Ok(keys);
    }
    for name in names.split(',') {
        let name = Text::of(alloc, name)?;
        keys.push(Column {
            name,
            ty: Text::of(alloc, "string")?,
            comment: None,
        })?;
    }
    Ok(keys)
}

fn record_of(alloc: Global, keys: Columns) -> TableRec {
    TableRec {
        owner: None,
        created: 0,
        accessed: 0,
        retention: 0,
        sd: no_storage(alloc),
        keys,
        params: MapOf::new(alloc),
        view_original: None,
        view_expanded: None,
        kind: None,
        stats: MapOf::new(alloc),
    }
}

fn no_storage(alloc: Global) -> Storage {
    Storage {
        cols: ListOf::new(alloc),
        location: None,
        input: None,
        output: None,
        compressed: false,
        buckets: 0,
        serde: None,
        bucket_cols: Texts::new(alloc),
        sort_cols: ListOf::new(alloc),
        params: MapOf::new(alloc),
        skew: None,
        sub_dirs: None,
    }
}
