//! A manifest as text.

ghost use Rattle.std.specs.Prelude.{◌≡◌, ◌++◌, IfOk, OnOk, map};
ghost use Rattle.dump_manifest.specs.Manifests.{begin_line, born_line, db_line, done_line, dump_line, end_line, file_line, kind_line, lines_text, manifest_code, source_line, version_line, with_lf};

use crate::{FileLine, Manifest};
use cat_values::{Bytes, NoMemory, Text};
use std::alloc::Global;

/// The text of a manifest: its lines, each with its LF.
pub fn manifest_text(alloc: Global, m: &Manifest) -> Result<Bytes, NoMemory>
    ensures { IfOk result (λ bytes. bytes ≡ manifest_code m.now) }
{
    let mut out = Bytes::new(alloc);
    put_version(&mut out)?;
    put_source(alloc, &m.source, &mut out)?;
    put_db(alloc, &m.db, &mut out)?;
    put_dump(alloc, m.dump, &mut out)?;
    put_kind(m.bootstrap, &mut out)?;
    put_begin(alloc, m.begin, &mut out)?;
    put_end(alloc, m.end, &mut out)?;
    put_born(alloc, m.born, &mut out)?;
    put_files(alloc, m.files.as_slice(), &mut out)?;
    put_done(&mut out)?;
    Ok(out)
}

fn put_version(out: &mut Bytes) -> Result<(), NoMemory>
    ensures { OnOk result (out.new ≡ out.old ++ with_lf version_line) }
{
    out.extend_from_slice(b"hms-dump 1\n")
}

fn put_source(alloc: Global, source: &[u8; 16], out: &mut Bytes) -> Result<(), NoMemory>
    ensures { OnOk result (out.new ≡ out.old ++ with_lf (source_line source.now)) }
{
    let digits = hex::encode(alloc, source)?;
    let line = format!(in alloc; "source {}\n", digits)?;
    out.extend_from_slice(line.as_bytes())
}

fn put_db(alloc: Global, db: &Text, out: &mut Bytes) -> Result<(), NoMemory>
    ensures { OnOk result (out.new ≡ out.old ++ with_lf (db_line db.now)) }
{
    let line = format!(in alloc; "db {}\n", db.as_str())?;
    out.extend_from_slice(line.as_bytes())
}

fn put_dump(alloc: Global, dump: u64, out: &mut Bytes) -> Result<(), NoMemory>
    ensures { OnOk result (out.new ≡ out.old ++ with_lf (dump_line dump)) }
{
    let line = format!(in alloc; "dump {}\n", dump)?;
    out.extend_from_slice(line.as_bytes())
}

fn put_kind(bootstrap: bool, out: &mut Bytes) -> Result<(), NoMemory>
    ensures { OnOk result (out.new ≡ out.old ++ with_lf (kind_line bootstrap)) }
{
    if bootstrap {
        out.extend_from_slice(b"kind bootstrap\n")
    } else {
        out.extend_from_slice(b"kind incremental\n")
    }
}

fn put_begin(alloc: Global, begin: u64, out: &mut Bytes) -> Result<(), NoMemory>
    ensures { OnOk result (out.new ≡ out.old ++ with_lf (begin_line begin)) }
{
    let line = format!(in alloc; "begin {}\n", begin)?;
    out.extend_from_slice(line.as_bytes())
}

fn put_end(alloc: Global, end: u64, out: &mut Bytes) -> Result<(), NoMemory>
    ensures { OnOk result (out.new ≡ out.old ++ with_lf (end_line end)) }
{
    let line = format!(in alloc; "end {}\n", end)?;
    out.extend_from_slice(line.as_bytes())
}

fn put_born(alloc: Global, born: u64, out: &mut Bytes) -> Result<(), NoMemory>
    ensures { OnOk result (out.new ≡ out.old ++ with_lf (born_line born)) }
{
    let line = format!(in alloc; "born {}\n", born)?;
    out.extend_from_slice(line.as_bytes())
}

fn put_done(out: &mut Bytes) -> Result<(), NoMemory>
    ensures { OnOk result (out.new ≡ out.old ++ with_lf done_line) }
{
    out.extend_from_slice(b"done\n")
}

fn put_files(alloc: Global, files: &[FileLine], out: &mut Bytes) -> Result<(), NoMemory>
    ensures { OnOk result (out.new ≡ out.old ++ lines_text (map file_line files.now)) }
{
    for file in files {
        put_file(alloc, file, out)?;
    }
    Ok(())
}

fn put_file(alloc: Global, file: &FileLine, out: &mut Bytes) -> Result<(), NoMemory>
    ensures { OnOk result (out.new ≡ out.old ++ with_lf (file_line file.now)) }
{
    let digest = hex::encode(alloc, &file.digest)?;
    let line = format!(in alloc; "file {} {} {}\n", file.name.as_str(), file.length, digest)?;
    out.extend_from_slice(line.as_bytes())
}
