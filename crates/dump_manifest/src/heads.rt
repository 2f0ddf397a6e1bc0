//! The lines of a manifest before those of files.

ghost use Rattle.std.specs.Prelude.{◌≡◌, ◌++◌, ◌≤◌, ◌<◌, ◌^◌, ℕ, List, MatchResult, codes, option_map};
ghost use Rattle.std.specs.Option.{option_copied};
ghost use Rattle.dump_manifest.specs.Manifests.{IsLowerName, IsWord, dump_line, lines_text, origin_lines, source_line, span_lines, version_line, with_lf};
ghost use Rattle.dump_manifest.specs.Pieces.{Follows, Fronts, begin_of, born_of, db_of, end_of, kind_of, name_of};
ghost use Rattle.dump_manifest.specs.Reading.{HasStopped, IsReadAs, at_file, at_kind, at_version};

use crate::lines::{split_line, strip, strip_line, take_number};
use crate::values::is_lower_name;
use std::str;

/// The highest number that a dump's end may have.
const HIGHEST_END: u64 = 9_223_372_036_854_775_807;

/// Of which kind a dump is, where its events begin and end, and the event that made its database.
#[derive(Clone, Copy)]
pub struct Span {
    pub bootstrap: bool,
    pub begin: u64,
    pub end: u64,
    pub born: u64,
}

/// The name of the database, which a dump of this store with this number tells in its first lines,
/// and what follows; or the text from the first line on that breaks a rule.
pub fn read_origin<'a>(
    text: &'a [u8],
    source: &[u8; 16],
    dump: u64,
) -> Result<(&'a str, &'a [u8]), &'a [u8]>
    ensures { MatchResult result
        (λ found. IsLowerName found.0.now
        × (text.now ≡ lines_text (origin_lines source.now found.0.now dump) ++ found.1.now))
        (λ rest. HasStopped source.now dump at_version text.now rest.now) }
{
    let Some(after_version) = take_version(text) else {
        return Err(text);
    };
    let Some(after_source) = take_source(after_version, source) else {
        return Err(after_version);
    };
    let Some((db, after_db)) = take_db(after_source) else {
        return Err(after_source);
    };
    let Some(after_dump) = take_dump(after_db, dump) else {
        return Err(after_db);
    };
    Ok((db, after_dump))
}

/// What the lines after those tell, and what follows; or the text from the first line on that breaks
/// a rule.
pub fn read_span(text: &[u8]) -> Result<(Span, &[u8]), &[u8]>
    ensures { MatchResult result
        (λ found. IsWord found.0.born × (found.0.begin ≤ found.0.end) × (found.0.end ≤ 9223372036854775807)
        × (text.now ≡ lines_text (span_lines found.0.bootstrap found.0.begin found.0.end found.0.born) ++ found.1.now))
        (λ rest. (source : List ℕ) (dump : ℕ) → HasStopped source dump at_kind text.now rest.now) }
{
    let Some((bootstrap, after_kind)) = take_kind(text) else {
        return Err(text);
    };
    let Some((begin, after_begin)) = take_begin(after_kind) else {
        return Err(after_kind);
    };
    let Some((end, after_end)) = take_end(after_begin, begin) else {
        return Err(after_begin);
    };
    let Some((born, after_born)) = take_born(after_end) else {
        return Err(after_end);
    };
    let span = Span {
        bootstrap,
        begin,
        end,
        born,
    };
    Ok((span, after_born))
}

fn take_version(text: &[u8]) -> Option<&[u8]>
    ensures { Follows (with_lf version_line) text.now (option_copied result) }
{
    strip_line(text, b"hms-dump 1")
}

// What follows the line of this store.
fn take_source<'a>(text: &'a [u8], source: &[u8; 16]) -> Option<&'a [u8]>
    ensures { Follows (with_lf (source_line source.now)) text.now (option_copied result) }
{
    let mut digits = [0u8; 32];
    if hex::encode_to_slice(source, &mut digits).is_err() {
        return None;
    }
    match strip(text, b"source ") {
        Some(rest) => strip_line(rest, &digits),
        None => None,
    }
}

// What follows the line of this dump.
fn take_dump(text: &[u8], dump: u64) -> Option<&[u8]>
    ensures { Follows (with_lf (dump_line dump)) text.now (option_copied result) }
{
    let mut buffer = itoa::Buffer::new();
    match strip(text, b"dump ") {
        Some(rest) => strip_line(rest, buffer.format(dump).as_bytes()),
        None => None,
    }
}

fn take_db(text: &[u8]) -> Option<(&str, &[u8])>
    ensures { Fronts db_of text.now (option_map (λ front. (front.0.now, front.1.now)) result) }
{
    match split_line(text) {
        None => None,
        Some((line, rest)) => match read_db(line) {
            None => None,
            Some(name) => Some((name, rest)),
        },
    }
}

fn read_db(line: &[u8]) -> Option<&str>
    ensures { IsReadAs db_of line.now (option_copied result) }
{
    match strip(line, b"db ") {
        None => None,
        Some(name) => read_name(name),
    }
}

fn read_name(name: &[u8]) -> Option<&str>
    ensures { IsReadAs name_of name.now (option_copied result) }
{
    match str::from_utf8(name) {
        Err(_) => None,
        Ok(text) => {
            if is_lower_name(name) {
                Some(text)
            } else {
                None
            }
        }
    }
}

fn take_kind(text: &[u8]) -> Option<(bool, &[u8])>
    ensures { Fronts kind_of text.now (option_map (λ front. (front.0, front.1.now)) result) }
{
    match strip_line(text, b"kind bootstrap") {
        Some(rest) => Some((true, rest)),
        None => match strip_line(text, b"kind incremental") {
            Some(rest) => Some((false, rest)),
            None => None,
        },
    }
}

fn take_begin(text: &[u8]) -> Option<(u64, &[u8])>
    ensures { Fronts begin_of text.now (option_map (λ front. (front.0, front.1.now)) result) }
{
    take_number(text, b"begin ")
}

fn take_end(text: &[u8], begin: u64) -> Option<(u64, &[u8])>
    ensures { Fronts (end_of begin) text.now (option_map (λ front. (front.0, front.1.now)) result) }
{
    match take_number(text, b"end ") {
        None => None,
        Some((end, rest)) => {
            if end < begin {
                return None;
            }
            if end > HIGHEST_END {
                return None;
            }
            Some((end, rest))
        }
    }
}

fn take_born(text: &[u8]) -> Option<(u64, &[u8])>
    ensures { Fronts born_of text.now (option_map (λ front. (front.0, front.1.now)) result) }
{
    take_number(text, b"born ")
}
