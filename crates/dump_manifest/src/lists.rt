//! The list of files, and the last line.

ghost use Rattle.std.specs.Prelude.{◌≡◌, ◌++◌, ◌∷◌, [], ◌<◌, ◌^◌, ℕ, List, All, IfOk, IfSome, IsNone, MatchResult, map, string_bytes};
ghost use Rattle.std.specs.Option.{option_copied};
ghost use Rattle.dump_manifest.specs.Manifests.{HasItems, HasNames, IsFile, done_line, event_name, file_line, item_name, lines_text, with_lf};
ghost use Rattle.dump_manifest.specs.Pieces.{Follows, items_after, next_name};
ghost use Rattle.dump_manifest.specs.Reading.{HasStopped, MayFollow, at_file, at_last};

use crate::files::{Found, has_items, take_file};
use crate::lines::strip_line;
use crate::{FileLine, Files};
use cat_values::{NoMemory, TEXT_LIMIT, Text};
use std::alloc::Global;

/// The files of a dump and what follows the last line; or the text from the first line on that
/// breaks a rule.
pub fn read_files(
    alloc: Global,
    bootstrap: bool,
    text: &[u8],
) -> Result<Result<(Files, &[u8]), &[u8]>, NoMemory>
    ensures { IfOk result (λ read. MatchResult read
        (λ found. All IsFile found.0 × HasNames bootstrap found.0
        × (text.now ≡ lines_text (map file_line found.0 ++ done_line ∷ []) ++ found.1.now)
        × ((source : List ℕ) (dump : ℕ)
        → MayFollow source dump (at_file bootstrap 0 0) (map file_line found.0 ++ done_line ∷ []) at_last))
        (λ rest. (source : List ℕ) (dump : ℕ) → HasStopped source dump (at_file bootstrap 0 0) text.now rest.now)) }
{
    let mut files = Files::new(alloc);
    let mut items: u64 = 0;
    let mut rest = text;
    while let Some((found, after)) = take_file(rest, bootstrap, items, files.len() as u64 - items) {
        let events = files.len() as u64 - items;
        files.push(file_of(alloc, found, items, events)?)?;
        items = items_after(items, found.0);
        rest = after;
    }
    match take_done(rest, bootstrap, items) {
        Some(after) => Ok(Ok((files, after))),
        None => Ok(Err(rest)),
    }
}

// What follows the last line, which may stand after so many files of items.
fn take_done(text: &[u8], bootstrap: bool, items: u64) -> Option<&[u8]>
    ensures some { IfSome (option_copied result) (λ rest. HasItems bootstrap items
        × (text.now ≡ with_lf done_line ++ rest)) }
    ensures none { IsNone result → HasItems bootstrap items
        → (rest : List ℕ) → text.now ≡ with_lf done_line ++ rest → ⊥ }
{
    if has_items(bootstrap, items) {
        take_last(text)
    } else {
        None
    }
}

fn take_last(text: &[u8]) -> Option<&[u8]>
    ensures { Follows (with_lf done_line) text.now (option_copied result) }
{
    strip_line(text, b"done")
}

// How many files of items there are after one more file.
fn items_after(items: u64, is_item: bool) -> u64
    requires { items < 2 ^ 63 }
    ensures { result ≡ items_after is_item items }
{
    if is_item { items + 1 } else { items }
}

// The next file, where so many of items and of events stand before.
fn file_of(alloc: Global, found: Found, items: u64, events: u64) -> Result<FileLine, NoMemory>
    ensures { IfOk result (λ file. (file.name ≡ next_name found.0 items events)
        × (file.length ≡ found.1.0) × (file.digest ≡ found.1.1)) }
{
    let (is_item, (length, digest)) = found;
    let name = if is_item {
        item_name(alloc, items)?
    } else {
        event_name(alloc, events)?
    };
    Ok(FileLine {
        name,
        length,
        digest,
    })
}

fn item_name(alloc: Global, number: u64) -> Result<Text, NoMemory>
    ensures { IfOk result (λ name. name ≡ item_name number) }
{
    text_of(format!(in alloc; "i{}", number)?)
}

fn event_name(alloc: Global, number: u64) -> Result<Text, NoMemory>
    ensures { IfOk result (λ name. name ≡ event_name number) }
{
    text_of(format!(in alloc; "e{}", number)?)
}

// The text of these characters.
fn text_of(name: String) -> Result<Text, NoMemory>
    ensures { IfOk result (λ text. text ≡ string_bytes name) }
{
    if name.len() > TEXT_LIMIT {
        return Err(NoMemory);
    }
    match Text::from_utf8(name.into_bytes()) {
        Some(text) => Ok(text),
        None => Err(NoMemory),
    }
}
