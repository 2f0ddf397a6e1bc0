//! Pieces of a dump's files.

ghost use Rattle.std.specs.Prelude.{◌≡◌, ◌∷◌, [], IfOk};
ghost use Rattle.dump_texts.specs.Texts.{events_text, items_text, line_of, name_at, path_in};

use crate::FileKind;
use cat_types::{Bytes, Events, Item, Items, ListOf, NoMemory, Text, TextFault};
use change_codec::{put_events, put_item, put_items};
use dump_manifest::FileLine;
use sha2::{Digest, Sha256};
use std::alloc::Global;

/// The bytes of a file with these items.
pub fn item_file(alloc: Global, items: &Items) -> Result<Bytes, NoMemory>
    ensures { IfOk result (λ bytes. bytes ≡ items_text items.now) }
{
    let mut bytes = ListOf::new(alloc);
    put_items(items, &mut bytes)?;
    Ok(bytes)
}

/// The bytes of a file with this item alone.
pub fn one_item_file(alloc: Global, item: &Item) -> Result<Bytes, NoMemory>
    ensures { IfOk result (λ bytes. bytes ≡ items_text (item.now ∷ [])) }
{
    let mut bytes = Bytes::from_slice(alloc, &1u32.to_be_bytes())?;
    put_item(item, &mut bytes)?;
    Ok(bytes)
}

/// The bytes of a file with these events.
pub fn event_file(alloc: Global, events: &Events) -> Result<Bytes, NoMemory>
    ensures { IfOk result (λ bytes. bytes ≡ events_text events.now) }
{
    let mut bytes = ListOf::new(alloc);
    put_events(events, &mut bytes)?;
    Ok(bytes)
}

/// The name of a file of this kind, by its place among those of its kind, from 0.
pub fn file_name(alloc: Global, kind: FileKind, place: u64) -> Result<Text, NoMemory>
    ensures { IfOk result (λ name. name ≡ name_at kind place) }
{
    let name = match kind {
        FileKind::ItemFile => format!(in alloc; "i{place}")?,
        FileKind::EventFile => format!(in alloc; "e{place}")?,
    };
    text_of(alloc, name.as_str())
}

/// The path of a file in a directory.
pub fn path_in(alloc: Global, dir: &Text, name: &str) -> Result<Text, NoMemory>
    ensures { IfOk result (λ path. path ≡ path_in dir.now name.now) }
{
    let dir = dir.as_str();
    let path = format!(in alloc; "{dir}/{name}")?;
    text_of(alloc, path.as_str())
}

/// The line of a manifest for a file with this name and these bytes.
pub fn file_line(name: Text, bytes: &[u8]) -> FileLine
    ensures { result ≡ line_of (name, bytes.now) }
{
    FileLine {
        name,
        length: bytes.len() as u64,
        digest: Sha256::digest(bytes),
    }
}

// A text of its own. One that is too long for a text counts as want of memory.
fn text_of(alloc: Global, text: &str) -> Result<Text, NoMemory>
    ensures { IfOk result (λ made. made ≡ text.now) }
{
    match Text::of(alloc, text) {
        Ok(text) => Ok(text),
        Err(TextFault::TooLong) => Err(NoMemory),
        Err(TextFault::NoMemory) => Err(NoMemory),
    }
}
