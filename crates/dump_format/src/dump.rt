//! A dump read back from its folder.

ghost use Rattle.std.specs.Prelude.{◌≡◌, ◌≤◌, length, MatchResult, IfOk};
ghost use Rattle.hms_outside.specs.Told.{Goes, Same};
ghost use Rattle.dump_format.specs.Dumps.{IsDamaged, IsDump, IsFileDamaged, HasEventsOf, HasItemsOf, begins_i, bounds_of as bounds_told, item_count as lines_before};
ghost use Rattle.dump_format.specs.Harms.{FaultIs};

use crate::ReadDumpFault;
use crate::files::read_lines;
use crate::head::read_head;
use cat_types::{Events, Items, NoMemory, Text, TryCopy};
use dump_files::Bounds;
use dump_manifest::{FileLine, Manifest};
use hms_outside::Folder;
use std::alloc::Global;

/// A dump: its manifest, and all items and events of its files in order.
#[derive(Drop)]
pub struct Dump {
    pub manifest: Manifest,
    pub items: Items,
    pub events: Events,
}

/// The dump that stands in the folder with this name. The first harm in the order of the checks is
/// told: the folder's name, the manifest, and each file in the manifest's order.
pub fn read_dump<F: Folder>(alloc: Global, folder: &mut F, dir: &str) -> Result<Dump, ReadDumpFault>
    ensures same { Goes Same (F.files folder.old) (F.files folder.new) }
    ensures later { F.faults folder.old ≤ F.faults folder.new }
    ensures answer { MatchResult result
        (λ dump. IsDump (F.files folder.old) dir.now dump)
        (λ fault. FaultIs (F.faults folder.old) (F.faults folder.new)
        (IsDamaged (F.files folder.old) dir.now) fault) }
{
    let manifest = match read_head(alloc, folder, dir) {
        Ok(manifest) => manifest,
        Err(fault) => return Err(fault),
    };
    match read_both(alloc, folder, dir, &manifest) {
        Ok((items, events)) => Ok(Dump {
            manifest,
            items,
            events,
        }),
        Err(fault) => Err(fault),
    }
}

// The items and the events of the files that a manifest lists.
fn read_both<F: Folder>(
    alloc: Global,
    folder: &mut F,
    dir: &str,
    manifest: &Manifest,
) -> Result<(Items, Events), ReadDumpFault>
    ensures same { Goes Same (F.files folder.old) (F.files folder.new) }
    ensures later { F.faults folder.old ≤ F.faults folder.new }
    ensures answer { MatchResult result
        (λ both. HasItemsOf (F.files folder.old) dir.now manifest.now both.0
        × HasEventsOf (F.files folder.old) dir.now manifest.now both.1)
        (λ fault. FaultIs (F.faults folder.old) (F.faults folder.new)
        (IsFileDamaged (F.files folder.old) dir.now manifest.now) fault) }
{
    let bounds = bounds_of(alloc, manifest)?;
    let lines = manifest.files.as_slice();
    let (item_lines, event_lines) = lines.split_at(item_count(lines));
    let items = match read_lines(alloc, folder, dir, &bounds, item_lines) {
        Ok(items) => items,
        Err(fault) => return Err(fault),
    };
    match read_lines(alloc, folder, dir, &bounds, event_lines) {
        Ok(events) => Ok((items, events)),
        Err(fault) => {
            drop(items);
            Err(fault)
        }
    }
}

// What items and events are judged against.
fn bounds_of(alloc: Global, manifest: &Manifest) -> Result<Bounds, NoMemory>
    ensures { IfOk result (λ bounds. bounds ≡ bounds_told manifest.now) }
{
    Ok(Bounds {
        db: manifest.db.copy(alloc)?,
        begin: manifest.begin,
        end: manifest.end,
        born: manifest.born,
    })
}

// How many lines of files of items stand in front.
fn item_count(lines: &[FileLine]) -> usize
    ensures count { result ≡ lines_before lines.now }
    ensures within { result ≤ length lines.now }
{
    'lines: for at in 0..lines.len() {
        if !begins_i(&lines[at].name) {
            return at;
        }
    }
    lines.len()
}

// Whether a file's name begins with the letter of items.
fn begins_i(name: &Text) -> bool
    ensures { result ≡ begins_i name.now }
{
    match name.as_str().as_bytes() {
        [] => false,
        [first, ..] => *first == b'i',
    }
}
