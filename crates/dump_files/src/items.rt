//! Item files of a bootstrap dump.

ghost use Rattle.std.specs.List.{last_or};
ghost use Rattle.std.specs.Option.{option_copied};
ghost use Rattle.std.specs.Prelude.{◌≡◌, ◌&&◌, ◌==◌, None, Some};
ghost use Rattle.std.specs.Str.{bytes_eq};
ghost use Rattle.change_codec.specs.Records.{an_item, newest};
ghost use Rattle.dump_files.specs.Files.{ReadsFile};
ghost use Rattle.dump_files.specs.Items.{follows, goes_on, is_marked, is_part, item_file, item_stands, least_mark, mark_of, may_share, rises_above};

use crate::reading::{Judged, read_file};
use crate::{Bounds, FileFault};
use cat_types::{Item, Items, Text, Texts};
use change_codec::next_item;
use std::alloc::Global;

/// Adds the items of one item file to those of the files before it; where there are none, it is the
/// dump's first file. After a fault `items` begins with what it held.
pub fn read_item_file(
    alloc: Global,
    bounds: &Bounds,
    bytes: &[u8],
    items: &mut Items,
) -> Result<(), FileFault>
    ensures { ReadsFile (item_file bounds.now (last_or None items.old)) bytes.now items.old items.new result }
{
    read_file(alloc, bounds, bytes, items)
}

impl Judged for Item {
    ghost read = { (an_item newest).read };

    ghost rule = { item_stands };

    fn next(alloc: Global, bytes: &[u8], at: u64) -> Result<(Item, u64), FileFault> {
        match next_item(alloc, bytes, at) {
            Ok(found) => Ok(found),
            Err(fault) => Err(FileFault::from(fault)),
        }
    }

    #[tactic(auto, unfolding(crate::specs::Items::item_stands))]
    fn may_stand(&self, bounds: &Bounds, last: Option<&Item>, place: u32) -> bool {
        follows(bounds, last, self) && may_share(last, place, self) && is_marked(bounds, last, self)
    }
}

// Whether an item's kind, name, born and values may stand behind those of the last one.
fn follows(bounds: &Bounds, last: Option<&Item>, item: &Item) -> bool
    ensures { result ≡ follows bounds.now (option_copied last.entry) item.now }
{
    match last {
        None => begins(bounds, item),
        Some(last) => stands_behind(bounds, last, item),
    }
}

// Whether a dump may begin with the item.
fn begins(bounds: &Bounds, item: &Item) -> bool
    ensures { result ≡ follows bounds.now None item.now }
{
    match item {
        Item::Db { born, .. } => *born == bounds.born,
        Item::Table { .. } | Item::Part { .. } => false,
    }
}

// The same behind an item.
fn stands_behind(bounds: &Bounds, last: &Item, item: &Item) -> bool
    ensures { result ≡ follows bounds.now (Some last.now) item.now }
{
    match item {
        Item::Db { .. } => false,
        Item::Table { table, .. } => rises_above(last, table),
        Item::Part {
            table,
            born,
            values,
            ..
        } => goes_on(last, table, *born, values),
    }
}

// Whether a table's name is above that of the table last before it.
fn rises_above(last: &Item, name: &Text) -> bool
    ensures { result ≡ rises_above last.now name.now }
{
    match last {
        Item::Db { .. } => true,
        Item::Table { table, .. } => table.cmp(name).is_lt(),
        Item::Part { table, .. } => table.cmp(name).is_lt(),
    }
}

// Whether a partition is one of the table last before it, with values above the last ones.
fn goes_on(last: &Item, name: &Text, of: u64, values: &Texts) -> bool
    ensures { result ≡ goes_on last.now name.now of values.now }
{
    match last {
        Item::Db { .. } => false,
        Item::Table { table, born, .. } => is_same(table, *born, name, of),
        Item::Part {
            table,
            born,
            values: before,
            ..
        } => is_same(table, *born, name, of) && before.cmp(values).is_lt(),
    }
}

// Whether two names and borns are of one table.
fn is_same(table: &Text, born: u64, name: &Text, of: u64) -> bool
    ensures { result ≡ (bytes_eq table.now name.now && born == of) }
{
    table == name && born == of
}

// Whether an item may stand behind the last one in the same file.
fn may_share(last: Option<&Item>, place: u32, item: &Item) -> bool
    ensures { result ≡ may_share (option_copied last.entry) place item.now }
{
    if place == 0 {
        return true;
    }
    match last {
        None => false,
        Some(last) => is_part(last) && is_part(item) && place < 64,
    }
}

fn is_part(item: &Item) -> bool
    ensures { result ≡ is_part item.now }
{
    match item {
        Item::Db { .. } | Item::Table { .. } => false,
        Item::Part { .. } => true,
    }
}

// Whether an item's mark may stand behind that of the last one.
fn is_marked(bounds: &Bounds, last: Option<&Item>, item: &Item) -> bool
    ensures { result ≡ is_marked bounds.now (option_copied last.entry) item.now }
{
    let least = match last {
        None => bounds.begin,
        Some(last) => mark_of(last),
    };
    let mark = mark_of(item);
    least <= mark && mark <= bounds.end
}

// The event number at which an item's object stood so.
fn mark_of(item: &Item) -> u64
    ensures { result ≡ mark_of item.now }
{
    match item {
        Item::Db { at, .. } => *at,
        Item::Table { at, .. } => *at,
        Item::Part { at, .. } => *at,
    }
}
