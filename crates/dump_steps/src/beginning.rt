//! How a dump begins.

ghost use Rattle.std.specs.Prelude.{◌≡◌, ◌<◌, IfOk};
ghost use Rattle.dump_steps.specs.Pieces.{begun, first_item, kind_of, told_begun};

use crate::ranges::{Asked, begin_of, end_of};
use crate::{DumpKind, OpenDump};
use cat_objects::HeldDb;
use cat_types::{Answer, Item, NoMemory, Text, TryCopy};
use std::alloc::Global;

/// The dump that a caller begins of the database with this name, which is in lower case, and this born.
/// Its number is the next one after `last`. It takes no memory.
pub fn begin(caller: u32, db: Text, born: u64, newest: u64, last: u64, asked: Asked) -> OpenDump
    requires { last < 18446744073709551615 }
    ensures { result ≡ begun caller db born newest last asked }
{
    OpenDump {
        caller,
        number: last + 1,
        db,
        born,
        kind: kind_of(asked.from),
        begin: begin_of(newest, asked.from),
        end: end_of(newest, asked),
    }
}

// A dump with a begin in its range is of events alone.
fn kind_of(from: Option<i64>) -> DumpKind
    ensures { result ≡ kind_of from }
{
    match from {
        Some(_) => DumpKind::Incremental,
        None => DumpKind::Bootstrap { sealed: false },
    }
}

/// The first item of a dump of all of a database, the database itself as it is at the newest event.
pub fn first_item(
    alloc: Global,
    kind: DumpKind,
    newest: u64,
    held: &HeldDb,
) -> Result<Option<Item>, NoMemory>
    ensures { IfOk result (λ item. item ≡ first_item kind newest held.now) }
{
    match kind {
        DumpKind::Bootstrap { .. } => match held.rec.copy(alloc) {
            Ok(rec) => Ok(Some(Item::Db {
                at: newest,
                born: held.born,
                rec,
            })),
            Err(NoMemory) => Err(NoMemory),
        },
        DumpKind::Incremental => Ok(None),
    }
}

/// How the beginning of a dump is told, with the store's id and the first item. It takes no memory.
pub fn told_begun(id: [u8; 16], dump: &OpenDump, item: Option<Item>) -> Answer
    ensures { result ≡ told_begun id dump.now item }
{
    Answer::Began {
        dump: dump.number,
        source: id,
        born: dump.born,
        begin: dump.begin,
        end: dump.end,
        item,
    }
}
