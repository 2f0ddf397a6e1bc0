//! A whole dump.

ghost use Rattle.std.specs.Prelude.{◌≡◌, ◌≤◌};
ghost use Rattle.desk.specs.Adds.{Adds};
ghost use Rattle.desk.specs.History.{Legal, NoneAbove};
ghost use Rattle.hms_outside.specs.Causes.{Rose};
ghost use Rattle.repl_dump.specs.Dumps.{Dumps};

use crate::beginning::begun;
use crate::begun_dump::dump_begun;
use cat_types::{DumpRefusal, LowerName, Step, Text, TryCopy};
use desk::Desk;
use hms_outside::Folder;
use std::alloc::Global;

/// How a dump ended.
#[derive(Drop)]
pub enum DumpAnswer {
    /// The dump lies in this directory, and goes up to the event with this number.
    Done { dir: Text, last: u64 },
    /// A step of it was refused.
    Refused(DumpRefusal),
    /// The folder failed, and has counted it.
    FolderFault,
    /// The store failed when the dump was begun.
    StoreFault,
    NoMemory,
}

/// Dumps a database into a directory of its own of the folder: all of it, or the events after `from`,
/// up to `to`, and at most `limit` numbers of them. The caller takes one step of the desk after the
/// other, so that others go on in between; each answer with items or events is one file, and the
/// manifest is the last. Once the dump was begun it is always ended at the desk.
pub fn dump<K: Desk, F: Folder>(
    alloc: Global,
    desk: &mut K,
    folder: &mut F,
    db: &Text,
    from: Option<i64>,
    to: Option<i64>,
    limit: Option<i64>,
) -> DumpAnswer
    ensures caller { K.caller desk.new ≡ K.caller desk.old }
    ensures start { K.start desk.new ≡ K.start desk.old }
    ensures legal { Legal (K.start desk.old) (K.history desk.old) → Legal (K.start desk.new) (K.history desk.new) }
    ensures counted { NoneAbove (K.faults desk.old) (K.history desk.old) → NoneAbove (K.faults desk.new) (K.history desk.new) }
    ensures later { F.faults folder.old ≤ F.faults folder.new }
    ensures cause { result ≡ DumpAnswer.FolderFault → Rose (F.faults folder.old) (F.faults folder.new) }
    ensures dumps { Adds K.alone (K.caller desk.old) (K.history desk.old) (K.history desk.new) (Dumps (record { db = db.now; from = from; to = to; limit = limit }) result (F.files folder.old) (F.files folder.new)) }
{
    let (Ok(name), Ok(asked)) = (LowerName::of(alloc, db), db.copy(alloc)) else {
        return DumpAnswer::NoMemory;
    };
    let step = Step::DumpBegin {
        db: asked,
        from,
        to,
        limit,
    };
    match begun(desk.step(step)) {
        Ok(beginning) => dump_begun(alloc, desk, folder, name.as_text(), beginning),
        Err(answer) => answer,
    }
}
