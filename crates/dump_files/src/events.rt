//! Event files of a dump.

ghost use Rattle.std.specs.List.{last_or, list_all};
ghost use Rattle.std.specs.Option.{option_copied};
ghost use Rattle.std.specs.Prelude.{◌≡◌, None};
ghost use Rattle.change_codec.specs.Records.{event, newest};
ghost use Rattle.dump_files.specs.Events.{event_file, event_stands, is_creation, is_numbered, is_within, may_do};
ghost use Rattle.dump_files.specs.Files.{ReadsFile};

use crate::reading::{Judged, read_file};
use crate::{Bounds, FileFault};
use cat_types::{Change, Event, EventKind, Events, Op, Ops};
use change_codec::next_event;
use std::alloc::Global;

/// Adds the events of one event file to those of the files before it. After a
/// fault `events` begins with what it held.
pub fn read_event_file(
    alloc: Global,
    bounds: &Bounds,
    bytes: &[u8],
    events: &mut Events,
) -> Result<(), FileFault>
    ensures { ReadsFile (event_file bounds.now (last_or None events.old)) bytes.now events.old events.new result }
{
    read_file(alloc, bounds, bytes, events)
}

impl Judged for Event {
    ghost read = { (event newest).read };

    ghost rule = { event_stands };

    fn next(alloc: Global, bytes: &[u8], at: u64) -> Result<(Event, u64), FileFault> {
        match next_event(alloc, bytes, at) {
            Ok(found) => Ok(found),
            Err(fault) => Err(FileFault::from(fault)),
        }
    }

    #[tactic(auto, unfolding(crate::specs::Events::event_stands))]
    fn may_stand(&self, bounds: &Bounds, last: Option<&Event>, place: u32) -> bool {
        place < 256 && is_numbered(bounds, last, self) && is_within(bounds, &self.change)
    }
}

// Whether an event's number may stand behind that of the last one.
fn is_numbered(bounds: &Bounds, last: Option<&Event>, event: &Event) -> bool
    ensures { result ≡ is_numbered bounds.now (option_copied last.entry) event.now }
{
    let before = match last {
        None => bounds.begin,
        Some(last) => last.id,
    };
    before < event.id && event.id <= bounds.end
}

// Whether a change is one of the database, which it neither makes nor drops.
fn is_within(bounds: &Bounds, change: &Change) -> bool
    ensures { result ≡ is_within bounds.now change.now }
{
    change.db == bounds.db && change.db_born == bounds.born && may_do_all(change.kind, &change.ops)
}

// Whether each operation of a change of this kind may stand.
fn may_do_all(kind: EventKind, ops: &Ops) -> bool
    ensures { result ≡ list_all (may_do (is_creation kind)) ops.now }
{
    let creation = is_creation(kind);
    for op in ops.as_slice() {
        if !may_do(creation, op) {
            return false;
        }
    }
    true
}

// Whether an event of this kind makes a database.
fn is_creation(kind: EventKind) -> bool
    ensures { result ≡ is_creation kind }
{
    match kind {
        EventKind::CreateDatabase => true,
        EventKind::AlterDatabase
        | EventKind::DropDatabase
        | EventKind::CreateTable
        | EventKind::AlterTable
        | EventKind::DropTable
        | EventKind::AddPartition
        | EventKind::AlterPartition
        | EventKind::DropPartition => false,
    }
}

// Whether an operation neither makes the database, in the event of its creation, nor drops it.
fn may_do(creation: bool, op: &Op) -> bool
    ensures { result ≡ may_do creation op.now }
{
    match op {
        Op::PutDb { .. } => !creation,
        Op::DropDb => false,
        Op::PutTable { .. }
        | Op::DropTable { .. }
        | Op::MoveTable { .. }
        | Op::PutPart { .. }
        | Op::DropPart { .. }
        | Op::MovePart { .. } => true,
    }
}
