//! How entries are written to the journal.

ghost use Rattle.std.specs.Prelude.{◌≡◌, ◌≤◌, Some, IfOk, IfSome, IsErrOf, OnErr, OnOk, None, is_err};
ghost use Rattle.desk.specs.State.{kept};
ghost use Rattle.engine.specs.Inside.{IsSure, Logged, Ran, seen_by};
ghost use Rattle.engine.specs.Opening.{spelled, written_in};
ghost use Rattle.hms_outside.specs.Causes.{Rose};
ghost use Rattle.hms_outside.specs.Disks.{Went};
ghost use Rattle.ms_journal.specs.Books.{LeavesOpen, OpensTo};
ghost use Rattle.cat_types.specs.declared.changes.Event.{Event};
ghost use Rattle.change_codec.specs.declared.entry.Entry.TheVariants as written;

use cat_types::{Bytes, Event, ListOf, NoMemory};
use change_codec::{Entry, each_is_read_again, put_entry};
use hms_outside::Disk;
use ms_journal::{Journal, StoreFault};
use std::alloc::Global;

// The event of an entry that keeps one.
fn event_in(entry: Entry) -> Event
    requires { (event : Event) × (entry ≡ written.Event event) }
    ensures { entry ≡ written.Event result }
{
    match entry {
        Entry::Event(event) => event,
        Entry::DumpBegun(_) => unreachable!(),
        Entry::Trimmed(_) => unreachable!(),
        Entry::LoadStep { .. } => unreachable!(),
    }
}

// The payload of an entry.
fn spell(alloc: Global, entry: &Entry) -> Result<Bytes, NoMemory>
    ensures { IfOk result (λ payload. spelled payload ≡ written_in entry.now) }
{
    let mut payload = ListOf::new(alloc);
    put_entry(entry, &mut payload)?;
    each_is_read_again();
    Ok(payload)
}

/// The payload of an event's entry, and the event again.
pub fn spell_event(alloc: Global, event: Event) -> Result<(Bytes, Event), NoMemory>
    ensures payload { IfOk result (λ r. spelled r.0 ≡ Some (kept event)) }
    ensures event { IfOk result (λ r. r.1 ≡ event) }
{
    let entry = Entry::Event(event);
    let payload = spell(alloc, &entry)?;
    Ok((payload, event_in(entry)))
}

// Shuts a doubtful gate, where there is one.
fn shut_gate<D: Disk>(journal: &mut Journal<D>) -> Result<(), StoreFault>
    ensures head { journal.new.head ≡ journal.old.head }
    ensures payloads { journal.new.payloads ≡ journal.old.payloads }
    ensures settled { OnOk result (journal.new.doubt ≡ None) }
    ensures doubt { OnErr result (journal.new.doubt ≡ journal.old.doubt) }
    ensures went { Went (D.past journal.old.disk) (D.past journal.new.disk) (D.lies journal.new.disk)
        (LeavesOpen journal.new.head journal.new.payloads journal.new.doubt) (OpensTo journal.old.head journal.old.payloads journal.old.doubt) }
    ensures later { D.faults journal.old.disk ≤ D.faults journal.new.disk }
    ensures cause { IsErrOf result StoreFault.DiskFault → Rose (D.faults journal.old.disk) (D.faults journal.new.disk) }
{
    if journal.is_doubtful() {
        return journal.withdraw();
    }
    Ok(())
}

/// Adds a payload, behind a doubtful gate that is shut first.
pub fn commit<D: Disk>(journal: &mut Journal<D>, payload: &Bytes) -> Result<(), StoreFault>
    ensures ran { Ran (Some payload.now) (is_err result) (seen_by D.lies D.past D.faults journal.old) (seen_by D.lies D.past D.faults journal.new) }
    ensures cause { IsErrOf result StoreFault.DiskFault → Rose (D.faults journal.old.disk) (D.faults journal.new.disk) }
{
    shut_gate(journal)?;
    journal.append(payload)
}

/// Writes an entry. Its payload is spelled before the journal is touched.
pub fn log_entry<D: Disk>(
    alloc: Global,
    journal: &mut Journal<D>,
    entry: &Entry,
) -> Result<(), StoreFault>
    requires { IsSure (seen_by D.lies D.past D.faults journal.old) }
    ensures { IfSome (written_in entry.now) (λ written. Logged written result (seen_by D.lies D.past D.faults journal.old) (seen_by D.lies D.past D.faults journal.new)) }
{
    match spell(alloc, entry) {
        Ok(payload) => commit(journal, &payload),
        Err(NoMemory) => Err(StoreFault::NoMemory),
    }
}
