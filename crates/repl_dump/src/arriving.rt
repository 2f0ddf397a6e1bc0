//! What a dump does with what it is told: it writes it, and goes on to the next place.

ghost use Rattle.std.specs.Prelude.{◌≡◌, ◌≤◌, ◌∷◌, [], ℕ, Bool, List, Option, IfErr, IsErrOf, OnOk, Some, if◌then◌else◌};
ghost use Rattle.desk.specs.Walks.{AfterTable, last_number, last_values};
ghost use Rattle.desk.specs.Walks as walk;
ghost use Rattle.hms_outside.specs.Causes.{Rose};
ghost use Rattle.hms_outside.specs.Told.{Goes};
ghost use Rattle.repl_dump.specs.Files.{IsTold, OthersStay};
ghost use Rattle.repl_dump.specs.Turns.{FitsEvents, FitsParts, FitsPlace, FitsSeal, FitsTable, GoesOn, IsOwn, IsPart, IsTable, place_of};
ghost use Rattle.std.specs.List.{AllByRecursion};

use crate::failure::{Failure, failure_of};
use crate::place::Place;
use crate::writer::Writer;
use cat_types::{Answer, Events, Item, Items, Text, Texts};
use dump_texts::{FileKind, event_file, item_file, one_item_file};
use hms_outside::Folder;
use std::alloc::Global;

/// Writes what the step of a place told, and returns the next place.
pub fn go_on<F: Folder>(
    alloc: Global,
    folder: &mut F,
    writer: &mut Writer,
    begin: u64,
    place: Place,
    answer: Answer,
) -> Result<Place, Failure>
    requires { FitsPlace (place_of place) answer }
    ensures later { F.faults folder.old ≤ F.faults folder.new }
    ensures cause { IsErrOf result Failure.FolderFault → Rose (F.faults folder.old) (F.faults folder.new) }
    ensures goes { GoesOn begin (place_of place) answer result writer.old writer.new (F.files folder.old) (F.files folder.new) }
    ensures stays { Goes (OthersStay writer.old.dir) (F.files folder.old) (F.files folder.new) }
{
    match place {
        Place::Tables(_) => table_came(alloc, folder, writer, answer),
        Place::Parts { table, born, after } => {
            parts_came(alloc, folder, writer, table, born, after, answer)
        }
        Place::Seal => seal_came(folder, writer, begin, answer),
        Place::Events(after) => events_came(alloc, folder, writer, after, answer),
        Place::End => unreachable!(),
    }
}

// A table came, or none did.
fn table_came<F: Folder>(
    alloc: Global,
    folder: &mut F,
    writer: &mut Writer,
    answer: Answer,
) -> Result<Place, Failure>
    requires { FitsTable answer }
    ensures later { F.faults folder.old ≤ F.faults folder.new }
    ensures cause { IsErrOf result Failure.FolderFault → Rose (F.faults folder.old) (F.faults folder.new) }
    ensures goes { (begin : ℕ) (after : Option (List ℕ)) → GoesOn begin (walk.tables after) answer result writer.old writer.new (F.files folder.old) (F.files folder.new) }
    ensures stays { Goes (OthersStay writer.old.dir) (F.files folder.old) (F.files folder.new) }
{
    match answer {
        Answer::Table(item) => table_told(alloc, folder, writer, item),
        Answer::NoTable => Ok(Place::Seal),
        Answer::DumpRefused(refusal) => Err(Failure::Refused(refusal)),
        Answer::NoMemory => Err(Failure::NoMemory),
        Answer::Reply(_)
        | Answer::Began { .. }
        | Answer::Parts { .. }
        | Answer::Sealed(_)
        | Answer::Events { .. }
        | Answer::Ended
        | Answer::Kept(_)
        | Answer::NotOpen
        | Answer::StoreFault => unreachable!(),
    }
}

// Writes a table; its partitions are next.
fn table_told<F: Folder>(
    alloc: Global,
    folder: &mut F,
    writer: &mut Writer,
    item: Item,
) -> Result<Place, Failure>
    requires { IsTable item }
    ensures later { F.faults folder.old ≤ F.faults folder.new }
    ensures cause { IsErrOf result Failure.FolderFault → Rose (F.faults folder.old) (F.faults folder.new) }
    ensures goes { (begin : ℕ) (after : Option (List ℕ)) → GoesOn begin (walk.tables after) (Answer.Table item) result writer.old writer.new (F.files folder.old) (F.files folder.new) }
    ensures stays { Goes (OthersStay writer.old.dir) (F.files folder.old) (F.files folder.new) }
{
    match write_table(alloc, folder, writer, &item) {
        Ok(()) => Ok(table_place(item)),
        Err(failure) => Err(failure),
    }
}

// Writes a table.
fn write_table<F: Folder>(
    alloc: Global,
    folder: &mut F,
    writer: &mut Writer,
    item: &Item,
) -> Result<(), Failure>
    ensures later { F.faults folder.old ≤ F.faults folder.new }
    ensures cause { IsErrOf result Failure.FolderFault → Rose (F.faults folder.old) (F.faults folder.new) }
    ensures own { IfErr result IsOwn }
    ensures told { OnOk result (IsTold (Answer.Table item.now) writer.old writer.new (F.files folder.old) (F.files folder.new)) }
    ensures stays { Goes (OthersStay writer.old.dir) (F.files folder.old) (F.files folder.new) }
{
    let Ok(bytes) = one_item_file(alloc, item) else {
        return Err(Failure::NoMemory);
    };
    match writer.put(alloc, folder, FileKind::ItemFile, &bytes) {
        Ok(()) => Ok(()),
        Err(outage) => Err(failure_of(outage)),
    }
}

// The place after a table.
fn table_place(item: Item) -> Place
    requires { IsTable item }
    ensures { AfterTable (Answer.Table item) (place_of result) }
{
    match item {
        Item::Table {
            at: _,
            table,
            born,
            rec: _,
        } => Place::Parts {
            table,
            born,
            after: None,
        },
        Item::Db { .. } | Item::Part { .. } => unreachable!(),
    }
}

// Partitions came.
fn parts_came<F: Folder>(
    alloc: Global,
    folder: &mut F,
    writer: &mut Writer,
    table: Text,
    born: u64,
    after: Option<Texts>,
    answer: Answer,
) -> Result<Place, Failure>
    requires { FitsParts answer }
    ensures later { F.faults folder.old ≤ F.faults folder.new }
    ensures cause { IsErrOf result Failure.FolderFault → Rose (F.faults folder.old) (F.faults folder.new) }
    ensures goes { (begin : ℕ) → GoesOn begin (walk.parts table born after) answer result writer.old writer.new (F.files folder.old) (F.files folder.new) }
    ensures stays { Goes (OthersStay writer.old.dir) (F.files folder.old) (F.files folder.new) }
{
    match answer {
        Answer::Parts { parts, more } => {
            parts_told(alloc, folder, writer, table, born, after, parts, more)
        }
        Answer::DumpRefused(refusal) => Err(Failure::Refused(refusal)),
        Answer::NoMemory => Err(Failure::NoMemory),
        Answer::Reply(_)
        | Answer::Began { .. }
        | Answer::Table(_)
        | Answer::NoTable
        | Answer::Sealed(_)
        | Answer::Events { .. }
        | Answer::Ended
        | Answer::Kept(_)
        | Answer::NotOpen
        | Answer::StoreFault => unreachable!(),
    }
}

// Writes partitions; those after them are next, or the table after theirs.
fn parts_told<F: Folder>(
    alloc: Global,
    folder: &mut F,
    writer: &mut Writer,
    table: Text,
    born: u64,
    after: Option<Texts>,
    parts: Items,
    more: bool,
) -> Result<Place, Failure>
    requires { AllByRecursion IsPart parts }
    ensures later { F.faults folder.old ≤ F.faults folder.new }
    ensures cause { IsErrOf result Failure.FolderFault → Rose (F.faults folder.old) (F.faults folder.new) }
    ensures goes { (begin : ℕ) → GoesOn begin (walk.parts table born after) (Answer.Parts parts more) result writer.old writer.new (F.files folder.old) (F.files folder.new) }
    ensures stays { Goes (OthersStay writer.old.dir) (F.files folder.old) (F.files folder.new) }
{
    match write_parts(alloc, folder, writer, &parts) {
        Ok(()) => Ok(parts_place(table, born, after, parts, more)),
        Err(failure) => Err(failure),
    }
}

// The place after partitions.
fn parts_place(table: Text, born: u64, after: Option<Texts>, parts: Items, more: bool) -> Place
    requires { AllByRecursion IsPart parts }
    ensures { place_of result ≡ (if more then walk.parts table born (last_values after parts) else walk.tables (Some table)) }
{
    if more {
        let after = last_values(after, parts);
        Place::Parts { table, born, after }
    } else {
        Place::Tables(Some(table))
    }
}

// Writes partitions, where there are any.
fn write_parts<F: Folder>(
    alloc: Global,
    folder: &mut F,
    writer: &mut Writer,
    parts: &Items,
) -> Result<(), Failure>
    ensures later { F.faults folder.old ≤ F.faults folder.new }
    ensures cause { IsErrOf result Failure.FolderFault → Rose (F.faults folder.old) (F.faults folder.new) }
    ensures own { IfErr result IsOwn }
    ensures told { OnOk result ((more : Bool) → IsTold (Answer.Parts parts.now more) writer.old writer.new (F.files folder.old) (F.files folder.new)) }
    ensures stays { Goes (OthersStay writer.old.dir) (F.files folder.old) (F.files folder.new) }
{
    if parts.is_empty() {
        return Ok(());
    }
    let Ok(bytes) = item_file(alloc, parts) else {
        return Err(Failure::NoMemory);
    };
    match writer.put(alloc, folder, FileKind::ItemFile, &bytes) {
        Ok(()) => Ok(()),
        Err(outage) => Err(failure_of(outage)),
    }
}

// The values of the last partition, or these where there is none.
fn last_values(after: Option<Texts>, parts: Items) -> Option<Texts>
    requires { AllByRecursion IsPart parts }
    ensures { result ≡ last_values after parts }
{
    match parts.into_vec().pop() {
        Some(item) => Some(part_values(item)),
        None => after,
    }
}

// The values of a partition.
fn part_values(item: Item) -> Texts
    requires { IsPart item }
    ensures { (values : Option (List (List ℕ))) → last_values values (item ∷ []) ≡ Some result }
{
    match item {
        Item::Part { values, .. } => values,
        Item::Table { .. } | Item::Db { .. } => unreachable!(),
    }
}

// The dump was sealed.
fn seal_came<F: Folder>(
    folder: &mut F,
    writer: &mut Writer,
    begin: u64,
    answer: Answer,
) -> Result<Place, Failure>
    requires { FitsSeal answer }
    ensures folder { folder.new ≡ folder.old }
    ensures own { IsErrOf result Failure.FolderFault → ⊥ }
    ensures goes { GoesOn begin walk.seal answer result writer.old writer.new (F.files folder.old) (F.files folder.new) }
{
    match answer {
        Answer::Sealed(end) => {
            writer.end = end;
            Ok(Place::Events(begin))
        }
        Answer::DumpRefused(refusal) => Err(Failure::Refused(refusal)),
        Answer::NoMemory => Err(Failure::NoMemory),
        Answer::Reply(_)
        | Answer::Began { .. }
        | Answer::Table(_)
        | Answer::NoTable
        | Answer::Parts { .. }
        | Answer::Events { .. }
        | Answer::Ended
        | Answer::Kept(_)
        | Answer::NotOpen
        | Answer::StoreFault => unreachable!(),
    }
}

// Events came.
fn events_came<F: Folder>(
    alloc: Global,
    folder: &mut F,
    writer: &mut Writer,
    after: u64,
    answer: Answer,
) -> Result<Place, Failure>
    requires { FitsEvents answer }
    ensures later { F.faults folder.old ≤ F.faults folder.new }
    ensures cause { IsErrOf result Failure.FolderFault → Rose (F.faults folder.old) (F.faults folder.new) }
    ensures goes { (begin : ℕ) → GoesOn begin (walk.events after) answer result writer.old writer.new (F.files folder.old) (F.files folder.new) }
    ensures stays { Goes (OthersStay writer.old.dir) (F.files folder.old) (F.files folder.new) }
{
    match answer {
        Answer::Events { events, more } => {
            events_told(alloc, folder, writer, after, events, more)
        }
        Answer::DumpRefused(refusal) => Err(Failure::Refused(refusal)),
        Answer::NoMemory => Err(Failure::NoMemory),
        Answer::Reply(_)
        | Answer::Began { .. }
        | Answer::Table(_)
        | Answer::NoTable
        | Answer::Parts { .. }
        | Answer::Sealed(_)
        | Answer::Ended
        | Answer::Kept(_)
        | Answer::NotOpen
        | Answer::StoreFault => unreachable!(),
    }
}

// Writes events; those after them are next, or the end.
fn events_told<F: Folder>(
    alloc: Global,
    folder: &mut F,
    writer: &mut Writer,
    after: u64,
    events: Events,
    more: bool,
) -> Result<Place, Failure>
    ensures later { F.faults folder.old ≤ F.faults folder.new }
    ensures cause { IsErrOf result Failure.FolderFault → Rose (F.faults folder.old) (F.faults folder.new) }
    ensures goes { (begin : ℕ) → GoesOn begin (walk.events after) (Answer.Events events more) result writer.old writer.new (F.files folder.old) (F.files folder.new) }
    ensures stays { Goes (OthersStay writer.old.dir) (F.files folder.old) (F.files folder.new) }
{
    match write_events(alloc, folder, writer, &events) {
        Ok(()) => Ok(events_place(after, &events, more)),
        Err(failure) => Err(failure),
    }
}

// The place after events.
fn events_place(after: u64, events: &Events, more: bool) -> Place
    ensures { place_of result ≡ (if more then walk.events (last_number after events.now) else walk.end) }
{
    if more {
        Place::Events(last_number(after, events))
    } else {
        Place::End
    }
}

// Writes events, where there are any.
fn write_events<F: Folder>(
    alloc: Global,
    folder: &mut F,
    writer: &mut Writer,
    events: &Events,
) -> Result<(), Failure>
    ensures later { F.faults folder.old ≤ F.faults folder.new }
    ensures cause { IsErrOf result Failure.FolderFault → Rose (F.faults folder.old) (F.faults folder.new) }
    ensures own { IfErr result IsOwn }
    ensures told { OnOk result ((more : Bool) → IsTold (Answer.Events events.now more) writer.old writer.new (F.files folder.old) (F.files folder.new)) }
    ensures stays { Goes (OthersStay writer.old.dir) (F.files folder.old) (F.files folder.new) }
{
    if events.is_empty() {
        return Ok(());
    }
    let Ok(bytes) = event_file(alloc, events) else {
        return Err(Failure::NoMemory);
    };
    match writer.put(alloc, folder, FileKind::EventFile, &bytes) {
        Ok(()) => Ok(()),
        Err(outage) => Err(failure_of(outage)),
    }
}

// The number of the last event, or this one where there is none.
fn last_number(after: u64, events: &Events) -> u64
    ensures { result ≡ last_number after events.now }
{
    match events.as_slice().last() {
        Some(event) => event.id,
        None => after,
    }
}
