//! The steps of a dump between its first and its last.

ghost use Rattle.std.specs.Prelude.{◌≡◌, ◌≤◌, ◌<◌, IfOk, IsErrOf, MatchResult, OnOk};
ghost use Rattle.desk.specs.Adds.{Adds};
ghost use Rattle.desk.specs.History.{Legal, NoneAbove};
ghost use Rattle.hms_outside.specs.Causes.{Rose};
ghost use Rattle.hms_outside.specs.Told.{Goes};
ghost use Rattle.repl_dump.specs.Files.{OthersStay};
ghost use Rattle.repl_dump.specs.Opened.{Takes, allows, any_kind};
ghost use Rattle.repl_dump.specs.Turns.{place_of, steps_left};
ghost use Rattle.repl_dump.specs.Walking.{Ends, Steps};

use crate::arriving::go_on;
use crate::asking::step_of;
use crate::failure::Failure;
use crate::place::Place;
use crate::writer::{Writer, counts_fit, lines_fit};
use desk::Desk;
use hms_outside::Folder;
use std::alloc::Global;

/// Takes one step after the other of the dump with this number, whose events begin after `begin`, up to
/// the last one, and writes what it is told.
pub fn walk<K: Desk, F: Folder>(
    alloc: Global,
    desk: &mut K,
    folder: &mut F,
    writer: &mut Writer,
    number: u64,
    begin: u64,
    mut place: Place,
) -> Result<(), Failure>
    requires legal { Legal (K.start desk.old) (K.history desk.old) }
    requires open { Takes (allows (place_of place)) (K.caller desk.old) number (K.start desk.old) (K.history desk.old) }
    ensures caller { K.caller desk.new ≡ K.caller desk.old }
    ensures start { K.start desk.new ≡ K.start desk.old }
    ensures legal { Legal (K.start desk.new) (K.history desk.new) }
    ensures counted { NoneAbove (K.faults desk.old) (K.history desk.old) → NoneAbove (K.faults desk.new) (K.history desk.new) }
    ensures open { Takes any_kind (K.caller desk.new) number (K.start desk.new) (K.history desk.new) }
    ensures later { F.faults folder.old ≤ F.faults folder.new }
    ensures cause { IsErrOf result Failure.FolderFault → Rose (F.faults folder.old) (F.faults folder.new) }
    ensures stays { Goes (OthersStay writer.old.dir) (F.files folder.old) (F.files folder.new) }
    ensures ends { Adds K.alone (K.caller desk.old) (K.history desk.old) (K.history desk.new) (Ends number begin (place_of place) result writer.old writer.new (F.files folder.old) (F.files folder.new)) }
{
    while !place.is_end() {
        place = match take_step(alloc, desk, folder, writer, number, begin, place) {
            Ok(next) => next,
            Err(failure) => return Err(failure),
        };
    }
    Ok(())
}

// Takes the step of a place, and writes what it is told.
fn take_step<K: Desk, F: Folder>(
    alloc: Global,
    desk: &mut K,
    folder: &mut F,
    writer: &mut Writer,
    number: u64,
    begin: u64,
    place: Place,
) -> Result<Place, Failure>
    requires before_end { place ≡ Place.End → ⊥ }
    requires legal { Legal (K.start desk.old) (K.history desk.old) }
    requires open { Takes (allows (place_of place)) (K.caller desk.old) number (K.start desk.old) (K.history desk.old) }
    ensures caller { K.caller desk.new ≡ K.caller desk.old }
    ensures start { K.start desk.new ≡ K.start desk.old }
    ensures legal { Legal (K.start desk.new) (K.history desk.new) }
    ensures counted { NoneAbove (K.faults desk.old) (K.history desk.old) → NoneAbove (K.faults desk.new) (K.history desk.new) }
    ensures open { MatchResult result (λ to. Takes (allows (place_of to)) (K.caller desk.new) number (K.start desk.new) (K.history desk.new)) (λ _. Takes any_kind (K.caller desk.new) number (K.start desk.new) (K.history desk.new)) }
    ensures later { F.faults folder.old ≤ F.faults folder.new }
    ensures cause { IsErrOf result Failure.FolderFault → Rose (F.faults folder.old) (F.faults folder.new) }
    ensures stays { Goes (OthersStay writer.old.dir) (F.files folder.old) (F.files folder.new) }
    ensures dir { OnOk result (writer.new.dir ≡ writer.old.dir) }
    ensures nearer { IfOk result (λ to. steps_left writer.new to < steps_left writer.old place) }
    ensures steps { Adds K.alone (K.caller desk.old) (K.history desk.old) (K.history desk.new) (Steps number begin (place_of place) result writer.old writer.new (F.files folder.old) (F.files folder.new)) }
{
    let Ok(step) = step_of(alloc, number, &place) else {
        return Err(Failure::NoMemory);
    };
    let answer = desk.step(step);
    counts_fit(writer.items, writer.events);
    let next = go_on(alloc, folder, writer, begin, place, answer);
    lines_fit(&writer.files);
    next
}
