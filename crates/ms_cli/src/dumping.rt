//! Dumping a database of the store that the disks hold.

ghost use Rattle.std.specs.Prelude.{◌≡◌, ◌≢◌, ◌⊎◌, ◌≤◌, List, [], Option, ℕ};
ghost use Rattle.desk.specs.Adds.{Adds};
ghost use Rattle.desk.specs.History.{Legal, NoneAbove};
ghost use Rattle.hms_outside.specs.Causes.{Rose};
ghost use Rattle.ms_cli.specs.Dumping.{MakesDump, TellsDump, wanted_of};
ghost use Rattle.ms_cli.specs.Keeping.{Disk, seen};
ghost use Rattle.ms_cli.specs.Opened.{Opened, Unopened, Worked};
ghost use Rattle.ms_session.specs.Turns.{DumpedTo, shelf_of};

use crate::LocalEnd;
use crate::closing::close;
use crate::local::refuse;
use crate::ranges::EventRange;
use crate::telling::{say_done, tell_line, tell_refused_dump};
use cat_types::Text;
use desk::{Desk, LocalDesk};
use engine::Engine;
use hms_outside::{Disk, Folder, Sink};
use repl_dump::DumpAnswer;
use std::alloc::Global;

/// Opens the store that the disks hold, dumps a database of it into the folder, and tells how that
/// ended.
pub fn dump<K: Sink, E: Sink, D: Disk, F: Folder>(
    alloc: Global,
    db: &str,
    range: EventRange,
    output: &mut K,
    errors: &mut E,
    disk_a: D,
    disk_b: D,
    folder: &mut F,
) -> LocalEnd<D>
    ensures did { (left clock : Option (List ℕ)) → Opened (MakesDump (wanted_of db.now range) (record { met = record { left = left; held = K.held output.old; clock = clock; shelf = shelf_of (F.files folder.old) (F.faults folder.old) }; errors = record { held = E.held errors.old; faults = E.faults errors.old }; disk_a = seen D.lies D.past D.faults disk_a; disk_b = seen D.lies D.past D.faults disk_b }) (record { met = record { left = left; held = K.held output.new; clock = clock; shelf = shelf_of (F.files folder.new) (F.faults folder.new) }; errors = record { held = E.held errors.new; faults = E.faults errors.new }; disk_a = seen D.lies D.past D.faults result.disk_a; disk_b = seen D.lies D.past D.faults result.disk_b }) result.status) (record { met = record { left = left; held = K.held output.old; clock = clock; shelf = shelf_of (F.files folder.old) (F.faults folder.old) }; errors = record { held = E.held errors.old; faults = E.faults errors.old }; disk_a = seen D.lies D.past D.faults disk_a; disk_b = seen D.lies D.past D.faults disk_b }) (record { met = record { left = left; held = K.held output.new; clock = clock; shelf = shelf_of (F.files folder.new) (F.faults folder.new) }; errors = record { held = E.held errors.new; faults = E.faults errors.new }; disk_a = seen D.lies D.past D.faults result.disk_a; disk_b = seen D.lies D.past D.faults result.disk_b }) ⊎ Unopened (record { met = record { left = left; held = K.held output.old; clock = clock; shelf = shelf_of (F.files folder.old) (F.faults folder.old) }; errors = record { held = E.held errors.old; faults = E.faults errors.old }; disk_a = seen D.lies D.past D.faults disk_a; disk_b = seen D.lies D.past D.faults disk_b }) (record { met = record { left = left; held = K.held output.new; clock = clock; shelf = shelf_of (F.files folder.new) (F.faults folder.new) }; errors = record { held = E.held errors.new; faults = E.faults errors.new }; disk_a = seen D.lies D.past D.faults result.disk_a; disk_b = seen D.lies D.past D.faults result.disk_b }) result.status }
    ensures others { (result.status ≢ 2) × (result.status ≢ 3) }
    ensures write { result.status ≡ 4 → Rose (K.faults output.old) (K.faults output.new) }
    ensures folder_later { F.faults folder.old ≤ F.faults folder.new }
    ensures output_stays { result.status ≢ 4 → K.faults output.new ≡ K.faults output.old }
{
    match Engine::open_store(alloc, disk_a, disk_b) {
        Ok(engine) => dump_at(alloc, db, range, output, errors, engine, folder),
        Err((fault, disk_a, disk_b)) => refuse(alloc, errors, fault, disk_a, disk_b),
    }
}

// Dumps a database of a store that was just opened, tells how that ended, and gives the disks back.
fn dump_at<K: Sink, E: Sink, D: Disk, F: Folder>(
    alloc: Global,
    db: &str,
    range: EventRange,
    output: &mut K,
    errors: &mut E,
    engine: Engine<D>,
    folder: &mut F,
) -> LocalEnd<D>
    requires { engine.history ≡ [] }
    ensures worked { (left clock : Option (List ℕ)) (a b : Disk) → Worked (MakesDump (wanted_of db.now range) (record { met = record { left = left; held = K.held output.old; clock = clock; shelf = shelf_of (F.files folder.old) (F.faults folder.old) }; errors = record { held = E.held errors.old; faults = E.faults errors.old }; disk_a = a; disk_b = b }) (record { met = record { left = left; held = K.held output.new; clock = clock; shelf = shelf_of (F.files folder.new) (F.faults folder.new) }; errors = record { held = E.held errors.new; faults = E.faults errors.new }; disk_a = seen D.lies D.past D.faults result.disk_a; disk_b = seen D.lies D.past D.faults result.disk_b }) result.status) engine.start (seen D.lies D.past D.faults result.disk_a) (seen D.lies D.past D.faults result.disk_b) }
    ensures others { (result.status ≢ 2) × (result.status ≢ 3) }
    ensures write { result.status ≡ 4 → Rose (K.faults output.old) (K.faults output.new) }
    ensures folder_later { F.faults folder.old ≤ F.faults folder.new }
    ensures output_stays { result.status ≢ 4 → K.faults output.new ≡ K.faults output.old }
{
    let mut desk = LocalDesk::new(engine);
    let answer = dump_named(alloc, &mut desk, folder, db, range);
    let status = tell_dump(alloc, output, errors, answer);
    let (disk_a, disk_b) = close(desk.into_core());
    LocalEnd {
        status,
        disk_a,
        disk_b,
    }
}

// Dumps the database with this name. One that is too long for a text, which no words of a command have,
// counts as want of memory.
fn dump_named<K: Desk, F: Folder>(
    alloc: Global,
    desk: &mut K,
    folder: &mut F,
    db: &str,
    range: EventRange,
) -> DumpAnswer
    ensures start { K.start desk.new ≡ K.start desk.old }
    ensures legal { Legal (K.start desk.old) (K.history desk.old) → Legal (K.start desk.new) (K.history desk.new) }
    ensures counted { NoneAbove (K.faults desk.old) (K.history desk.old) → NoneAbove (K.faults desk.new) (K.history desk.new) }
    ensures later { F.faults folder.old ≤ F.faults folder.new }
    ensures dumped { Adds K.alone (K.caller desk.old) (K.history desk.old) (K.history desk.new) (λ own. DumpedTo (wanted_of db.now range) result own (shelf_of (F.files folder.old) (F.faults folder.old)) (shelf_of (F.files folder.new) (F.faults folder.new))) }
{
    match Text::of(alloc, db) {
        Ok(name) => repl_dump::dump(
            alloc,
            desk,
            folder,
            &name,
            range.from,
            range.to,
            range.limit,
        ),
        Err(_) => DumpAnswer::NoMemory,
    }
}

// Tells how a dump ended, and returns the status.
fn tell_dump<K: Sink, E: Sink>(
    alloc: Global,
    output: &mut K,
    errors: &mut E,
    answer: DumpAnswer,
) -> u8
    ensures told { TellsDump answer (K.held output.old) (K.held output.new) (record { held = E.held errors.old; faults = E.faults errors.old }) (record { held = E.held errors.new; faults = E.faults errors.new }) result }
    ensures others { (result ≢ 2) × (result ≢ 3) }
    ensures write { result ≡ 4 → Rose (K.faults output.old) (K.faults output.new) }
    ensures output_stays { result ≢ 4 → K.faults output.new ≡ K.faults output.old }
{
    match answer {
        DumpAnswer::Done { dir, last } => {
            let dir = dir.as_str();
            say_done(
                alloc,
                output,
                errors,
                format!(in alloc; "dump {dir} {last}\n"),
            )
        }
        DumpAnswer::Refused(refusal) => {
            let _ = tell_refused_dump(alloc, errors, refusal);
            9
        }
        DumpAnswer::FolderFault => {
            let _ = tell_line(errors, "folder fault\n");
            11
        }
        DumpAnswer::StoreFault => {
            let _ = tell_line(errors, "store fault\n");
            5
        }
        DumpAnswer::NoMemory => {
            let _ = tell_line(errors, "out of memory\n");
            10
        }
    }
}
