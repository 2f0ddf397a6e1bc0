//! Serving a session at the store that the disks hold.

ghost use Rattle.std.specs.Prelude.{◌≡◌, ◌≢◌, ◌⊎◌, ◌≤◌, []};
ghost use Rattle.hms_outside.specs.Causes.{Rose};
ghost use Rattle.ms_cli.specs.Keeping.{Disk, seen};
ghost use Rattle.ms_cli.specs.Local.{Serves};
ghost use Rattle.ms_cli.specs.Opened.{Opened, Unopened, Worked};
ghost use Rattle.ms_session.specs.Turns.{shelf_of};

use crate::LocalEnd;
use crate::closing::close;
use crate::local::refuse;
use crate::telling::{status, tell};
use desk::LocalDesk;
use engine::Engine;
use hms_outside::{Clock, Disk, Folder, Sink, Source};
use ms_session::serve_session;
use std::alloc::Global;

/// Opens the store that the disks hold, and serves a session there.
pub fn pipe<S: Source, K: Sink, E: Sink, D: Disk, F: Folder, C: Clock>(
    alloc: Global,
    input: &mut S,
    output: &mut K,
    errors: &mut E,
    disk_a: D,
    disk_b: D,
    folder: &mut F,
    clock: &mut C,
) -> LocalEnd<D>
    ensures did { Opened (Serves (record { met = record { left = S.left input.old; held = K.held output.old; clock = C.moments clock.old; shelf = shelf_of (F.files folder.old) (F.faults folder.old) }; errors = record { held = E.held errors.old; faults = E.faults errors.old }; disk_a = seen D.lies D.past D.faults disk_a; disk_b = seen D.lies D.past D.faults disk_b }) (record { met = record { left = S.left input.new; held = K.held output.new; clock = C.moments clock.new; shelf = shelf_of (F.files folder.new) (F.faults folder.new) }; errors = record { held = E.held errors.new; faults = E.faults errors.new }; disk_a = seen D.lies D.past D.faults result.disk_a; disk_b = seen D.lies D.past D.faults result.disk_b }) result.status) (record { met = record { left = S.left input.old; held = K.held output.old; clock = C.moments clock.old; shelf = shelf_of (F.files folder.old) (F.faults folder.old) }; errors = record { held = E.held errors.old; faults = E.faults errors.old }; disk_a = seen D.lies D.past D.faults disk_a; disk_b = seen D.lies D.past D.faults disk_b }) (record { met = record { left = S.left input.new; held = K.held output.new; clock = C.moments clock.new; shelf = shelf_of (F.files folder.new) (F.faults folder.new) }; errors = record { held = E.held errors.new; faults = E.faults errors.new }; disk_a = seen D.lies D.past D.faults result.disk_a; disk_b = seen D.lies D.past D.faults result.disk_b }) ⊎ Unopened (record { met = record { left = S.left input.old; held = K.held output.old; clock = C.moments clock.old; shelf = shelf_of (F.files folder.old) (F.faults folder.old) }; errors = record { held = E.held errors.old; faults = E.faults errors.old }; disk_a = seen D.lies D.past D.faults disk_a; disk_b = seen D.lies D.past D.faults disk_b }) (record { met = record { left = S.left input.new; held = K.held output.new; clock = C.moments clock.new; shelf = shelf_of (F.files folder.new) (F.faults folder.new) }; errors = record { held = E.held errors.new; faults = E.faults errors.new }; disk_a = seen D.lies D.past D.faults result.disk_a; disk_b = seen D.lies D.past D.faults result.disk_b }) result.status }
    ensures no_usage { result.status ≢ 2 }
    ensures read { result.status ≡ 3 → Rose (S.faults input.old) (S.faults input.new) }
    ensures write { result.status ≡ 4 → Rose (K.faults output.old) (K.faults output.new) }
    ensures input_stays { result.status ≢ 3 → S.faults input.new ≡ S.faults input.old }
    ensures output_stays { result.status ≢ 4 → K.faults output.new ≡ K.faults output.old }
    ensures folder_later { F.faults folder.old ≤ F.faults folder.new }
{
    match Engine::open_store(alloc, disk_a, disk_b) {
        Ok(engine) => serve(alloc, input, output, errors, engine, folder, clock),
        Err((fault, disk_a, disk_b)) => refuse(alloc, errors, fault, disk_a, disk_b),
    }
}

// Serves a session at a store that was just opened, tells its end, and gives the disks back.
fn serve<S: Source, K: Sink, E: Sink, D: Disk, F: Folder, C: Clock>(
    alloc: Global,
    input: &mut S,
    output: &mut K,
    errors: &mut E,
    engine: Engine<D>,
    folder: &mut F,
    clock: &mut C,
) -> LocalEnd<D>
    requires { engine.history ≡ [] }
    ensures worked { (a b : Disk) → Worked (Serves (record { met = record { left = S.left input.old; held = K.held output.old; clock = C.moments clock.old; shelf = shelf_of (F.files folder.old) (F.faults folder.old) }; errors = record { held = E.held errors.old; faults = E.faults errors.old }; disk_a = a; disk_b = b }) (record { met = record { left = S.left input.new; held = K.held output.new; clock = C.moments clock.new; shelf = shelf_of (F.files folder.new) (F.faults folder.new) }; errors = record { held = E.held errors.new; faults = E.faults errors.new }; disk_a = seen D.lies D.past D.faults result.disk_a; disk_b = seen D.lies D.past D.faults result.disk_b }) result.status) engine.start (seen D.lies D.past D.faults result.disk_a) (seen D.lies D.past D.faults result.disk_b) }
    ensures no_usage { result.status ≢ 2 }
    ensures read { result.status ≡ 3 → Rose (S.faults input.old) (S.faults input.new) }
    ensures write { result.status ≡ 4 → Rose (K.faults output.old) (K.faults output.new) }
    ensures input_stays { result.status ≢ 3 → S.faults input.new ≡ S.faults input.old }
    ensures output_stays { result.status ≢ 4 → K.faults output.new ≡ K.faults output.old }
    ensures folder_later { F.faults folder.old ≤ F.faults folder.new }
{
    let mut desk = LocalDesk::new(engine);
    let end = serve_session(alloc, input, output, &mut desk, folder, clock);
    let _ = tell(alloc, errors, end);
    let (disk_a, disk_b) = close(desk.into_core());
    LocalEnd {
        status: status(end),
        disk_a,
        disk_b,
    }
}
