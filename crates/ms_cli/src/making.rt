//! Making a store.

ghost use Rattle.std.specs.Prelude.{◌≡◌, ◌≢◌, ◌⊎◌, IfOk, List, Option, string_bytes, ℕ};
ghost use Rattle.hms_outside.specs.Causes.{Rose};
ghost use Rattle.ms_cli.specs.Keeping.{seen};
ghost use Rattle.ms_cli.specs.Local.{Made, Unmade};
ghost use Rattle.ms_cli.specs.Telling.{made_line};
ghost use Rattle.ms_session.specs.Turns.{Shelf};

use crate::LocalEnd;
use crate::local::refuse;
use crate::telling::{say, status, tell};
use engine::Engine;
use hms_outside::{Disk, Sink};
use std::alloc::{AllocError, Global};

/// Makes a store with this id on disks that have no bytes, and says so.
pub fn init<K: Sink, E: Sink, D: Disk>(
    alloc: Global,
    id: [u8; 16],
    output: &mut K,
    errors: &mut E,
    disk_a: D,
    disk_b: D,
) -> LocalEnd<D>
    ensures did { (left clock : Option (List ℕ)) (shelf : Shelf) → Made id (record { met = record { left = left; held = K.held output.old; clock = clock; shelf = shelf }; errors = record { held = E.held errors.old; faults = E.faults errors.old }; disk_a = seen D.lies D.past D.faults disk_a; disk_b = seen D.lies D.past D.faults disk_b }) (record { met = record { left = left; held = K.held output.new; clock = clock; shelf = shelf }; errors = record { held = E.held errors.new; faults = E.faults errors.new }; disk_a = seen D.lies D.past D.faults result.disk_a; disk_b = seen D.lies D.past D.faults result.disk_b }) result.status ⊎ Unmade (record { met = record { left = left; held = K.held output.old; clock = clock; shelf = shelf }; errors = record { held = E.held errors.old; faults = E.faults errors.old }; disk_a = seen D.lies D.past D.faults disk_a; disk_b = seen D.lies D.past D.faults disk_b }) (record { met = record { left = left; held = K.held output.new; clock = clock; shelf = shelf }; errors = record { held = E.held errors.new; faults = E.faults errors.new }; disk_a = seen D.lies D.past D.faults result.disk_a; disk_b = seen D.lies D.past D.faults result.disk_b }) result.status }
    ensures write { result.status ≡ 4 → Rose (K.faults output.old) (K.faults output.new) }
    ensures others { (result.status ≢ 2) × (result.status ≢ 3) }
    ensures output_stays { result.status ≢ 4 → K.faults output.new ≡ K.faults output.old }
{
    match Engine::create(alloc, disk_a, disk_b, id, 0) {
        Ok(engine) => {
            let (disk_a, disk_b) = engine.into_disks();
            let end = say(output, made_text(alloc, &id));
            let _ = tell(alloc, errors, end);
            LocalEnd {
                status: status(end),
                disk_a,
                disk_b,
            }
        }
        Err((fault, disk_a, disk_b)) => refuse(alloc, errors, fault, disk_a, disk_b),
    }
}

// The line that says that a store with this id was made.
fn made_text(alloc: Global, id: &[u8; 16]) -> Result<String, AllocError>
    ensures { IfOk result (λ line. string_bytes line ≡ made_line id.now) }
{
    let digits = hex::encode(alloc, id.as_slice())?;
    format!(in alloc; "init {digits}\n")
}
