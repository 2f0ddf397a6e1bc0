//! Taking off kept events of the store that the disks hold.

ghost use Rattle.std.specs.Prelude.{◌≡◌, ◌≢◌, ◌⊎◌, List, [], Option, ℕ};
ghost use Rattle.hms_outside.specs.Causes.{Rose};
ghost use Rattle.ms_cli.specs.Keeping.{Disk, seen};
ghost use Rattle.ms_cli.specs.Opened.{Opened, Unopened, Worked};
ghost use Rattle.ms_cli.specs.Trimming.{TellsTrim, Trims};
ghost use Rattle.ms_session.specs.DumpReplies.{AnswersTrim};
ghost use Rattle.ms_session.specs.Turns.{Shelf};

use crate::LocalEnd;
use crate::closing::close;
use crate::local::refuse;
use crate::telling::{say_done, tell_line};
use cat_types::{Answer, Step};
use desk::Core;
use engine::Engine;
use hms_outside::{Disk, Sink};
use std::alloc::Global;

/// Opens the store that the disks hold, takes off its kept events up to this number, and tells the first
/// that is kept.
pub fn trim<K: Sink, E: Sink, D: Disk>(
    alloc: Global,
    upto: i64,
    output: &mut K,
    errors: &mut E,
    disk_a: D,
    disk_b: D,
) -> LocalEnd<D>
    ensures did { (left clock : Option (List ℕ)) (shelf : Shelf) → Opened (Trims upto (record { met = record { left = left; held = K.held output.old; clock = clock; shelf = shelf }; errors = record { held = E.held errors.old; faults = E.faults errors.old }; disk_a = seen D.lies D.past D.faults disk_a; disk_b = seen D.lies D.past D.faults disk_b }) (record { met = record { left = left; held = K.held output.new; clock = clock; shelf = shelf }; errors = record { held = E.held errors.new; faults = E.faults errors.new }; disk_a = seen D.lies D.past D.faults result.disk_a; disk_b = seen D.lies D.past D.faults result.disk_b }) result.status) (record { met = record { left = left; held = K.held output.old; clock = clock; shelf = shelf }; errors = record { held = E.held errors.old; faults = E.faults errors.old }; disk_a = seen D.lies D.past D.faults disk_a; disk_b = seen D.lies D.past D.faults disk_b }) (record { met = record { left = left; held = K.held output.new; clock = clock; shelf = shelf }; errors = record { held = E.held errors.new; faults = E.faults errors.new }; disk_a = seen D.lies D.past D.faults result.disk_a; disk_b = seen D.lies D.past D.faults result.disk_b }) ⊎ Unopened (record { met = record { left = left; held = K.held output.old; clock = clock; shelf = shelf }; errors = record { held = E.held errors.old; faults = E.faults errors.old }; disk_a = seen D.lies D.past D.faults disk_a; disk_b = seen D.lies D.past D.faults disk_b }) (record { met = record { left = left; held = K.held output.new; clock = clock; shelf = shelf }; errors = record { held = E.held errors.new; faults = E.faults errors.new }; disk_a = seen D.lies D.past D.faults result.disk_a; disk_b = seen D.lies D.past D.faults result.disk_b }) result.status }
    ensures others { (result.status ≢ 2) × (result.status ≢ 3) }
    ensures write { result.status ≡ 4 → Rose (K.faults output.old) (K.faults output.new) }
    ensures output_stays { result.status ≢ 4 → K.faults output.new ≡ K.faults output.old }
{
    match Engine::open_store(alloc, disk_a, disk_b) {
        Ok(engine) => trim_at(alloc, upto, output, errors, engine),
        Err((fault, disk_a, disk_b)) => refuse(alloc, errors, fault, disk_a, disk_b),
    }
}

// Takes off kept events of a store that was just opened, tells the first that is kept, and gives the
// disks back.
fn trim_at<K: Sink, E: Sink, D: Disk>(
    alloc: Global,
    upto: i64,
    output: &mut K,
    errors: &mut E,
    mut engine: Engine<D>,
) -> LocalEnd<D>
    requires { engine.history ≡ [] }
    ensures worked { (left clock : Option (List ℕ)) (shelf : Shelf) (a b : Disk) → Worked (Trims upto (record { met = record { left = left; held = K.held output.old; clock = clock; shelf = shelf }; errors = record { held = E.held errors.old; faults = E.faults errors.old }; disk_a = a; disk_b = b }) (record { met = record { left = left; held = K.held output.new; clock = clock; shelf = shelf }; errors = record { held = E.held errors.new; faults = E.faults errors.new }; disk_a = seen D.lies D.past D.faults result.disk_a; disk_b = seen D.lies D.past D.faults result.disk_b }) result.status) engine.start (seen D.lies D.past D.faults result.disk_a) (seen D.lies D.past D.faults result.disk_b) }
    ensures others { (result.status ≢ 2) × (result.status ≢ 3) }
    ensures write { result.status ≡ 4 → Rose (K.faults output.old) (K.faults output.new) }
    ensures output_stays { result.status ≢ 4 → K.faults output.new ≡ K.faults output.old }
{
    let answer = engine.turn(0, Step::Trim { upto });
    let status = tell_trim(alloc, output, errors, answer);
    let (disk_a, disk_b) = close(engine);
    LocalEnd {
        status,
        disk_a,
        disk_b,
    }
}

// Tells how a trim was answered, and returns the status.
fn tell_trim<K: Sink, E: Sink>(alloc: Global, output: &mut K, errors: &mut E, answer: Answer) -> u8
    requires { AnswersTrim answer }
    ensures told { TellsTrim answer (K.held output.old) (K.held output.new) (record { held = E.held errors.old; faults = E.faults errors.old }) (record { held = E.held errors.new; faults = E.faults errors.new }) result }
    ensures others { (result ≢ 2) × (result ≢ 3) }
    ensures write { result ≡ 4 → Rose (K.faults output.old) (K.faults output.new) }
    ensures output_stays { result ≢ 4 → K.faults output.new ≡ K.faults output.old }
{
    match answer {
        Answer::Kept(first) => say_done(alloc, output, errors, format!(in alloc; "kept {first}\n")),
        Answer::StoreFault => {
            let _ = tell_line(errors, "store fault\n");
            5
        }
        Answer::NoMemory => {
            let _ = tell_line(errors, "out of memory\n");
            10
        }
        Answer::Reply(_)
        | Answer::Began { .. }
        | Answer::Table(_)
        | Answer::NoTable
        | Answer::Parts { .. }
        | Answer::Sealed(_)
        | Answer::Events { .. }
        | Answer::Ended
        | Answer::DumpRefused(_)
        | Answer::NotOpen => unreachable!(),
    }
}
