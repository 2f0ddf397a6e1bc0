//! The top call of one process.

ghost use Rattle.std.specs.Prelude.{◌≡◌, ◌≢◌, ◌≤◌, IfSome, map, string_bytes};
ghost use Rattle.engine.specs.Stores.{fault_number};
ghost use Rattle.hms_outside.specs.Causes.{Rose};
ghost use Rattle.ms_cli.specs.Dumping.{WasRefused};
ghost use Rattle.ms_cli.specs.Keeping.{RefusesStore, seen};
ghost use Rattle.ms_cli.specs.Local.{Did, Runs};
ghost use Rattle.ms_cli.specs.Telling.{Lines, refusal_line, refusal_status};
ghost use Rattle.ms_cli.specs.Words.{Names};
ghost use Rattle.ms_cli.specs.declared.words.Command.{Command};
ghost use Rattle.ms_cli.specs.declared.words.Command.TheVariants.{Wrong};
ghost use Rattle.ms_cli.specs.declared.words.Usage.{Usage};
ghost use Rattle.ms_session.specs.Turns.{shelf_of};

use crate::Command;
use crate::dumping::dump;
use crate::making::init;
use crate::piping::pipe;
use crate::telling::{refused_status, tell_refusal, tell_usage};
use crate::trimming::trim;
use crate::words::read_words;
use hms_outside::{Clock, Disk, Folder, Sink, Source};
use ms_journal::OpenFault;
use std::alloc::Global;

/// How the top call ended: the program's status, and the disks that it was given.
#[derive(Drop)]
pub struct LocalEnd<D> {
    pub status: u8,
    pub disk_a: D,
    pub disk_b: D,
}

/// Does the command that the words name.
///
/// `init HEXID` makes a store on disks that have no bytes, and writes the line `init HEXID`. `pipe`
/// opens the store that the disks hold and answers the messages of `input` on `output`, as its one
/// caller. Each call of the catalogue is one step of that store, at the clock's next moment; what it
/// changes is on the disk before its reply is written, and stays there whatever crash comes. `dump DB`
/// opens the store, dumps the database DB into a directory of its own of the folder, and writes
/// `dump DIR E`, where E is the event up to which the dump goes; `--from N`, `--to N` and `--limit N`
/// ask for a range of events alone. `trim N` opens the store, takes off the kept events up to the
/// number N, and writes `kept N`, with the number of the first kept event.
///
/// The status is 0 where all was done: the store was made, the dump or the trim was done, the whole
/// input was messages, or one of them asked for the end of the session, behind which nothing is read.
/// It is 2 where the words name no command; 3 where the input failed, and 4 where the output did; 5
/// where a disk failed and so no store was made or opened, or no dump was begun or no event taken off;
/// 6 where the disk's bytes refuse the store; 7 where the input stops being messages; 9 where a dump
/// was refused; 10 where memory was refused; 11 where the folder failed in a dump. `errors` gains a
/// line that tells any status but 0. The disks come back whatever the status.
pub fn run_local<S: Source, K: Sink, E: Sink, D: Disk, F: Folder, C: Clock>(
    alloc: Global,
    words: &[String],
    input: &mut S,
    output: &mut K,
    errors: &mut E,
    disk_a: D,
    disk_b: D,
    folder: &mut F,
    clock: &mut C,
) -> LocalEnd<D>
    ensures runs { Runs (map string_bytes words.now) (record { met = record { left = S.left input.old; held = K.held output.old; clock = C.moments clock.old; shelf = shelf_of (F.files folder.old) (F.faults folder.old) }; errors = record { held = E.held errors.old; faults = E.faults errors.old }; disk_a = seen D.lies D.past D.faults disk_a; disk_b = seen D.lies D.past D.faults disk_b }) (record { met = record { left = S.left input.new; held = K.held output.new; clock = C.moments clock.new; shelf = shelf_of (F.files folder.new) (F.faults folder.new) }; errors = record { held = E.held errors.new; faults = E.faults errors.new }; disk_a = seen D.lies D.past D.faults result.disk_a; disk_b = seen D.lies D.past D.faults result.disk_b }) result.status }
    ensures usage { result.status ≡ 2 → (usage : Usage) × Names (map string_bytes words.now) (Wrong usage) }
    ensures read { result.status ≡ 3 → Rose (S.faults input.old) (S.faults input.new) }
    ensures write { result.status ≡ 4 → Rose (K.faults output.old) (K.faults output.new) }
    ensures disk { result.status ≡ 5 → Rose (fault_number (D.faults disk_a) (D.faults disk_b)) (fault_number (D.faults result.disk_a) (D.faults result.disk_b)) }
    ensures store { result.status ≡ 6 → (command : Command) × Names (map string_bytes words.now) command × IfSome (D.lies disk_a) (λ d. RefusesStore command d.held) }
    ensures dump { result.status ≡ 9 → WasRefused (record { met = record { left = S.left input.old; held = K.held output.old; clock = C.moments clock.old; shelf = shelf_of (F.files folder.old) (F.faults folder.old) }; errors = record { held = E.held errors.old; faults = E.faults errors.old }; disk_a = seen D.lies D.past D.faults disk_a; disk_b = seen D.lies D.past D.faults disk_b }) (record { met = record { left = S.left input.new; held = K.held output.new; clock = C.moments clock.new; shelf = shelf_of (F.files folder.new) (F.faults folder.new) }; errors = record { held = E.held errors.new; faults = E.faults errors.new }; disk_a = seen D.lies D.past D.faults result.disk_a; disk_b = seen D.lies D.past D.faults result.disk_b }) }
    ensures folder { result.status ≡ 11 → Rose (F.faults folder.old) (F.faults folder.new) }
    ensures input_stays { result.status ≢ 3 → S.faults input.new ≡ S.faults input.old }
    ensures output_stays { result.status ≢ 4 → K.faults output.new ≡ K.faults output.old }
    ensures folder_later { F.faults folder.old ≤ F.faults folder.new }
    ensures input { result.status ≡ 2 → input.new ≡ input.old }
    ensures output { result.status ≡ 2 → output.new ≡ output.old }
    ensures clock { result.status ≡ 2 → clock.new ≡ clock.old }
    ensures folder_stays { result.status ≡ 2 → folder.new ≡ folder.old }
    ensures disk_a { result.status ≡ 2 → result.disk_a ≡ disk_a }
    ensures disk_b { result.status ≡ 2 → result.disk_b ≡ disk_b }
{
    perform(
        alloc,
        read_words(words),
        input,
        output,
        errors,
        disk_a,
        disk_b,
        folder,
        clock,
    )
}

// Does a command.
fn perform<'a, S: Source, K: Sink, E: Sink, D: Disk, F: Folder, C: Clock>(
    alloc: Global,
    command: Command<'a>,
    input: &mut S,
    output: &mut K,
    errors: &mut E,
    disk_a: D,
    disk_b: D,
    folder: &mut F,
    clock: &mut C,
) -> LocalEnd<D>
    ensures did { Did command.entry (record { met = record { left = S.left input.old; held = K.held output.old; clock = C.moments clock.old; shelf = shelf_of (F.files folder.old) (F.faults folder.old) }; errors = record { held = E.held errors.old; faults = E.faults errors.old }; disk_a = seen D.lies D.past D.faults disk_a; disk_b = seen D.lies D.past D.faults disk_b }) (record { met = record { left = S.left input.new; held = K.held output.new; clock = C.moments clock.new; shelf = shelf_of (F.files folder.new) (F.faults folder.new) }; errors = record { held = E.held errors.new; faults = E.faults errors.new }; disk_a = seen D.lies D.past D.faults result.disk_a; disk_b = seen D.lies D.past D.faults result.disk_b }) result.status }
    ensures usage { result.status ≡ 2 → (usage : Usage) × (command.entry ≡ Wrong usage) }
    ensures read { result.status ≡ 3 → Rose (S.faults input.old) (S.faults input.new) }
    ensures write { result.status ≡ 4 → Rose (K.faults output.old) (K.faults output.new) }
    ensures input_stays { result.status ≢ 3 → S.faults input.new ≡ S.faults input.old }
    ensures output_stays { result.status ≢ 4 → K.faults output.new ≡ K.faults output.old }
    ensures folder_later { F.faults folder.old ≤ F.faults folder.new }
    ensures input { result.status ≡ 2 → input.new ≡ input.old }
    ensures output { result.status ≡ 2 → output.new ≡ output.old }
    ensures clock { result.status ≡ 2 → clock.new ≡ clock.old }
    ensures folder_stays { result.status ≡ 2 → folder.new ≡ folder.old }
    ensures disk_a { result.status ≡ 2 → result.disk_a ≡ disk_a }
    ensures disk_b { result.status ≡ 2 → result.disk_b ≡ disk_b }
{
    match command {
        Command::Pipe => pipe(alloc, input, output, errors, disk_a, disk_b, folder, clock),
        Command::Init(id) => init(alloc, id, output, errors, disk_a, disk_b),
        Command::Dump { db, range } => {
            dump(alloc, db, range, output, errors, disk_a, disk_b, folder)
        }
        Command::Trim(upto) => trim(alloc, upto, output, errors, disk_a, disk_b),
        Command::Wrong(usage) => {
            let _ = tell_usage(errors, usage);
            LocalEnd {
                status: 2,
                disk_a,
                disk_b,
            }
        }
    }
}

/// Tells why there is no store, and gives the disks back.
pub fn refuse<E: Sink, D>(
    alloc: Global,
    errors: &mut E,
    fault: OpenFault,
    disk_a: D,
    disk_b: D,
) -> LocalEnd<D>
    ensures told { Lines (refusal_line fault) (record { held = E.held errors.old; faults = E.faults errors.old }) (record { held = E.held errors.new; faults = E.faults errors.new }) }
    ensures status { result.status ≡ refusal_status fault }
    ensures disk_a { result.disk_a ≡ disk_a }
    ensures disk_b { result.disk_b ≡ disk_b }
{
    let _ = tell_refusal(alloc, errors, fault);
    LocalEnd {
        status: refused_status(fault),
        disk_a,
        disk_b,
    }
}
