//! Telling on the sink of errors why a server doesn't end well.

ghost use Rattle.std.specs.Prelude.{◌≡◌, codes, IfSome};
ghost use Rattle.hms_outside.specs.Causes.{HasCause};
ghost use Rattle.ms_cli.specs.Telling.{TellsLine, refusal_line};
ghost use Rattle.server_cli.specs.Telling.{TellsNone, TellsWhy};

use engine::Engine;
use hms_outside::{Disk, Outage, Sink};
use ms_cli::{Usage, tell_line, tell_refusal, tell_usage};
use ms_journal::OpenFault;
use std::alloc::Global;

/// Tells a server's status on the sink of errors, by the lines of the other commands, or by
/// `listener fault`. Status 0 has no line. Why the disks' bytes are no store is read off them once
/// more, since the status alone doesn't say it.
pub fn tell_status<E: Sink, D: Disk + Drop>(
    alloc: Global,
    errors: &mut E,
    status: u8,
    disk_a: D,
    disk_b: D,
) -> Result<(), Outage>
    ensures good { status ≡ 0 → TellsNone result (E.held errors.old) (E.held errors.new) }
    ensures usage { status ≡ 2 → TellsLine (codes "usage\n") result (E.held errors.old) (E.held errors.new) }
    ensures disk { status ≡ 5 → TellsLine (refusal_line OpenFault.DiskFault) result (E.held errors.old) (E.held errors.new) }
    ensures store { status ≡ 6 → TellsWhy (D.lies disk_a) result (E.held errors.old) (E.held errors.new) }
    ensures memory { status ≡ 10 → TellsLine (refusal_line OpenFault.NoMemory) result (E.held errors.old) (E.held errors.new) }
    ensures listener { status ≡ 12 → TellsLine (codes "listener fault\n") result (E.held errors.old) (E.held errors.new) }
    ensures cause { HasCause (E.faults errors.old) (E.faults errors.new) result }
{
    match status {
        2 => tell_usage(errors, Usage::Words),
        5 => tell_refusal(alloc, errors, OpenFault::DiskFault),
        6 => tell_why(alloc, errors, disk_a, disk_b),
        10 => tell_refusal(alloc, errors, OpenFault::NoMemory),
        12 => tell_line(errors, "listener fault\n"),
        _ => Ok(()),
    }
}

// Tells why the store that the disks should hold isn't opened.
fn tell_why<E: Sink, D: Disk + Drop>(
    alloc: Global,
    errors: &mut E,
    disk_a: D,
    disk_b: D,
) -> Result<(), Outage>
    ensures told { TellsWhy (D.lies disk_a) result (E.held errors.old) (E.held errors.new) }
    ensures cause { HasCause (E.faults errors.old) (E.faults errors.new) result }
{
    match Engine::open_store(alloc, disk_a, disk_b) {
        Ok(engine) => {
            let _ = engine.into_disks();
            Ok(())
        }
        Err((fault, _, _)) => tell_refusal(alloc, errors, fault),
    }
}
