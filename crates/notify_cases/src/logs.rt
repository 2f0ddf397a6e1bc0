//! A log that is pushed to, read and trimmed.

ghost use Rattle.std.specs.Prelude.{◌≡◌, ◌+◌, ◌<◌, OnOk};
ghost use Rattle.notify_log.specs.Logs.{next_number};

use cat_types::{Change, Event, EventKind, Events, ListOf, NoMemory, Text};
use notify_log::EventLog;
use std::alloc::Global;
use std::fmt::Write;
use table_cases::Unable;

/// Keeps the events 9, 10 and 11, and takes off those up to 10; prints what the log tells before and
/// after.
pub fn run_log(rt: &(impl Print + AllocGlobal)) -> Result<(), Unable> {
    let alloc = rt.alloc();
    let mut log = EventLog::new(alloc, 9);
    log.reserve()?;
    keep(alloc, &mut log, 9)?;
    keep(alloc, &mut log, 10)?;
    keep(alloc, &mut log, 11)?;
    tell(rt, &log)?;
    log.trim(10);
    tell(rt, &log)
}

// Keeps an event with this number.
fn keep(alloc: Global, log: &mut EventLog, id: u64) -> Result<(), Unable>
    requires next { next_number log.old ≡ id }
    requires small { id < 1000 }
    ensures { OnOk result (next_number log.new ≡ id + 1) }
{
    let event = Event {
        id,
        moment: 0,
        change: Change {
            kind: EventKind::DropDatabase,
            db: Text::of(alloc, "d")?,
            db_born: 1,
            ops: ListOf::new(alloc),
        },
    };
    match log.push(event) {
        Ok(()) => Ok(()),
        Err((NoMemory, _)) => Err(Unable::NoMemory),
    }
}

// Prints what the log tells.
fn tell(rt: &(impl Print + AllocGlobal), log: &EventLog) -> Result<(), Unable> {
    println!(rt; "first: {}", log.first())?;
    println!(rt; "10 is kept: {}", log.get(10).is_some())?;
    println!(rt; "12 is kept: {}", log.get(12).is_some())?;
    tell_after(rt, log, 0, 2)?;
    tell_after(rt, log, 9, 0)?;
    tell_after(rt, log, 10, 18_446_744_073_709_551_615)?;
    tell_after(rt, log, 18_446_744_073_709_551_615, 1)
}

// Prints the numbers of the events above one.
fn tell_after(
    rt: &(impl Print + AllocGlobal),
    log: &EventLog,
    id: u64,
    max: u64,
) -> Result<(), Unable> {
    let numbers = numbers(rt.alloc(), &log.after(id, max)?)?;
    println!(rt; "at most {max} above {id}:{numbers}")?;
    Ok(())
}

fn numbers(alloc: Global, events: &Events) -> Result<String, Unable> {
    let mut numbers = String::new(alloc);
    for event in events.as_slice() {
        let id = event.id;
        write!(numbers, " {id}")?;
    }
    Ok(numbers)
}
