//! The log of events: events kept, and the newest ones polled.

ghost use Rattle.std.specs.Prelude.{◌≡◌, IfOk};

use crate::samples::texts_of;
use crate::stop::Stop;
use cat_types::{Change, Event, EventKind, NoMemory, Op, Ops, Text};
use notify_log::EventLog;
use std::alloc::Global;

/// Keeps so many events, each of which drops a partition; the number of the newest one.
pub fn keep(alloc: Global, count: u32) -> Result<u64, Stop> {
    let log = kept(alloc, count)?;
    sum_of(&log, (count as u64).saturating_sub(1), 1)
}

/// Polls a log with so many events so often, each time for so many of the newest events. The sum is
/// of the numbers of the polled events.
pub fn poll(alloc: Global, count: u32, polls: u32, newest: u32) -> Result<u64, Stop> {
    let log = kept(alloc, count)?;
    let last_seen = (count as u64).saturating_sub(newest as u64);
    let mut sum: u64 = 0;
    for _ in 0..polls {
        sum = sum.saturating_add(sum_of(&log, last_seen, newest as u64)?);
    }
    Ok(sum)
}

// The sum of the numbers of the events above one.
fn sum_of(log: &EventLog, id: u64, max: u64) -> Result<u64, Stop> {
    let mut sum: u64 = 0;
    for event in log.after(id, max)?.as_slice() {
        sum = sum.saturating_add(event.id);
    }
    Ok(sum)
}

// A log that keeps so many events.
fn kept(alloc: Global, count: u32) -> Result<EventLog, Stop> {
    let mut log = EventLog::new(alloc, 1);
    for id in 1..count as u64 + 1 {
        match log.push(sample(alloc, id)?) {
            Ok(()) => {}
            Err((NoMemory, _)) => return Err(Stop::NoMemory),
        }
    }
    Ok(log)
}

// The event with this number, which drops a partition.
fn sample(alloc: Global, id: u64) -> Result<Event, Stop>
    ensures { IfOk result (λ event. event.id ≡ id) }
{
    let mut ops = Ops::new(alloc);
    ops.push(Op::DropPart {
        table: Text::of(alloc, "web_sales_by_day")?,
        born: 17,
        values: texts_of(alloc, "2026-12-01")?,
    })?;
    Ok(Event {
        id,
        moment: 1_790_000_000,
        change: Change {
            kind: EventKind::DropPartition,
            db: Text::of(alloc, "warehouse")?,
            db_born: 3,
            ops,
        },
    })
}
