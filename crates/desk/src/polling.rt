//! How a poll is answered from the kept events.

ghost use Rattle.std.specs.Prelude.{◌≡◌, ◌≤◌, IfOk, take};
ghost use Rattle.desk.specs.Polls.{event_limit, events_beyond, poll_reply};

use cat_types::{Events, NoMemory, Reply};
use catalogue::{LAST_EVENT, Poll};
use notify_log::EventLog;

/// How many events the answer to a poll has at most.
pub const EVENT_LIMIT: u64 = 1_000_000;

/// The reply to a poll from the kept events, of which only those that it tells are copied. `newest`
/// is the number of the newest event. Events are numbered from 1 on at least.
pub fn reply_to_poll(log: &EventLog, newest: u64, poll: &Poll) -> Result<Reply, NoMemory>
    requires { 1 ≤ log.now.first }
    ensures { IfOk result (λ reply. reply ≡ poll_reply log.now.events newest poll.now) }
{
    match poll {
        Poll::After { last, max } => match events_beyond(log, *last, event_limit(*max)) {
            Ok(events) => Ok(Reply::Events(events)),
            Err(NoMemory) => Err(NoMemory),
        },
        Poll::Newest => Ok(Reply::Big(newest.min(LAST_EVENT) as i64)),
    }
}

// How many events a poll asks for at most.
fn event_limit(max: Option<i32>) -> u64
    ensures { result ≡ event_limit max }
{
    let Some(max) = max else {
        return EVENT_LIMIT;
    };
    if max > 0 {
        return (max as u64).min(EVENT_LIMIT);
    }
    EVENT_LIMIT
}

// Copies of the kept events above a number, so many at most.
fn events_beyond(log: &EventLog, last: i64, limit: u64) -> Result<Events, NoMemory>
    requires { 1 ≤ log.now.first }
    ensures { IfOk result (λ events. events ≡ take limit (events_beyond last log.now.events)) }
{
    if last < 0 {
        return log.after(log.first() - 1, limit);
    }
    log.after(last as u64, limit)
}
