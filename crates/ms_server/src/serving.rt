//! Serving connections at a desk, one after the other.

ghost use Rattle.std.specs.Prelude.{◌≡◌};
ghost use Rattle.desk.specs.Adds.{Adds};
ghost use Rattle.ms_server.specs.Visits.{Visits, VisitsMany, Worked, around};

use crate::Post;
use desk::Desk;
use hms_listeners::Listener;
use hms_outside::{Clock, Folder, Outage};
use ms_session::serve_session;
use std::alloc::Global;

/// Serves connections at a desk, one after the other, each with a session, and hands each back to the
/// listener. It serves as many as `sessions`, or goes on for as long as the listener hands some out.
/// A session's end ends nothing but its connection. The status is 0 where as many were served as were
/// to be; 12 where the listener failed; 10 where memory was refused.
pub fn work<D: Desk, L: Listener, F: Folder, K: Clock>(
    alloc: Global,
    sessions: Option<u64>,
    desk: &mut D,
    post: &mut Post<L, F, K>,
) -> u8
    ensures caller { D.caller desk.new ≡ D.caller desk.old }
    ensures worked { Adds D.alone (D.caller desk.old) (D.history desk.old) (D.history desk.new) (Worked sessions (around L.inputs L.returned L.faults F.files F.faults K.moments post.old) (around L.inputs L.returned L.faults F.files F.faults K.moments post.new) result) }
{
    match serve_many(alloc, sessions.unwrap_or(u64::MAX), desk, post) {
        Ok(()) => { if sessions.is_some() { 0 } else { 10 } }
        Err(Outage::Failed) => 12,
        Err(Outage::NoMemory) => 10,
    }
}

// Serves so many connections, or those before the first that isn't handed out.
fn serve_many<D: Desk, L: Listener, F: Folder, K: Clock>(
    alloc: Global,
    limit: u64,
    desk: &mut D,
    post: &mut Post<L, F, K>,
) -> Result<(), Outage>
    ensures caller { D.caller desk.new ≡ D.caller desk.old }
    ensures visits { Adds D.alone (D.caller desk.old) (D.history desk.old) (D.history desk.new) (VisitsMany limit (around L.inputs L.returned L.faults F.files F.faults K.moments post.old) (around L.inputs L.returned L.faults F.files F.faults K.moments post.new) result) }
{
    for _ in 0..limit {
        match serve_one(alloc, desk, post) {
            Ok(()) => {}
            Err(fault) => return Err(fault),
        }
    }
    Ok(())
}

// Serves one connection.
fn serve_one<D: Desk, L: Listener, F: Folder, K: Clock>(
    alloc: Global,
    desk: &mut D,
    post: &mut Post<L, F, K>,
) -> Result<(), Outage>
    ensures caller { D.caller desk.new ≡ D.caller desk.old }
    ensures visits { Adds D.alone (D.caller desk.old) (D.history desk.old) (D.history desk.new) (Visits (around L.inputs L.returned L.faults F.files F.faults K.moments post.old) (around L.inputs L.returned L.faults F.files F.faults K.moments post.new) result) }
{
    let (mut rx, mut tx) = post.listener.accept()?;
    serve_session(
        alloc,
        &mut rx,
        &mut tx,
        desk,
        &mut post.folder,
        &mut post.clock,
    );
    post.listener.hand_back(rx, tx);
    Ok(())
}
