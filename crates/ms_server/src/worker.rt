//! Workers, each with a desk of its own.

ghost use Rattle.std.specs.Prelude.{◌≡◌, ◌≤◌, ◌+◌, ◌%◌, ◌^◌, [], false, length, vec_len, vec_capacity};
ghost use Rattle.std.specs.VecDeque.{deque_len};
ghost use Rattle.desk.specs.Adds.{own};
ghost use Rattle.ms_server.specs.Crews.{AllJoined, JoinsAs, Placed, Ran, Ready, all_calls};
ghost use Rattle.ms_server.specs.Visits.{Worked, around};
ghost use Rattle.turn_lock.specs.Passes.{caller_of, past_of, seen_of, is_out, joined_of, joins_of, splits_of, IsFirst, IsPassOf, IsSamePass};

use crate::{Crew, Done, Gate, Held, Post, Room, SharedDesk, work};
use desk::Core;
use hms_listeners::Listener;
use hms_outside::{Clock, Folder};
use std::alloc::Global;
use std::collections::VecDeque;
use std::snapshot::Snapshot;
use std::sync::Wait;
use turn_lock::{Pass, Standing, Turns};

/// A worker's desk and post, and how it ended.
pub struct Worker<'a, R, G, C: Core, B: Room, L, F, K>
where
    Held<C>: Standing,
{
    pub desk: SharedDesk<'a, R, G, C, B>,
    pub post: Post<L, F, K>,
    pub status: u8,
}

/// Serves the connections of the worker at this place, which is ready to run from these posts.
pub fn run_one<R: Wait, G: Gate, C: Core, B: Room, L: Listener, F: Folder, K: Clock>(
    alloc: Global,
    sessions: Option<u64>,
    _place: usize,
    _posts: &Snapshot<Vec<Post<L, F, K>>>,
    worker: &mut Worker<'_, R, G, C, B, L, F, K>,
)
    requires ready { Ready _posts.now.value.items _place (caller_of worker.old.desk.pass) worker.old.post (seen_of worker.old.desk.pass) }
    ensures ran { Ran (around L.inputs L.returned L.faults F.files F.faults K.moments) sessions _posts.now.value.items _place (caller_of worker.new.desk.pass) worker.new.post worker.new.status (seen_of worker.new.desk.pass) }
{
    serve_worker(alloc, sessions, worker);
}

// Serves the worker's connections.
fn serve_worker<R: Wait, G: Gate, C: Core, B: Room, L: Listener, F: Folder, K: Clock>(
    alloc: Global,
    sessions: Option<u64>,
    worker: &mut Worker<'_, R, G, C, B, L, F, K>,
)
    requires fresh { seen_of worker.old.desk.pass ≡ [] }
    ensures caller { caller_of worker.new.desk.pass ≡ caller_of worker.old.desk.pass }
    ensures worked { Worked sessions (around L.inputs L.returned L.faults F.files F.faults K.moments worker.old.post) (around L.inputs L.returned L.faults F.files F.faults K.moments worker.new.post) worker.new.status (own (caller_of worker.new.desk.pass) (seen_of worker.new.desk.pass)) }
{
    worker.status = work(alloc, sessions, &mut worker.desk, &mut worker.post);
}

/// Ends the workers, which have run from these posts: their passes join the first one.
pub fn gather<R, G, C: Core, B: Room, L: Listener, F: Folder, K: Clock>(
    turns: &Turns<Held<C>>,
    first: &mut Pass<Held<C>>,
    _sessions: Option<u64>,
    _posts: &Snapshot<Vec<Post<L, F, K>>>,
    mut workers: VecDeque<Worker<'_, R, G, C, B, L, F, K>>,
    crew: &mut Crew<L, F, K>,
)
    requires lock { turns.now.table.shared.table_id ≡ B.table }
    requires here { IsPassOf turns.now first.old × IsFirst first.old }
    requires inside { is_out first.old ≡ false }
    requires room { vec_len crew.old.done + deque_len workers ≤ vec_capacity crew.old.done }
    requires none { (crew.old.done.items ≡ []) × (crew.old.steps ≡ 0) × (joined_of first.old ≡ []) }
    requires len { deque_len workers ≡ length _posts.now.value.items }
    requires ran { Placed (λ k w. Ran (around L.inputs L.returned L.faults F.files F.faults K.moments) _sessions _posts.now.value.items k (caller_of w.desk.pass) w.post w.status (seen_of w.desk.pass)) workers.items }
    ensures same { IsSamePass first.old first.new }
    ensures past { past_of first.new ≡ past_of first.old }
    ensures inside { is_out first.new ≡ false }
    ensures counts { (splits_of first.new ≡ splits_of first.old) × (joins_of first.new ≡ joins_of first.old + deque_len workers.entry) }
    ensures joined { AllJoined (around L.inputs L.returned L.faults F.files F.faults K.moments) _sessions 1 _posts.now.value.items (joined_of first.new) crew.new.done.items }
    ensures steps { crew.new.steps ≡ all_calls (joined_of first.new) % 2 ^ 64 }
{
    while let Some(worker) = workers.pop_front() {
        let (done, calls) = end(turns, first, worker);
        crew.done.push_reserved(done);
        crew.steps = crew.steps.wrapping_add(calls);
    }
    workers.destroy_empty();
}

// Ends one worker.
fn end<R, G, C: Core, B: Room, L, F, K>(
    turns: &Turns<Held<C>>,
    first: &mut Pass<Held<C>>,
    worker: Worker<'_, R, G, C, B, L, F, K>,
) -> (Done<L, F, K>, u64)
    requires lock { turns.now.table.shared.table_id ≡ B.table }
    requires here { IsPassOf turns.now first.old × IsFirst first.old }
    requires inside { is_out first.old ≡ false }
    ensures same { IsSamePass first.old first.new }
    ensures past { past_of first.new ≡ past_of first.old }
    ensures inside { is_out first.new ≡ false }
    ensures counts { (splits_of first.new ≡ splits_of first.old) × (joins_of first.new ≡ joins_of first.old + 1) }
    ensures joined { JoinsAs (joined_of first.old) (joined_of first.new) (caller_of worker.entry.desk.pass) (seen_of worker.entry.desk.pass) result.1 }
    ensures caller { result.0.caller ≡ caller_of worker.entry.desk.pass }
    ensures calls { result.0.calls ≡ result.1 }
    ensures status { result.0.status ≡ worker.entry.status }
    ensures post { result.0.post ≡ worker.entry.post }
{
    let Worker { desk, post, status } = worker;
    let calls = desk.done();
    let pass = desk.into_pass();
    let caller = pass.caller();
    turns.join(first, pass);
    let done = Done {
        caller,
        calls,
        status,
        post,
    };
    (done, calls)
}
