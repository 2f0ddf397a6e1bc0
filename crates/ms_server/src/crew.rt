//! One store, shared by workers in threads of their own.

ghost use Rattle.std.specs.Prelude.{◌≡◌, ◌≤◌, ◌<◌, ◌+◌, ◌%◌, ◌^◌, ◌⊎◌, [], ℕ, IfOk, IfErr, IfSome, MatchResult, false, length, vec_len, vec_capacity};
ghost use Rattle.desk.specs.Adds.{own};
ghost use Rattle.std.specs.VecDeque.{deque_len};
ghost use Rattle.desk.specs.History.{Legal};
ghost use Rattle.ms_server.specs.Crews.{AllDid, AllJoined, Placed, Ran, Ready, all_calls};
ghost use Rattle.ms_server.specs.Visits.{around};
ghost use Rattle.turn_lock.specs.Passes.{caller_of, seen_of, is_out, joined_of, joins_of, past_of, splits_of, IsFirst, IsPassOf, IsSamePass};

use crate::{Crew, Done, Gate, Held, Post, Room, SharedDesk, Worker, gather, run_one};
use desk::Core;
use hms_listeners::Listener;
use hms_outside::{Clock, Folder};
use std::alloc::Global;
use std::collections::VecDeque;
use std::marker::Brand;
use std::snapshot::Snapshot;
use std::sync::Wait;
use std::thread;
use std::thread::Threads;
use turn_lock::{Pass, Turns};

// Makes a worker for each post, in their order.
fn line_up<'a, R, G, C: Core, B: Room, L: Listener, F: Folder, K: Clock>(
    rt: &'a R,
    turns: &'a Turns<Held<C>>,
    gate: &'a G,
    first: &mut Pass<Held<C>>,
    _posts: &Snapshot<Vec<Post<L, F, K>>>,
    mut posts: VecDeque<Post<L, F, K>>,
    workers: &mut Vec<Worker<'a, R, G, C, B, L, F, K>>,
)
    requires lock { turns.now.table.shared.table_id ≡ B.table }
    requires here { IsPassOf turns.now first.old × IsFirst first.old }
    requires inside { is_out first.old ≡ false }
    requires fresh { (seen_of first.old ≡ []) × (splits_of first.old ≡ 0) × (joins_of first.old ≡ 0) × (joined_of first.old ≡ []) }
    requires room { deque_len posts ≤ vec_capacity workers.old }
    requires none_yet { workers.old.items ≡ [] }
    requires these { posts.items ≡ _posts.now.value.items }
    requires few { deque_len posts < 4294967294 }
    ensures same { IsSamePass first.old first.new }
    ensures inside { is_out first.new ≡ false }
    ensures past { past_of first.new ≡ past_of first.old }
    ensures counts { (splits_of first.new ≡ deque_len posts) × (joins_of first.new ≡ 0) × (joined_of first.new ≡ []) }
    ensures len { vec_len workers.new ≡ deque_len posts }
    ensures ready { Placed (λ k w. Ready _posts.now.value.items k (caller_of w.desk.pass) w.post (seen_of w.desk.pass)) workers.new.items }
{
    let mut place = 0u32;
    while let Some(post) = posts.pop_front() {
        let pass = turns.split(first);
        workers.push_reserved(Worker {
            desk: SharedDesk::new(rt, turns, gate, place, pass),
            post,
            status: 0,
        });
        place += 1;
    }
    posts.destroy_empty();
}

// Room for so many workers and for what they give back.
fn with_room<'a, R, G, C: Core, B: Room, L, F, K>(
    alloc: Global,
    count: usize,
) -> Option<(Vec<Worker<'a, R, G, C, B, L, F, K>>, Vec<Done<L, F, K>>)>
    ensures workers { IfSome result (λ r. (r.0.items ≡ []) × (count ≤ vec_capacity r.0)) }
    ensures done { IfSome result (λ r. (r.1.items ≡ []) × (count ≤ vec_capacity r.1)) }
{
    let mut workers = Vec::new(alloc);
    let mut done = Vec::new(alloc);
    if workers.reserve(count).is_err() || done.reserve(count).is_err() {
        workers.destroy_empty();
        done.destroy_empty();
        return None;
    }
    Some((workers, done))
}

// Runs the workers, each in a thread of its own.
fn run_all<
    R: Threads + Wait + Sync,
    G: Gate + Sync,
    C: Core + Send,
    B: Room + Send + Sync,
    L: Listener + Send,
    F: Folder + Send,
    K: Clock + Send,
>(
    rt: &R,
    alloc: Global,
    sessions: Option<u64>,
    posts: &Snapshot<Vec<Post<L, F, K>>>,
    workers: &mut Vec<Worker<'_, R, G, C, B, L, F, K>>,
)
where
    L::Rx: Send,
    L::Tx: Send,
    requires some { 0 < vec_len workers.old }
    requires ready { Placed (λ k w. Ready posts.now.value.items k (caller_of w.desk.pass) w.post (seen_of w.desk.pass)) workers.old.items }
    ensures len { vec_len workers.new ≡ vec_len workers.old }
    ensures ran { Placed (λ k w. Ran (around L.inputs L.returned L.faults F.files F.faults K.moments) sessions posts.now.value.items k (caller_of w.desk.pass) w.post w.status (seen_of w.desk.pass)) workers.new.items }
{
    let count = workers.len();
    let each = |place: usize, worker: &mut Worker<'_, R, G, C, B, L, F, K>|
        requires { Ready posts.now.value.items place (caller_of worker.now.desk.pass) worker.now.post (seen_of worker.now.desk.pass) }
        ensures { Ran (around L.inputs L.returned L.faults F.files F.faults K.moments) sessions posts.entry.now.value.items place (caller_of worker.exit.now.desk.pass) worker.exit.now.post worker.exit.now.status (seen_of worker.exit.now.desk.pass) }
    { run_one(alloc, sessions, place, posts, worker) };
    thread::for_each_mut(rt, workers.as_mut_slice(), count, &each);
}

// Runs a worker for each post, each in a thread of its own, where there is memory for the workers.
// Their passes have joined the first one.
fn run_posts<
    R: Threads + Wait + Sync,
    G: Gate + Sync,
    C: Core + Send,
    B: Room + Send + Sync,
    L: Listener + Send,
    F: Folder + Send,
    K: Clock + Send,
>(
    rt: &R,
    turns: &Turns<Held<C>>,
    gate: &G,
    first: &mut Pass<Held<C>>,
    alloc: Global,
    sessions: Option<u64>,
    posts: Vec<Post<L, F, K>>,
) -> Result<Crew<L, F, K>, Vec<Post<L, F, K>>>
where
    L::Rx: Send,
    L::Tx: Send,
    requires lock { turns.now.table.shared.table_id ≡ B.table }
    requires here { IsPassOf turns.now first.old × IsFirst first.old }
    requires inside { is_out first.old ≡ false }
    requires fresh { (seen_of first.old ≡ []) × (splits_of first.old ≡ 0) × (joins_of first.old ≡ 0) × (joined_of first.old ≡ []) }
    requires few { (0 < vec_len posts) × (vec_len posts < 4294967294) }
    ensures same { IsSamePass first.old first.new }
    ensures past { past_of first.new ≡ past_of first.old }
    ensures inside { is_out first.new ≡ false }
    ensures splits { MatchResult result (λ _. splits_of first.new ≡ length posts.items) (λ _. splits_of first.new ≡ 0) }
    ensures joins { joins_of first.new ≡ splits_of first.new }
    ensures joined { IfOk result (λ crew. AllJoined (around L.inputs L.returned L.faults F.files F.faults K.moments) sessions 1 posts.items (joined_of first.new) crew.done.items) }
    ensures steps { IfOk result (λ crew. crew.steps ≡ all_calls (joined_of first.new) % 2 ^ 64) }
    ensures err { IfErr result (λ left. left ≡ posts) }
{
    let Some((mut workers, done)) = with_room::<R, G, C, B, L, F, K>(alloc, posts.len()) else {
        return Err(posts);
    };
    let all = Snapshot::of(&posts);
    line_up(
        rt,
        turns,
        gate,
        first,
        &all,
        VecDeque::from(posts),
        &mut workers,
    );
    run_all(rt, alloc, sessions, &all, &mut workers);
    let mut crew = Crew { done, steps: 0 };
    gather(
        turns,
        first,
        sessions,
        &all,
        VecDeque::from(workers),
        &mut crew,
    );
    Ok(crew)
}

/// One store, shared by a worker for each post, each in a thread of its own and with a caller number
/// of its own, from 1 on in the order of the posts. With an answer, the store stands for one closed
/// history, which is legal. In it each worker's entries are, one connection after the other, those of
/// the sessions that it served, and nobody else has an entry. Where memory for the lock or for the
/// workers is refused, no worker begins, and the store and the posts come back.
pub fn run_workers<
    R: Threads + Wait + Sync,
    G: Gate + Sync,
    C: Core + Send,
    L: Listener + Send,
    F: Folder + Send,
    K: Clock + Send,
>(
    rt: &R,
    alloc: Global,
    core: C,
    gate: &G,
    sessions: Option<u64>,
    posts: Vec<Post<L, F, K>>,
) -> Result<(C, Crew<L, F, K>), (C, Vec<Post<L, F, K>>)>
where
    L::Rx: Send,
    L::Tx: Send,
    requires fresh { C.history core ≡ [] }
    requires few { (0 < vec_len posts) × (vec_len posts < 4294967294) }
    ensures start { MatchResult result (λ r. C.start r.0 ≡ C.start core) (λ r. C.start r.0 ≡ C.start core) }
    ensures legal { MatchResult result (λ r. Legal (C.start r.0) (C.history r.0)) (λ r. Legal (C.start r.0) (C.history r.0)) }
    ensures did { IfOk result (λ r. AllDid (around L.inputs L.returned L.faults F.files F.faults K.moments) sessions (C.history r.0) 1 posts.items r.1.done.items) }
    ensures nobody { IfOk result (λ r. (caller : ℕ) → (caller ≡ 0) ⊎ (length posts.items < caller) → own caller (C.history r.0) ≡ []) }
    ensures steps { IfOk result (λ r. r.1.steps ≡ length (C.history r.0) % 2 ^ 64) }
    ensures unused { IfErr result (λ r. C.history r.0 ≡ []) }
    ensures posts { IfErr result (λ r. r.1 ≡ posts) }
{
    let (turns, mut first) = match Turns::new(alloc, Held::new(core)) {
        Ok(made) => made,
        Err(held) => return Err((held.into_core(), posts)),
    };
    let crew = run_posts::<R, G, C, Brand, L, F, K>(
        rt, &turns, gate, &mut first, alloc, sessions, posts,
    );
    let core = turns.close(first).into_core();
    match crew {
        Ok(crew) => Ok((core, crew)),
        Err(posts) => Err((core, posts)),
    }
}
