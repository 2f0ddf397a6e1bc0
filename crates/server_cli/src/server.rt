//! The top call of a server.

ghost use Rattle.std.specs.Prelude.{◌≡◌, ◌⊎◌, ◌<◌, [], ℕ, List, map, string_bytes, vec_len, IfSome};
ghost use Rattle.desk.specs.History.{Entry};
ghost use Rattle.engine.specs.Opening.{IsBrokenStore};
ghost use Rattle.hms_outside.specs.Causes.{Rose};
ghost use Rattle.ms_journal.specs.Files.{IsForeign};
ghost use Rattle.ms_server.specs.Visits.{around};
ghost use Rattle.server_cli.specs.Lists.{HasRoom};
ghost use Rattle.server_cli.specs.Server.{ArePosts, Closed, EachEnd, Given, OneRose, Served, Serves, back_of, both_seen};
ghost use Rattle.server_cli.specs.Words.{Asks};
ghost use Rattle.server_cli.specs.declared.words.Serving.{Serving};

use crate::lists::{
    Lists, end_with, first_of, idle, join_posts, take_done, take_posts, with_posts, with_room,
};
use crate::{ServerEnd, read_serving};
use engine::Engine;
use hms_listeners::Listener;
use hms_outside::{Clock, Disk, Folder};
use ms_cli::refused_status;
use ms_server::{Crew, Gate, Post, run_workers};
use std::alloc::Global;
use std::sync::Wait;
use std::thread::Threads;

/// Serves the connections that the listeners hand out at the store that the disks hold.
///
/// The words are `serve --port PORT --workers W [--sessions K]`. Each of the W workers runs in a
/// thread of its own, and has the listener, the folder and the clock of its place. It serves one
/// connection after the other, K of them or for as long as its listener hands some out, and hands each
/// back; a session's end ends nothing but its connection. Their steps are those of one store: each
/// happens at once, and what it changes is on the disk before its reply is written, and stays there
/// whatever crash comes.
///
/// The status is the first of the workers' that isn't 0, or 0. A worker's is 0 where it served K
/// connections, 12 where its listener failed, and 10 where memory was refused. Where no worker begins,
/// the status is 2 where the words aren't such, and then nothing is used; 5 where a disk failed and so
/// no store was opened; 6 where the disk's bytes refuse that; 10 where memory was refused. Listeners,
/// folders and disks come back whatever the status.
///
/// It may wait for ever, as `serve` without K does.
pub fn run_server<
    R: Threads + Wait + Sync,
    L: Listener + Send,
    G: Gate + Sync,
    D: Disk + Send,
    F: Folder + Send,
    C: Clock + Send + Drop,
>(
    rt: &R,
    alloc: Global,
    words: &[String],
    listeners: Vec<L>,
    gate: &G,
    disk_a: D,
    disk_b: D,
    folders: Vec<F>,
    clocks: Vec<C>,
) -> ServerEnd<L, D, F>
where
    L::Rx: Send,
    L::Tx: Send,
    requires some { 0 < vec_len listeners }
    requires folders { vec_len folders ≡ vec_len listeners }
    requires clocks { vec_len clocks ≡ vec_len listeners }
    requires workers { (asked : Serving) → Asks (map string_bytes words.now) asked → vec_len listeners ≡ asked.workers }
    ensures serves { Serves (around L.inputs L.returned L.faults F.files F.faults C.moments) (map string_bytes words.now) (record { listeners = listeners.items; folders = folders.items; clocks = clocks.items }) (back_of result) (both_seen D.lies D.past D.faults disk_a disk_b) (both_seen D.lies D.past D.faults result.disk_a result.disk_b) }
    ensures usage { result.status ≡ 2 → (asked : Serving) → Asks (map string_bytes words.now) asked → ⊥ }
    ensures disk { result.status ≡ 5 → Rose (D.faults disk_a) (D.faults result.disk_a) }
    ensures store { result.status ≡ 6 → IfSome (D.lies disk_a) (λ d. IsForeign d.held ⊎ ((at : ℕ) × IsBrokenStore at d.held)) }
    ensures listener { result.status ≡ 12 → OneRose L.faults listeners.items result.listeners.items }
    ensures ends { EachEnd L.faults result.ends.items listeners.items result.listeners.items }
    ensures disk_a { result.status ≡ 2 → result.disk_a ≡ disk_a }
    ensures disk_b { result.status ≡ 2 → result.disk_b ≡ disk_b }
    ensures listeners { vec_len result.listeners ≡ vec_len listeners }
    ensures folders { vec_len result.folders ≡ vec_len folders }
{
    let Some(serving) = read_serving(words) else {
        return end_with(2, 0, idle(alloc, listeners, folders), disk_a, disk_b);
    };
    match Engine::open_store(alloc, disk_a, disk_b) {
        Ok(engine) => serve(
            rt,
            alloc,
            serving.sessions,
            listeners,
            gate,
            engine,
            folders,
            clocks,
        ),
        Err((fault, disk_a, disk_b)) => end_with(
            refused_status(fault),
            0,
            idle(alloc, listeners, folders),
            disk_a,
            disk_b,
        ),
    }
}

// Serves connections at a store that was just opened, where there is memory for what goes back.
fn serve<
    R: Threads + Wait + Sync,
    L: Listener + Send,
    G: Gate + Sync,
    D: Disk + Send,
    F: Folder + Send,
    C: Clock + Send + Drop,
>(
    rt: &R,
    alloc: Global,
    sessions: Option<u64>,
    listeners: Vec<L>,
    gate: &G,
    engine: Engine<D>,
    folders: Vec<F>,
    clocks: Vec<C>,
) -> ServerEnd<L, D, F>
where
    L::Rx: Send,
    L::Tx: Send,
    requires fresh { engine.history ≡ [] }
    requires few { (0 < vec_len listeners) × (vec_len listeners < 4294967294) }
    requires folders { vec_len folders ≡ vec_len listeners }
    requires clocks { vec_len clocks ≡ vec_len listeners }
    ensures { Served (around L.inputs L.returned L.faults F.files F.faults C.moments) sessions engine.start (record { listeners = listeners.items; folders = folders.items; clocks = clocks.items }) (back_of result) (both_seen D.lies D.past D.faults result.disk_a result.disk_b) }
{
    let count = listeners.len();
    let Some(mut posts) = with_posts(alloc, count) else {
        return close(10, 0, idle(alloc, listeners, folders), engine);
    };
    let Some(lists) = with_room(alloc, count) else {
        posts.destroy_empty();
        return close(10, 0, idle(alloc, listeners, folders), engine);
    };
    join_posts(listeners, folders, clocks, &mut posts);
    run(rt, alloc, sessions, posts, gate, engine, lists)
}

// Runs the workers at these posts.
fn run<
    R: Threads + Wait + Sync,
    L: Listener + Send,
    G: Gate + Sync,
    D: Disk + Send,
    F: Folder + Send,
    C: Clock + Send + Drop,
>(
    rt: &R,
    alloc: Global,
    sessions: Option<u64>,
    posts: Vec<Post<L, F, C>>,
    gate: &G,
    engine: Engine<D>,
    mut lists: Lists<L, F>,
) -> ServerEnd<L, D, F>
where
    L::Rx: Send,
    L::Tx: Send,
    requires fresh { engine.history ≡ [] }
    requires few { (0 < vec_len posts) × (vec_len posts < 4294967294) }
    requires room { HasRoom (vec_len posts) lists }
    ensures { (given : Given L F C) → ArePosts given posts.items → Served (around L.inputs L.returned L.faults F.files F.faults C.moments) sessions engine.start given (back_of result) (both_seen D.lies D.past D.faults result.disk_a result.disk_b) }
{
    match run_workers(rt, alloc, engine, gate, sessions, posts) {
        Ok((engine, crew)) => {
            let Crew { done, steps } = crew;
            take_done(done, &mut lists);
            let status = first_of(lists.ends.as_slice());
            close(status, steps, lists, engine)
        }
        Err((engine, posts)) => {
            take_posts(posts, &mut lists);
            close(10, 0, lists, engine)
        }
    }
}

// Closes the store, and gives all back.
fn close<L, D: Disk, F>(
    status: u8,
    steps: u64,
    lists: Lists<L, F>,
    engine: Engine<D>,
) -> ServerEnd<L, D, F>
    ensures closed { Closed engine.start engine.history (both_seen D.lies D.past D.faults result.disk_a result.disk_b) }
    ensures status { result.status ≡ status }
    ensures steps { result.steps ≡ steps }
    ensures ends { result.ends ≡ lists.ends }
    ensures calls { result.calls ≡ lists.calls }
    ensures listeners { result.listeners ≡ lists.listeners }
    ensures folders { result.folders ≡ lists.folders }
{
    let (disk_a, disk_b) = engine.into_disks();
    end_with(status, steps, lists, disk_a, disk_b)
}
