//! Lists by worker: what a worker is given is joined to its post, and what all give back is taken
//! apart again.

ghost use Rattle.std.specs.Prelude.{◌≡◌, ◌≤◌, ◌<◌, [], map, vec_len, vec_capacity, IfSome};
ghost use Rattle.server_cli.specs.Lists.{HasRoom, IsPushed};
ghost use Rattle.server_cli.specs.Server.{first_fault, posts_of};

use crate::ServerEnd;
use ms_server::{Done, Post};
use std::alloc::Global;
use std::collections::VecDeque;

/// What goes back to the caller of a server, in the order of the workers.
pub struct Lists<L, F> {
    pub ends: Vec<u8>,
    pub calls: Vec<u64>,
    pub listeners: Vec<L>,
    pub folders: Vec<F>,
}

/// Lists without elements, with room for so many workers.
pub fn with_room<L, F>(alloc: Global, count: usize) -> Option<Lists<L, F>>
    ensures { IfSome result (HasRoom count) }
{
    let mut ends = Vec::new(alloc);
    let mut calls = Vec::new(alloc);
    let mut listeners = Vec::new(alloc);
    let mut folders = Vec::new(alloc);
    if ends.reserve(count).is_err()
        || calls.reserve(count).is_err()
        || listeners.reserve(count).is_err()
        || folders.reserve(count).is_err()
    {
        listeners.destroy_empty();
        folders.destroy_empty();
        return None;
    }
    Some(Lists {
        ends,
        calls,
        listeners,
        folders,
    })
}

/// Room for so many posts.
pub fn with_posts<L, F, K>(alloc: Global, count: usize) -> Option<Vec<Post<L, F, K>>>
    ensures none { IfSome result (λ posts. posts.items ≡ []) }
    ensures room { IfSome result (λ posts. count ≤ vec_capacity posts) }
{
    let mut posts = Vec::new(alloc);
    if posts.reserve(count).is_err() {
        posts.destroy_empty();
        return None;
    }
    Some(posts)
}

/// Joins a listener, a folder and a clock to a post, for each worker.
pub fn join_posts<L, F, K>(
    listeners: Vec<L>,
    folders: Vec<F>,
    clocks: Vec<K>,
    posts: &mut Vec<Post<L, F, K>>,
)
    requires none { posts.old.items ≡ [] }
    requires room { vec_len listeners ≤ vec_capacity posts.old }
    requires folders { vec_len folders ≡ vec_len listeners }
    requires clocks { vec_len clocks ≡ vec_len listeners }
    ensures items { posts.new.items ≡ posts_of listeners.items folders.items clocks.items }
    ensures len { vec_len posts.new ≡ vec_len listeners }
{
    let mut listeners = VecDeque::from(listeners);
    let mut folders = VecDeque::from(folders);
    let mut clocks = VecDeque::from(clocks);
    while let Some(listener) = listeners.pop_front() {
        posts.push_reserved(Post {
            listener,
            folder: folders.pop_front().unwrap(),
            clock: clocks.pop_front().unwrap(),
        });
    }
    listeners.destroy_empty();
    folders.destroy_empty();
    clocks.destroy_empty();
}

/// Takes apart what the workers gave back.
pub fn take_done<L, F, K: Drop>(done: Vec<Done<L, F, K>>, lists: &mut Lists<L, F>)
    requires room { HasRoom (vec_len done) lists.old }
    ensures ends { lists.new.ends.items ≡ map (λ d. d.status) done.items }
    ensures calls { lists.new.calls.items ≡ map (λ d. d.calls) done.items }
    ensures listeners { lists.new.listeners.items ≡ map (λ d. d.post.listener) done.items }
    ensures folders { lists.new.folders.items ≡ map (λ d. d.post.folder) done.items }
{
    let mut done = VecDeque::from(done);
    while let Some(one) = done.pop_front() {
        let Done {
            caller: _,
            calls,
            status,
            post,
        } = one;
        lists.ends.push_reserved(status);
        lists.calls.push_reserved(calls);
        take_post(post, lists);
    }
    done.destroy_empty();
}

/// Takes apart the posts of workers that didn't begin.
pub fn take_posts<L, F, K: Drop>(posts: Vec<Post<L, F, K>>, lists: &mut Lists<L, F>)
    requires room { HasRoom (vec_len posts) lists.old }
    ensures ends { lists.new.ends.items ≡ [] }
    ensures calls { lists.new.calls.items ≡ [] }
    ensures listeners { lists.new.listeners.items ≡ map (λ p. p.listener) posts.items }
    ensures folders { lists.new.folders.items ≡ map (λ p. p.folder) posts.items }
{
    let mut posts = VecDeque::from(posts);
    while let Some(post) = posts.pop_front() {
        take_post(post, lists);
    }
    posts.destroy_empty();
}

// Takes a post apart; its clock isn't wanted any more.
fn take_post<L, F, K: Drop>(post: Post<L, F, K>, lists: &mut Lists<L, F>)
    requires listeners { vec_len lists.old.listeners < vec_capacity lists.old.listeners }
    requires folders { vec_len lists.old.folders < vec_capacity lists.old.folders }
    ensures ends { lists.new.ends ≡ lists.old.ends }
    ensures calls { lists.new.calls ≡ lists.old.calls }
    ensures listeners { IsPushed post.listener lists.old.listeners lists.new.listeners }
    ensures folders { IsPushed post.folder lists.old.folders lists.new.folders }
{
    let Post {
        listener,
        folder,
        clock: _,
    } = post;
    lists.listeners.push_reserved(listener);
    lists.folders.push_reserved(folder);
}

/// The first of these ends that isn't 0, or 0.
pub fn first_of(ends: &[u8]) -> u8
    ensures { result ≡ first_fault ends.now }
{
    for end in ends {
        if *end != 0 {
            return *end;
        }
    }
    0
}

/// What goes back where no worker began.
pub fn idle<L, F>(alloc: Global, listeners: Vec<L>, folders: Vec<F>) -> Lists<L, F>
    ensures none { (result.ends.items ≡ []) × (result.calls.items ≡ []) }
    ensures listeners { result.listeners ≡ listeners }
    ensures folders { result.folders ≡ folders }
{
    Lists {
        ends: Vec::new(alloc),
        calls: Vec::new(alloc),
        listeners,
        folders,
    }
}

/// The end of a server with these lists.
pub fn end_with<L, D, F>(
    status: u8,
    steps: u64,
    lists: Lists<L, F>,
    disk_a: D,
    disk_b: D,
) -> ServerEnd<L, D, F>
    ensures status { result.status ≡ status }
    ensures steps { result.steps ≡ steps }
    ensures ends { result.ends ≡ lists.ends }
    ensures calls { result.calls ≡ lists.calls }
    ensures listeners { result.listeners ≡ lists.listeners }
    ensures folders { result.folders ≡ lists.folders }
    ensures disk_a { result.disk_a ≡ disk_a }
    ensures disk_b { result.disk_b ≡ disk_b }
{
    let Lists {
        ends,
        calls,
        listeners,
        folders,
    } = lists;
    ServerEnd {
        status,
        ends,
        steps,
        calls,
        listeners,
        disk_a,
        disk_b,
        folders,
    }
}
