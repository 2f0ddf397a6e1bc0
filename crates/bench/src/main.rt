//! Pieces of work that the scripts in `bench` time from outside. Each prints one line, which is the
//! same whenever the words are the same:
//!
//! - `names make|vals|spec COUNT`: a name of three keys is made, read into its values, or read into a
//!   map; a sum of the bytes of the names or of the last values, or of the maps' entries.
//! - `names match|stars COUNT`: a hostile pattern is tried on a long name; how often it didn't match.
//! - `filter LISTS ROUNDS`: a filter is read once and tried on each list of values in memory, so many
//!   rounds over; how often it held.
//! - `records put|get COUNT`: an event that puts a table of 50 columns is written or read as a record;
//!   a sum of the bytes.
//! - `digest COUNT`: 32 KiB are hashed by SHA-256; a sum of the digests' first bytes.
//! - `wire_read skip|fields ROUNDS MIB`: a session of so many MiB is read, each message by its head,
//!   its arguments passed over or value by value; how many messages it has, and a sum over all that
//!   was read.
//! - `wire_write COUNT`: a reply that tells a table of 50 columns is gathered and sent; a sum of its
//!   bytes.
//! - `events keep COUNT`, `events poll KEPT NEWEST POLLS`: so many events are kept in a log, and its
//!   newest ones are polled so often; the number of the newest event, or a sum of those polled.
//! - `lock THREADS TURNS`: each thread takes so many turns under the lock; how many turns were
//!   counted.
//! - `journal append COUNT`: in the folder that it runs in a journal is made anew, and so many payloads of
//!   200 bytes are appended; their number.
//! - `journal open|read`: that journal is opened, or its file read; how many payloads, or bytes, it has.
//!
//! The word `all` asks for each of them once, and little of it.
#![tactic(auto)]

mod counter;
mod digests;
mod events;
mod filter;
mod journal;
mod lock;
mod names;
mod records;
mod samples;
mod stop;
mod wire_read;
mod wire_write;
mod work;

use std::alloc::Global;
use std::env;
use std::fs::File;
use std::process::ExitCode;
use std::rt::{Env, Files};
use std::sync::Wait;
use std::thread::Threads;
use stop::Stop;
use wire_read::Gave;
use work::{EACH, Work, named_work};

fn main(rt: HostRuntime) -> ExitCode {
    match run(&rt) {
        Ok(()) => ExitCode::SUCCESS,
        Err(stop) => {
            let _ = eprintln!(rt; "{stop}");
            ExitCode::from(stop.status())
        }
    }
}

// Does what the words ask for.
fn run<R: Env + Files<File = File> + Print + Alloc<A = Global> + Threads + Wait + Sync>(
    rt: &R,
) -> Result<(), Stop> {
    let words = words(rt)?;
    if words.len() == 1 && words[0].as_str() == "all" {
        return perform_each(rt);
    }
    let work = named_work(&words).ok_or(Stop::Usage)?;
    perform(rt, work)
}

// The words that the program was started with, behind its own name.
fn words(rt: &(impl Env + Alloc<A = Global>)) -> Result<Vec<String>, Stop> {
    let mut words = Vec::new(rt.alloc());
    if let Ok(args) = env::args(rt) {
        for word in args.skip(1) {
            words.push(word)?;
        }
    }
    Ok(words)
}

// Does each piece of work once, and little of it.
fn perform_each<R: Files<File = File> + Print + Alloc<A = Global> + Threads + Wait + Sync>(
    rt: &R,
) -> Result<(), Stop> {
    for work in &EACH {
        perform(rt, *work)?;
    }
    journal::remove(rt);
    Ok(())
}

// Does a piece of work, and prints its line.
fn perform<R: Files<File = File> + Print + Alloc<A = Global> + Threads + Wait + Sync>(
    rt: &R,
    work: Work,
) -> Result<(), Stop> {
    let alloc = rt.alloc();
    let sum = match work {
        Work::Make { count } => names::make(alloc, count),
        Work::Vals { count } => names::read_values(alloc, count),
        Work::Spec { count } => names::read_maps(alloc, count),
        Work::Match { count } => names::refuse(alloc, names::FOUR_RUNS, count),
        Work::Stars { count } => names::refuse(alloc, names::THIRTY_RUNS, count),
        Work::Filter { lists, rounds } => filter::find(alloc, lists, rounds),
        Work::Put { count } => records::put(alloc, count),
        Work::Get { count } => records::get(alloc, count),
        Work::Digest { count } => digests::chain(alloc, count),
        Work::WireRead {
            reading,
            rounds,
            size,
        } => {
            return print_read(rt, wire_read::read(alloc, reading, rounds, size)?);
        }
        Work::WireWrite { count } => wire_write::write(alloc, count),
        Work::Keep { count } => events::keep(alloc, count),
        Work::Poll {
            kept,
            newest,
            polls,
        } => events::poll(alloc, kept, polls, newest),
        Work::Lock { threads, turns } => lock::take_turns(rt, alloc, threads, turns),
        Work::Append { count } => journal::append(rt, alloc, count),
        Work::Open => journal::open(rt, alloc),
        Work::ReadFile => journal::read(rt, alloc),
    }?;
    println!(rt; "{sum}")?;
    Ok(())
}

fn print_read(rt: &impl Print, gave: Gave) -> Result<(), Stop> {
    let Gave { messages, sum } = gave;
    println!(rt; "{messages} {sum}")?;
    Ok(())
}
