//! The server.

ghost use Rattle.std.specs.Prelude.{◌≡◌, ◌<◌, IfOk, map, string_bytes, vec_len};
ghost use Rattle.server_cli.specs.Words.{Asks};
ghost use Rattle.server_cli.specs.declared.words.Serving.{Serving};

use hms_folders::DirFolder;
use hms_listeners::TcpDoor;
use hms_outside::{Disk, Folder, Sink, SystemClock};
use ms_server::FreeGate;
use server_cli::{ServerEnd, run_server, tell_status};
use std::alloc::{AllocError, Global};
use std::fs::File;
use std::net::{Ipv4Addr, Net, TcpListener, TcpStream};
use std::rt::Files;
use std::sync::Wait;
use std::thread::Threads;
use std::time;

/// A door and a clock for each worker.
type Places<'a, R> = (Vec<TcpDoor<'a>>, Vec<SystemClock<&'a R>>);

/// Serves connections at this port of the loopback by so many workers, which are as many as the words
/// ask, each with the folder of its place, and returns the status.
pub fn serve<
    R: Net<Listener = TcpListener, Stream = TcpStream>
        + Threads
        + Wait
        + time::Clock
        + Alloc<A = Global>
        + Sync,
    E: Sink,
    D: Disk + Send + Drop,
    F: Folder + Send + Drop,
>(
    rt: &R,
    words: &[String],
    folders: Vec<F>,
    port: u16,
    workers: u32,
    errors: &mut E,
    disk_a: D,
    disk_b: D,
) -> u8
    requires some { 0 < workers }
    requires asked { (asked : Serving) → Asks (map string_bytes words.now) asked → workers ≡ asked.workers }
    requires folders { vec_len folders ≡ workers }
{
    let alloc = rt.alloc();
    let listener = TcpListener::bind(rt, (Ipv4Addr::LOCALHOST, port)).ok();
    let Ok((doors, clocks)) = places(rt, alloc, listener.as_ref(), workers) else {
        return 10;
    };
    let ServerEnd {
        status,
        ends: _,
        steps: _,
        calls: _,
        listeners: _,
        disk_a,
        disk_b,
        folders: _,
    } = run_server(
        rt, alloc, words, doors, &FreeGate, disk_a, disk_b, folders, clocks,
    );
    let _ = tell_status(alloc, errors, status, disk_a, disk_b);
    status
}

/// The folder of dumps for each worker: each has one of its own, all of them the same directory.
pub fn folders_of<'a, R: Files<File = File> + Alloc<A = Global>>(
    rt: &'a R,
    dumps: &str,
    workers: u32,
) -> Result<Vec<DirFolder<'a, R>>, AllocError>
    ensures { IfOk result (λ folders. vec_len folders ≡ workers) }
{
    let alloc = rt.alloc();
    let mut folders = Vec::new(alloc);
    for _ in 0..workers {
        folders.push(DirFolder::new(rt, String::from_str(alloc, dumps)?))?;
    }
    Ok(folders)
}

// A door and a clock for each worker.
fn places<'a, R: time::Clock>(
    rt: &'a R,
    alloc: Global,
    listener: Option<&'a TcpListener>,
    workers: u32,
) -> Result<Places<'a, R>, AllocError>
    ensures { IfOk result (λ p. (vec_len p.0 ≡ workers) × (vec_len p.1 ≡ workers)) }
{
    let mut doors = Vec::new(alloc);
    let mut clocks = Vec::new(alloc);
    for _ in 0..workers {
        doors.push(TcpDoor::new(alloc, listener, None))?;
        clocks.push(SystemClock::new(rt))?;
    }
    Ok((doors, clocks))
}
