//! Whole dumps at a store over disks in memory, beside turns of others.

use crate::runs::go_on;
use crate::steps::step_of;
use crate::stores::{Store, new_store};
use crate::telling::tell_refusal;
use crate::words::{maybe_signed, number_of, numbers_of, words_of};
use cat_types::Text;
use desk::{Desk, Foreign, ScriptDesk};
use dump_format::read_dump;
use hms_outside::MemFolder;
use repl_dump::{DumpAnswer, dump};
use std::alloc::Global;
use std::collections::VecDeque;
use std::fmt::Write;
use table_cases::{Answers, Unable};

/// Dumps a database of a new store, and reads the dump back. An input has five parts with a bar between
/// them: the numbers of the disk's and the folder's calls that fail, `DISK FOLDER`; the steps before the
/// dump; the dump, by the words `DB FROM TO LIMIT`; the turns of caller 1, each behind the number of the
/// dump's own step before which it comes, from 0; and the steps after the dump. `-` stands for none.
pub struct WholeDumps;

impl Answers for WholeDumps {
    fn answer(&self, alloc: Global, input: &str) -> Result<String, Unable> {
        let (fails, rest) = input.split_once(" | ").ok_or(Unable::Form)?;
        let (before, rest) = rest.split_once(" | ").ok_or(Unable::Form)?;
        let (asked, rest) = rest.split_once(" | ").ok_or(Unable::Form)?;
        let (turns, after) = rest.split_once(" | ").ok_or(Unable::Form)?;
        let (disk_fails, folder_fails) = words_of(fails);
        let mut folder = MemFolder::new(alloc, numbers_of(alloc, folder_fails)?);
        let mut said = String::new(alloc);
        let store = take_all(alloc, new_store(alloc, disk_fails)?, before, &mut said)?;
        let store = dump_beside(alloc, store, turns, &mut folder, asked, &mut said)?;
        drop(take_all(alloc, store, after, &mut said)?);
        Ok(said)
    }
}

// Takes these steps, and tells their answers.
fn take_all(
    alloc: Global,
    mut store: Store,
    steps: &str,
    said: &mut String,
) -> Result<Store, Unable> {
    if steps == "-" {
        return Ok(store);
    }
    for words in steps.split("; ") {
        part(said)?;
        store = go_on(alloc, store, words, said)?;
    }
    Ok(store)
}

// Parts what is told next from what was told before.
fn part(said: &mut String) -> Result<(), Unable> {
    if !said.is_empty() {
        said.push_str(" | ")?;
    }
    Ok(())
}

// Dumps beside these turns of caller 1, and gives the store back.
fn dump_beside(
    alloc: Global,
    store: Store,
    turns: &str,
    folder: &mut MemFolder,
    asked: &str,
    said: &mut String,
) -> Result<Store, Unable> {
    let script = script_of::<Foreign>(alloc, turns)?;
    let mut desk = ScriptDesk::new(store, script);
    dump_at(alloc, &mut desk, folder, asked, said)?;
    Ok(desk.into_core())
}

// What words name. Lists of such are made without looking at them, which keeps the proof of dropping them
// small.
trait OfWords: Drop {
    fn of_words(alloc: Global, words: &str) -> Result<Self, Unable>;
}

impl OfWords for Foreign {
    fn of_words(alloc: Global, words: &str) -> Result<Foreign, Unable> {
        Ok(Foreign {
            caller: 1,
            step: step_of(alloc, words)?,
        })
    }
}

// Turns, each behind the number of the own step before which it comes.
fn script_of<T: OfWords>(alloc: Global, turns: &str) -> Result<VecDeque<VecDeque<T>>, Unable> {
    let mut script = VecDeque::new(alloc);
    if turns == "-" {
        return Ok(script);
    }
    for turn in turns.split("; ") {
        let (at, words) = words_of(turn);
        add_turn(
            alloc,
            &mut script,
            number_of(at)?,
            T::of_words(alloc, words)?,
        )?;
    }
    Ok(script)
}

// Adds a turn before the own step of this number, which isn't before those that were added.
fn add_turn<T: Drop>(
    alloc: Global,
    script: &mut VecDeque<VecDeque<T>>,
    at: u64,
    turn: T,
) -> Result<(), Unable> {
    for _ in script.len() as u64..=at {
        script.push_back(VecDeque::new(alloc))?;
    }
    let list = script.back_mut().ok_or(Unable::Form)?;
    list.push_back(turn)?;
    Ok(())
}

// Dumps the database of the words `DB FROM TO LIMIT` at a desk, and tells how that ended.
fn dump_at<K: Desk>(
    alloc: Global,
    desk: &mut K,
    folder: &mut MemFolder,
    asked: &str,
    said: &mut String,
) -> Result<(), Unable> {
    let (db, rest) = words_of(asked);
    let (from, rest) = words_of(rest);
    let (to, limit) = words_of(rest);
    let (from, to, limit) = (maybe_signed(from)?, maybe_signed(to)?, maybe_signed(limit)?);
    let db = Text::of(alloc, db)?;
    let answer = dump(alloc, desk, folder, &db, from, to, limit);
    part(said)?;
    tell_dump(alloc, folder, answer, said)
}

// Tells how a dump ended; of one that is whole also what is read of it.
fn tell_dump(
    alloc: Global,
    folder: &mut MemFolder,
    answer: DumpAnswer,
    said: &mut String,
) -> Result<(), Unable> {
    match answer {
        DumpAnswer::Done { dir, last } => {
            write!(said, "done {} {last}, ", dir.as_str())?;
            tell_read(alloc, folder, &dir, said)
        }
        DumpAnswer::Refused(refusal) => tell_refusal(said, refusal),
        DumpAnswer::FolderFault => tell_word(said, "folder fault"),
        DumpAnswer::StoreFault => tell_word(said, "store fault"),
        DumpAnswer::NoMemory => Err(Unable::NoMemory),
    }
}

fn tell_word(said: &mut String, word: &str) -> Result<(), Unable> {
    said.push_str(word)?;
    Ok(())
}

// What is read of a dump: how many files, items and events, and its range.
struct Read {
    files: usize,
    items: usize,
    events: usize,
    begin: u64,
    end: u64,
}

fn read_of(alloc: Global, folder: &mut MemFolder, dir: &Text) -> Result<Read, Unable> {
    let dump = read_dump(alloc, folder, dir.as_str()).or(Err(Unable::Form))?;
    Ok(Read {
        files: dump.manifest.files.len(),
        items: dump.items.len(),
        events: dump.events.len(),
        begin: dump.manifest.begin,
        end: dump.manifest.end,
    })
}

// Tells what is read of a dump.
fn tell_read(
    alloc: Global,
    folder: &mut MemFolder,
    dir: &Text,
    said: &mut String,
) -> Result<(), Unable> {
    let Read {
        files,
        items,
        events,
        begin,
        end,
    } = read_of(alloc, folder, dir)?;
    write!(
        said,
        "{files} files, {items} items, {events} events, {begin} to {end}"
    )?;
    Ok(())
}
