//! Runs of steps at a new store.

use crate::steps::step_of;
use crate::stores::{Store, bytes_from, crashed, new_store};
use crate::telling::tell;
use crate::words::{number_of, words_of};
use cat_types::Step;
use desk::Core;
use hms_outside::CrashPick;
use std::alloc::Global;
use std::fmt::Write;
use table_cases::{Answers, Unable};

/// Takes the steps that an input tells, with `;` between them, at a new store, and tells each answer.
/// Before them and a bar stand the numbers of the calls of disk A that fail, from 0, with commas between
/// them; `-` stands for none. A word `@` before a step says that caller 1 takes it; the others are caller
/// 0's. `old` and `new` open the store after a crash that leaves what was synced or what was written,
/// `bytes AT` tells the disk's bytes from a place on, `base` takes five calls whose answers aren't told,
/// and so does `repeat COUNT CALL` with one call again and again.
pub struct Runs;

/// The five changes that make events 1 to 5 of the worked rows: a database `w` with three tables.
const BASE: &str =
    "create_database w; create_table w a k; add_partitions w a 65; create_table w b -; create_table w c -";

impl Answers for Runs {
    fn answer(&self, alloc: Global, input: &str) -> Result<String, Unable> {
        let (fails, steps) = input.split_once(" | ").ok_or(Unable::Form)?;
        let mut store = new_store(alloc, fails)?;
        let mut said = String::new(alloc);
        for words in steps.split("; ") {
            if !said.is_empty() {
                said.push_str(" | ")?;
            }
            store = go_on(alloc, store, words, &mut said)?;
        }
        Ok(said)
    }
}

/// Takes what these words tell.
pub fn go_on(alloc: Global, store: Store, words: &str, said: &mut String) -> Result<Store, Unable> {
    let (word, rest) = words_of(words);
    match word {
        "old" => open_again(alloc, store, CrashPick::Old, said),
        "new" => open_again(alloc, store, CrashPick::New, said),
        "bytes" => {
            let (told, store) = bytes_from(alloc, store, number_of(rest)?)?;
            said.push_str(told.as_str())?;
            Ok(store)
        }
        "base" => take_base(alloc, store, said),
        "repeat" => repeat(alloc, store, rest, said),
        "@" => take(alloc, store, 1, rest, said),
        _ => take(alloc, store, 0, words, said),
    }
}

// Opens what a crash leaves of the store.
fn open_again(
    alloc: Global,
    store: Store,
    pick: CrashPick,
    said: &mut String,
) -> Result<Store, Unable> {
    said.push_str("opened")?;
    crashed(alloc, store, pick)
}

// A caller takes the step of these words.
fn take(
    alloc: Global,
    mut store: Store,
    caller: u32,
    words: &str,
    said: &mut String,
) -> Result<Store, Unable> {
    let step = step_of(alloc, words)?;
    tell(said, store.turn(caller, step))?;
    Ok(store)
}

fn take_base(alloc: Global, mut store: Store, said: &mut String) -> Result<Store, Unable> {
    said.push_str("base")?;
    for words in BASE.split("; ") {
        store = take_untold(store, step_of(alloc, words)?);
    }
    Ok(store)
}

// Takes one call so many times, by the words `COUNT CALL`.
fn repeat(
    alloc: Global,
    mut store: Store,
    words: &str,
    said: &mut String,
) -> Result<Store, Unable> {
    let (count, call) = words_of(words);
    let count = number_of(count)?;
    write!(said, "{count} times")?;
    for _ in 0..count {
        store = take_untold(store, step_of(alloc, call)?);
    }
    Ok(store)
}

fn take_untold(mut store: Store, step: Step) -> Store {
    drop(store.turn(0, step));
    store
}
