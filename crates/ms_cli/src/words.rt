//! What the words of a command line name.

ghost use Rattle.std.specs.Prelude.{◌≡◌, [], ◌∷◌, MatchBool, codes, map, string_bytes};
ghost use Rattle.ms_cli.specs.Words.{HasLong, Names, Reads, judged};

use crate::ranges::{EventRange, read_number, read_range};
use hex::FromHex;

/// How many bytes a word may have.
const WORD_LIMIT: usize = 16_777_216;

/// What words name.
#[derive(Clone, Copy)]
pub enum Command<'a> {
    /// A session is served from the input to the output.
    Pipe,
    /// A store with this id is made.
    Init([u8; 16]),
    /// The database with this name is dumped: all of it, or a range of events.
    Dump { db: &'a str, range: EventRange },
    /// The kept events up to this number are taken off.
    Trim(i64),
    /// No command.
    Wrong(Usage),
}

/// Why words name no command.
#[derive(Clone, Copy)]
pub enum Usage {
    /// They aren't those of a command.
    Words,
    /// One of them has too many bytes.
    LongWord,
    /// The id isn't 32 hexadecimal digits.
    Id,
}

/// Reads the words.
pub fn read_words<'a>(words: &'a [String]) -> Command<'a>
    ensures { Names (map string_bytes words.entry.now) result }
{
    let command = command_of(words);
    if has_long(words) {
        without_long(command)
    } else {
        command
    }
}

// How a command is judged of whose words one has too many bytes.
fn without_long<'a>(command: Command<'a>) -> Command<'a>
    ensures { result ≡ judged command.entry }
{
    match command {
        Command::Wrong(Usage::Words) => Command::Wrong(Usage::Words),
        Command::Pipe
        | Command::Init(_)
        | Command::Dump { .. }
        | Command::Trim(_)
        | Command::Wrong(Usage::LongWord)
        | Command::Wrong(Usage::Id) => Command::Wrong(Usage::LongWord),
    }
}

// Whether one of the words has too many bytes.
fn has_long(words: &[String]) -> bool
    ensures { MatchBool result (HasLong (map string_bytes words.now)) (HasLong (map string_bytes words.now) → ⊥) }
{
    for word in words {
        if word.len() > WORD_LIMIT {
            return true;
        }
    }
    false
}

// What the words name, however many bytes they have.
fn command_of<'a>(words: &'a [String]) -> Command<'a>
    ensures { Reads (map string_bytes words.entry.now) result }
{
    match words {
        [] => Command::Wrong(Usage::Words),
        [word] => one_word(word.as_str()),
        [word, argument, options @ ..] => argued(word.as_str(), argument.as_str(), options),
    }
}

// What one word names.
fn one_word<'a>(word: &str) -> Command<'a>
    ensures { Reads (word.now ∷ []) result }
{
    if word == "pipe" {
        Command::Pipe
    } else {
        Command::Wrong(Usage::Words)
    }
}

// What a word with an argument names, and with these words behind it.
fn argued<'a>(word: &str, argument: &'a str, options: &[String]) -> Command<'a>
    ensures { Reads (word.now ∷ argument.entry.now ∷ map string_bytes options.now) result }
{
    if word == "dump" {
        return dump_of(argument, options);
    }
    if !options.is_empty() {
        return Command::Wrong(Usage::Words);
    }
    if word == "init" {
        return init_of(argument);
    }
    if word == "trim" {
        return trim_of(argument);
    }
    Command::Wrong(Usage::Words)
}

// What the words `init DIGITS` name.
fn init_of<'a>(digits: &str) -> Command<'a>
    ensures { Reads (codes "init" ∷ digits.now ∷ []) result }
{
    match <[u8; 16] as FromHex>::from_hex(digits) {
        Ok(id) => Command::Init(id),
        Err(_) => Command::Wrong(Usage::Id),
    }
}

// What the words `trim NUMBER` name.
fn trim_of<'a>(number: &str) -> Command<'a>
    ensures { Reads (codes "trim" ∷ number.now ∷ []) result }
{
    match read_number(number) {
        Some(upto) => Command::Trim(upto),
        None => Command::Wrong(Usage::Words),
    }
}

// What the words `dump DB` name, with these options behind them.
fn dump_of<'a>(db: &'a str, options: &[String]) -> Command<'a>
    ensures { Reads (codes "dump" ∷ db.entry.now ∷ map string_bytes options.now) result }
{
    match read_range(options) {
        Some(range) => Command::Dump { db, range },
        None => Command::Wrong(Usage::Words),
    }
}
