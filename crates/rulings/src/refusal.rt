//! Why calls are refused.

ghost use Rattle.std.specs.Prelude.{◌≡◌, ◌++◌, IfOk};
ghost use Rattle.rulings.specs.Refusals.{refusal_number, refusal_text, told_key};
ghost use Rattle.rulings.specs.declared.refusal.Refusal.TheVariants.{FilterSyntax};

use cat_types::{NoMemory, Text};
use std::alloc::Global;

/// How many bytes of a filter's key a refusal tells at most.
const TOLD_BYTES: usize = 128;

/// Why a call of the catalogue is refused.
#[derive(Debug, Drop)]
pub enum Refusal {
    /// What it makes is there already.
    AlreadyExists,
    /// What it names isn't there.
    NoSuchObject,
    /// What it hands in is no object that may be kept.
    InvalidObject,
    /// It may not be done here.
    InvalidOperation,
    /// What it hands in can't be meant.
    InvalidInput,
    /// At this byte offset of its filter stands the first token that can't stand there, or the filter
    /// ends there too soon.
    FilterSyntax(u64),
    /// More than 64 parentheses of its filter are open inside one another.
    FilterTooDeep,
    /// Its filter names this key, which the table doesn't have.
    FilterUnknownKey(Text),
    /// Its filter compares this key with a literal that isn't of the key's kind.
    FilterWrongType(Text),
    /// The database is a replica, which only loads change.
    IsReplica,
    /// No number is left for its event.
    EventNumbersUsedUp,
    /// An argument can't be served.
    InvalidRequest,
}

impl Refusal {
    /// The number of the refusal in a reply.
    pub fn number(&self) -> u8
        ensures { result ≡ refusal_number self.now }
    {
        match self {
            Refusal::AlreadyExists => 1,
            Refusal::NoSuchObject => 2,
            Refusal::InvalidObject => 3,
            Refusal::InvalidOperation => 4,
            Refusal::InvalidInput => 5,
            Refusal::FilterSyntax(_)
            | Refusal::FilterTooDeep
            | Refusal::FilterUnknownKey(_)
            | Refusal::FilterWrongType(_) => 6,
            Refusal::IsReplica => 7,
            Refusal::EventNumbersUsedUp => 12,
            Refusal::InvalidRequest => 13,
        }
    }

    /// The text of the refusal in a reply. Of a key it has the first 128 bytes.
    pub fn text(&self, alloc: Global) -> Result<Text, NoMemory>
        ensures { IfOk result (λ text. text ≡ refusal_text self.now) }
    {
        match self {
            Refusal::AlreadyExists => text_of(alloc, "already exists"),
            Refusal::NoSuchObject => text_of(alloc, "no such object"),
            Refusal::InvalidObject => text_of(alloc, "invalid object"),
            Refusal::InvalidOperation => text_of(alloc, "invalid operation"),
            Refusal::InvalidInput => text_of(alloc, "invalid input"),
            Refusal::FilterSyntax(place) => syntax_text(alloc, *place),
            Refusal::FilterTooDeep => text_of(alloc, "filter: too deep"),
            Refusal::FilterUnknownKey(key) => {
                joined_text(alloc, "filter: unknown key ", told_key(key.as_str()))
            }
            Refusal::FilterWrongType(key) => {
                joined_text(alloc, "filter: wrong type for ", told_key(key.as_str()))
            }
            Refusal::IsReplica => text_of(alloc, "database is a replica"),
            Refusal::EventNumbersUsedUp => text_of(alloc, "event numbers used up"),
            Refusal::InvalidRequest => text_of(alloc, "invalid request"),
        }
    }
}

// The text with these bytes.
fn text_of(alloc: Global, text: &str) -> Result<Text, NoMemory>
    ensures { IfOk result (λ made. made ≡ text.now) }
{
    match Text::of(alloc, text) {
        Ok(made) => Ok(made),
        Err(_) => Err(NoMemory),
    }
}

// The text that tells where a filter can't be read.
fn syntax_text(alloc: Global, place: u64) -> Result<Text, NoMemory>
    ensures { IfOk result (λ text. text ≡ refusal_text (FilterSyntax place)) }
{
    let text = format!(in alloc; "filter: syntax at {place}")?;
    text_of(alloc, text.as_str())
}

// A text and another one behind it.
fn joined_text(alloc: Global, words: &str, told: &str) -> Result<Text, NoMemory>
    ensures { IfOk result (λ text. text ≡ words.now ++ told.now) }
{
    let text = format!(in alloc; "{words}{told}")?;
    text_of(alloc, text.as_str())
}

// What a refusal tells of a key.
fn told_key(key: &str) -> &str
    ensures { result.now ≡ told_key key.now }
{
    let (told, _) = key.split_at(key.floor_char_boundary(TOLD_BYTES));
    told
}
