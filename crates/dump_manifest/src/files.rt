//! The lines of files.

ghost use Rattle.std.specs.Prelude.{◌≡◌, ◌++◌, ℕ, List, IfSome, IsNone, IsTrue, ◌↔◌, codes, decimal, option_map, true, false};
ghost use Rattle.hex.specs.Hex.{encode_lower};
ghost use Rattle.dump_manifest.specs.Manifests.{HasItems};
ghost use Rattle.dump_manifest.specs.Pieces.{Fronts, came, lacks_lf, named, next_of, prefixed, spaced, tail_of};
ghost use Rattle.dump_manifest.specs.Reading.{IsReadAs};

use crate::lines::{split_line, strip};
use crate::values::{digest_of, number_of};

/// How many bytes stand at the end of a file's line: a space, and the digits of its digest.
const DIGEST_END: usize = 65;

/// A file's length and digest.
pub type Tail = (u64, [u8; 32]);

/// The length and the digest of the file with this number, after a word that ends in `i` or `e`,
/// and what follows its line.
pub fn take_named<'a>(text: &'a [u8], word: &[u8], number: u64) -> Option<(Tail, &'a [u8])>
    requires { lacks_lf word.now ≡ true }
    ensures { Fronts (named word.now number) text.now (option_map (λ front. (front.0, front.1.now)) result) }
{
    match split_line(text) {
        None => None,
        Some((line, rest)) => match read_named(line, word, number) {
            None => None,
            Some(tail) => Some((tail, rest)),
        },
    }
}

fn read_named(line: &[u8], word: &[u8], number: u64) -> Option<Tail>
    ensures { IsReadAs (named word.now number) line.now result }
{
    match strip(line, word) {
        None => None,
        Some(rest) => read_numbered(rest, number),
    }
}

fn read_numbered(text: &[u8], number: u64) -> Option<Tail>
    ensures { IsReadAs (prefixed (decimal number) spaced) text.now result }
{
    let mut buffer = itoa::Buffer::new();
    match strip(text, buffer.format(number).as_bytes()) {
        None => None,
        Some(rest) => read_spaced(rest),
    }
}

fn read_spaced(text: &[u8]) -> Option<Tail>
    ensures { IsReadAs spaced text.now result }
{
    match strip(text, b" ") {
        None => None,
        Some(rest) => read_tail(rest),
    }
}

fn read_tail(text: &[u8]) -> Option<Tail>
    ensures { IsReadAs tail_of text.now result }
{
    if text.len() < DIGEST_END {
        return None;
    }
    let (digits, digest) = text.split_at(text.len() - DIGEST_END);
    read_parts(digits, digest)
}

// The number that these are the digits of, and the bytes after a space.
fn read_parts(digits: &[u8], digest: &[u8]) -> Option<Tail>
    ensures some { IfSome result (λ found. tail_of.Fits found
        × (digits.now ≡ decimal found.0) × (digest.now ≡ codes " " ++ encode_lower found.1)) }
    ensures none { IsNone result → (n : ℕ) (bytes : List ℕ) → tail_of.Fits (n, bytes)
        → digits.now ≡ decimal n → digest.now ≡ codes " " ++ encode_lower bytes → ⊥ }
{
    let length = number_of(digits)?;
    match strip(digest, b" ") {
        None => None,
        Some(hex) => {
            let digest = digest_of(hex)?;
            Some((length, digest))
        }
    }
}

/// Whether a file is of items, and its length and digest.
pub type Found = (bool, Tail);

/// The file that is next where so many of items and of events stand before, and what follows its line.
pub fn take_file(text: &[u8], bootstrap: bool, items: u64, events: u64) -> Option<(Found, &[u8])>
    ensures { Fronts (next_of bootstrap items events) text.now (option_map (λ front. (front.0, front.1.now)) result) }
{
    match take_item(text, bootstrap, items, events) {
        Some((tail, rest)) => Some(((true, tail), rest)),
        None => match take_event(text, bootstrap, items, events) {
            Some((tail, rest)) => Some(((false, tail), rest)),
            None => None,
        },
    }
}

// A file of items, where no file of events stands before.
fn take_item(text: &[u8], bootstrap: bool, items: u64, events: u64) -> Option<(Tail, &[u8])>
    ensures { Fronts (came bootstrap items events true) text.now (option_map (λ front. (front.0, front.1.now)) result) }
{
    if bootstrap && events == 0 {
        take_named(text, b"file i", items)
    } else {
        None
    }
}

// A file of events.
fn take_event(text: &[u8], bootstrap: bool, items: u64, events: u64) -> Option<(Tail, &[u8])>
    ensures { Fronts (came bootstrap items events false) text.now (option_map (λ front. (front.0, front.1.now)) result) }
{
    if has_items(bootstrap, items) {
        take_named(text, b"file e", events)
    } else {
        None
    }
}

/// Whether so many files of items are all that a dump has.
pub fn has_items(bootstrap: bool, items: u64) -> bool
    ensures { IsTrue result ↔ HasItems bootstrap items }
{
    if bootstrap { items > 0 } else { items == 0 }
}
