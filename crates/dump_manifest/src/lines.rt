//! Words and lines at the front of a text.

ghost use Rattle.std.specs.Prelude.{◌≡◌, ◌≤◌, drop, length, option_map, true};
ghost use Rattle.std.specs.Option.{option_copied};
ghost use Rattle.dump_manifest.specs.Manifests.{with_lf};
ghost use Rattle.dump_manifest.specs.Pieces.{Follows, Fronts, cut_line, lacks_lf};
ghost use Rattle.dump_manifest.specs.Reading.{number_line};

use crate::values::read_number;

/// What follows this word.
pub fn strip<'a>(text: &'a [u8], word: &[u8]) -> Option<&'a [u8]>
    ensures { Follows word.now text.now (option_copied result) }
{
    match text.strip_prefix(word) {
        Some(rest) => Some(rest),
        None => None,
    }
}

/// What follows this line and its LF.
pub fn strip_line<'a>(text: &'a [u8], line: &[u8]) -> Option<&'a [u8]>
    ensures { Follows (with_lf line.now) text.now (option_copied result) }
{
    match strip(text, line) {
        Some(rest) => strip(rest, b"\n"),
        None => None,
    }
}

/// The first line without its LF, and what follows.
pub fn split_line(text: &[u8]) -> Option<(&[u8], &[u8])>
    ensures { option_map (λ cut. (cut.0.now, cut.1.now)) result ≡ cut_line text.now }
{
    'bytes: for at in 0..text.len() {
        if text[at] == b'\n' {
            return Some((&text[..at], behind(text, at + 1)));
        }
    }
    None
}

fn behind(text: &[u8], at: usize) -> &[u8]
    requires { at ≤ length text.now }
    ensures { result.now ≡ drop at text.now }
{
    &text[at..]
}

/// The number of the first line, which begins with this word, and what follows.
pub fn take_number<'a>(text: &'a [u8], word: &[u8]) -> Option<(u64, &'a [u8])>
    requires { lacks_lf word.now ≡ true }
    ensures { Fronts (number_line word.now) text.now (option_map (λ front. (front.0, front.1.now)) result) }
{
    match split_line(text) {
        None => None,
        Some((line, rest)) => match read_number(line, word) {
            None => None,
            Some(n) => Some((n, rest)),
        },
    }
}
