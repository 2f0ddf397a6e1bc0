//! Numbers and ranges of events in words.

ghost use Rattle.std.specs.Prelude.{◌≡◌, ◌∷◌, ℕ, ℤ, List, Option, None, IfSome, MatchBool, MatchOption, map, string_bytes};
ghost use Rattle.ms_cli.specs.Words.{BeginsWith, IsNumber, IsRange, Takes};
ghost use Rattle.ms_cli.specs.declared.ranges.EventRange.{EventRange};

/// Which events a dump is asked for: those after `from`, up to `to`, and at most `limit` numbers of
/// them. Without `from` all of a database is.
#[derive(Clone, Copy)]
pub struct EventRange {
    pub from: Option<i64>,
    pub to: Option<i64>,
    pub limit: Option<i64>,
}

/// Reads the options `[--from N] [--to N] [--limit N]`.
pub fn read_range(words: &[String]) -> Option<EventRange>
    ensures read { IfSome result (λ range. IsRange (map string_bytes words.now) range) }
    ensures none { result ≡ None → (range : EventRange) → IsRange (map string_bytes words.now) range → ⊥ }
{
    let (from, words) = take_option("--from", words)?;
    let (to, words) = take_option("--to", words)?;
    let (limit, words) = take_option("--limit", words)?;
    if !words.is_empty() {
        return None;
    }
    Some(EventRange { from, to, limit })
}

// Takes an option with its number off the front of the words, where they begin with its name.
fn take_option<'a>(name: &str, words: &'a [String]) -> Option<(Option<i64>, &'a [String])>
    ensures taken { IfSome result (λ t. Takes name.now (map string_bytes words.entry.now) t.0 (map string_bytes t.1.now)) }
    ensures none { result ≡ None → (number : Option ℤ) (others : List (List ℕ)) → Takes name.now (map string_bytes words.entry.now) number others → ⊥ }
{
    if !begins_with(name, words) {
        return Some((None, words));
    }
    match words {
        [_, number, others @ ..] => {
            let number = read_number(number.as_str())?;
            Some((Some(number), others))
        }
        [] | [_] => None,
    }
}

// Whether the words begin with this one.
fn begins_with(name: &str, words: &[String]) -> bool
    ensures { MatchBool result (BeginsWith name.now (map string_bytes words.now)) (BeginsWith name.now (map string_bytes words.now) → ⊥) }
{
    match words {
        [word, ..] => word.as_str() == name,
        [] => false,
    }
}

/// Reads a number from 0 to 9,223,372,036,854,775,807.
pub fn read_number(word: &str) -> Option<i64>
    ensures { MatchOption result ((number : ℤ) → IsNumber word.now number → ⊥) (λ number. IsNumber word.now number) }
{
    let number = word.parse::<u64>().ok()?;
    i64::try_from(number).ok()
}
