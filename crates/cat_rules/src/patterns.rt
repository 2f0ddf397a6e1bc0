//! Which names a pattern asks for.

ghost use Rattle.std.specs.Prelude.{◌≡◌, ◌↔◌, [], ◌∷◌, IsTrue, MatchOption};
ghost use Rattle.std.specs.Str.{chars};
ghost use Rattle.cat_rules.specs.Patterns.{MatchesSigns, MatchesAfterRun, Matches, Reached, StandsFor, does_match};

use cat_values::Text;

/// What stands between the alternatives of a pattern.
const BAR: char = '|';

/// The sign of an alternative that stands for any run of characters.
const RUN: char = '*';

/// The sign of an alternative that stands for any one character.
const ANY_ONE: char = '.';

/// Whether a pattern asks for a name, as the patterns of the Hive metastore's `get_databases` and
/// `get_tables` do. `|` separates the pattern's alternatives, one of which has
/// to match the name whole. In an alternative `*` stands for any run of characters, the empty run
/// included, `.` for any one character, and every other character for itself, an ASCII letter in
/// either case. The empty pattern is one alternative, which matches the empty name alone.
///
/// It takes no memory, and at the worst time of the pattern's length times the name's.
pub fn matches(pattern: &Text, name: &Text) -> bool
    ensures rule { IsTrue result ↔ Matches pattern.now name.now }
    ensures test { result ≡ does_match pattern.now name.now }
{
    let name = name.as_str();
    pattern
        .as_str()
        .split(BAR)
        .any(|alternative| fits(alternative, name))
}

// Whether an alternative matches a name whole.
fn fits(signs: &str, name: &str) -> bool
    ensures { IsTrue result ↔ MatchesSigns (chars signs.now) (chars name.now) }
{
    match follow(signs, name) {
        Reach::Run(later, rest) => fits_behind_run(later, rest),
        Reach::Whole => true,
        Reach::Nowhere => false,
    }
}

// Whether the signs behind a run match an end of a name. Where they go as far as another run, it
// is enough to look at the first place at which they do: the other run takes what lies between.
fn fits_behind_run(signs: &str, name: &str) -> bool
    ensures { IsTrue result ↔ MatchesAfterRun (chars signs.now) (chars name.now) }
{
    let mut signs = signs;
    let mut name = name;
    loop {
        match follow(signs, name) {
            Reach::Run(later, rest) => {
                signs = later;
                name = rest;
            }
            Reach::Whole => return true,
            Reach::Nowhere => match split_char(name) {
                Some((_, rest)) => name = rest,
                None => return false,
            },
        }
    }
}

// How far signs go along a name, one character for each.
enum Reach<'a> {
    // As far as the first run: the signs behind it, and what is left of the name.
    Run(&'a str, &'a str),
    // To the end of both.
    Whole,
    Nowhere,
}

// Follows signs along a name, as far as the first run.
fn follow<'a>(signs: &'a str, name: &'a str) -> Reach<'a>
    ensures { Reached (chars signs.now) (chars name.now) result }
{
    let mut signs = signs;
    let mut name = name;
    while let Some((sign, later)) = split_char(signs) {
        if sign == RUN {
            return Reach::Run(later, name);
        }
        match split_char(name) {
            Some((c, rest)) if stands_for(sign, c) => {
                signs = later;
                name = rest;
            }
            _ => return Reach::Nowhere,
        }
    }
    match split_char(name) {
        None => Reach::Whole,
        Some(_) => Reach::Nowhere,
    }
}

// Whether a sign that is no run stands for a character.
fn stands_for(sign: char, c: char) -> bool
    ensures { IsTrue result ↔ StandsFor sign c }
{
    sign == ANY_ONE || sign.eq_ignore_ascii_case(&c)
}

// The first character of a text, and what follows it.
fn split_char(text: &str) -> Option<(char, &str)>
    ensures { MatchOption result (chars text.now ≡ []) (λ parts. chars text.now ≡ parts.0 ∷ chars parts.1.now) }
{
    let mut rest = text.chars();
    match rest.next() {
        Some(first) => Some((first, rest.as_str())),
        None => None,
    }
}
