//! What the words of `serve` ask.

ghost use Rattle.std.specs.Prelude.{◌≡◌, ◌∷◌, [], List, Option, None, Some, IfSome, MatchOption, map, string_bytes, ℕ};
ghost use Rattle.server_cli.specs.Words.{Asks, AsksSessions, IsNumber};
ghost use Rattle.server_cli.specs.declared.words.Serving.{Serving};

/// How many bytes a word may have.
const WORD_LIMIT: usize = 16_777_216;

/// The greatest number of sessions that words can ask for.
const MOST_SESSIONS: u64 = 9_223_372_036_854_775_807;

/// What the words of `serve` ask: a port, how many workers, and how many sessions each of them serves;
/// without that number a worker goes on.
#[derive(Clone, Copy, Debug, PartialEq, Eq)]
pub struct Serving {
    pub port: u16,
    pub workers: u32,
    pub sessions: Option<u64>,
}

/// Reads `serve --port PORT --workers W [--sessions K]`. Any other words ask nothing.
pub fn read_serving(words: &[String]) -> Option<Serving>
    ensures asked { IfSome result (λ s. Asks (map string_bytes words.now) s) }
    ensures none { result ≡ None → (s : Serving) → Asks (map string_bytes words.now) s → ⊥ }
{
    match words {
        [command, port_name, port, workers_name, workers, more @ ..] => {
            let (port, workers) = read_numbers(
                command.as_str(),
                port_name.as_str(),
                port.as_str(),
                workers_name.as_str(),
                workers.as_str(),
            )?;
            let sessions = read_sessions(more)?;
            Some(Serving {
                port,
                workers,
                sessions,
            })
        }
        _ => None,
    }
}

// Reads the words up to those of the sessions: the port, and how many workers.
fn read_numbers(
    command: &str,
    port_name: &str,
    port: &str,
    workers_name: &str,
    workers: &str,
) -> Option<(u16, u32)>
    ensures asked { IfSome result (λ n. (more : List (List ℕ)) (sessions : Option ℕ) → AsksSessions more sessions → Asks (command.now ∷ port_name.now ∷ port.now ∷ workers_name.now ∷ workers.now ∷ more) (record { port = n.0; workers = n.1; sessions = sessions })) }
    ensures none { result ≡ None → (s : Serving) (more : List (List ℕ)) → Asks (command.now ∷ port_name.now ∷ port.now ∷ workers_name.now ∷ workers.now ∷ more) s → ⊥ }
{
    if command != "serve" || port_name != "--port" || workers_name != "--workers" {
        return None;
    }
    Some((
        read_number(port, 1, 65_535)? as u16,
        read_number(workers, 1, 64)? as u32,
    ))
}

// Reads the words behind the workers.
fn read_sessions(words: &[String]) -> Option<Option<u64>>
    ensures { MatchOption result ((sessions : Option ℕ) → AsksSessions (map string_bytes words.now) sessions → ⊥) (λ sessions. AsksSessions (map string_bytes words.now) sessions) }
{
    match words {
        [] => Some(None),
        [name, sessions] => match count_of(name.as_str(), sessions.as_str()) {
            Some(count) => Some(Some(count)),
            None => None,
        },
        _ => None,
    }
}

// Reads how many sessions a worker serves.
fn count_of(name: &str, sessions: &str) -> Option<u64>
    ensures { MatchOption result ((n : ℕ) → AsksSessions (name.now ∷ sessions.now ∷ []) (Some n) → ⊥) (λ n. AsksSessions (name.now ∷ sessions.now ∷ []) (Some n)) }
{
    if name != "--sessions" {
        return None;
    }
    read_number(sessions, 1, MOST_SESSIONS)
}

// Reads a number from `low` to `high`.
fn read_number(word: &str, low: u64, high: u64) -> Option<u64>
    ensures { MatchOption result ((n : ℕ) → IsNumber low high word.now n → ⊥) (λ n. IsNumber low high word.now n) }
{
    if word.len() > WORD_LIMIT {
        return None;
    }
    let number = word.parse::<u64>().ok()?;
    if number < low || number > high {
        return None;
    }
    Some(number)
}
