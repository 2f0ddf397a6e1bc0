//! Which top call a program's words are for.

ghost use Rattle.std.specs.Prelude.{◌≡◌, IfOk, MatchBool, map, string_bytes};
ghost use Rattle.server_cli.specs.Plans.{BeginsServe, Plans};

use crate::top_call::Plan;
use crate::words::{Serving, read_serving};
use cat_types::NoMemory;
use std::alloc::Global;

/// Tells which top call these words are for. Where the words of `serve` are refused, port and workers
/// are 1: the call that is made with them says so.
pub fn plan(_alloc: Global, words: &[String]) -> Result<Plan, NoMemory>
    ensures { IfOk result (Plans (map string_bytes words.now)) }
{
    if !begins_serve(words) {
        return Ok(Plan::Local);
    }
    match read_serving(words) {
        Some(Serving { port, workers, .. }) => Ok(Plan::Serve { port, workers }),
        None => Ok(Plan::Serve {
            port: 1,
            workers: 1,
        }),
    }
}

// Whether the first word is `serve`.
fn begins_serve(words: &[String]) -> bool
    ensures { MatchBool result (BeginsServe (map string_bytes words.now)) (BeginsServe (map string_bytes words.now) → ⊥) }
{
    match words {
        [word, ..] => word.as_str() == "serve",
        [] => false,
    }
}
