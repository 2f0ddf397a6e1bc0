//! Whole lives of a lock, in several threads.

ghost use Rattle.std.specs.Prelude.{◌≡◌, ◌<◌, ◌+◌, ◌++◌, [], ℕ, false, IfOk, IfErr};
ghost use Rattle.std.specs.Thread.{IsSync};
ghost use Rattle.turn_lock.specs.Histories.{own};
ghost use Rattle.turn_lock.specs.Passes.{caller_of, calls_of, is_out, IsPassOf, IsSamePass, HasSameJoins};
ghost use Rattle.turn_lock_tests.specs.Calls.{first_calls};

use crate::works::{Works, steps};
use std::alloc::Global;
use std::sync::Wait;
use std::thread::{Threads, join};
use turn_lock::{Pass, Turns};

// The same as `steps`, with the pass by value.
fn worked<V: Works, R: Wait>(turns: &Turns<V>, rt: &R, mut pass: Pass<V>, count: u32) -> Pass<V>
    requires here { IsPassOf turns.now pass }
    requires inside { is_out pass ≡ false }
    ensures same { IsSamePass pass result }
    ensures joins { HasSameJoins pass result }
    ensures inside { is_out result ≡ false }
    ensures calls { calls_of result ≡ calls_of pass ++ first_calls (V.entry (caller_of pass)) count }
{
    steps(turns, rt, &mut pass, count);
    pass
}

/// Two threads take so many turns each. The list of the value that comes back has the calls of each
/// in their order, and nobody else's. Hands the value back for want of memory.
pub fn run_two<V: Works + Send, R: Threads + Wait + Sync>(
    rt: &R,
    alloc: Global,
    value: V,
    first_count: u32,
    second_count: u32,
) -> Result<V, V>
    requires fresh { V.history value ≡ [] }
    ensures first { IfOk result (λ v. own V.caller_of 0 (V.history v) ≡ first_calls (V.entry 0) first_count) }
    ensures second { IfOk result (λ v. own V.caller_of 1 (V.history v) ≡ first_calls (V.entry 1) second_count) }
    ensures nobody { IfOk result (λ v. (caller : ℕ) → 1 < caller → own V.caller_of caller (V.history v) ≡ []) }
    ensures start { IfOk result (λ v. V.start v ≡ V.start value) }
    ensures err { IfErr result (λ v. v ≡ value) }
{
    let (turns, mut first) = Turns::new(alloc, value)?;
    let second = turns.split(&mut first);
    let lock = &turns;
    let (mut first, second) = join(
        rt,
        || -> Pass<V>
            requires { IsSync R.row × IsPassOf lock.now first × (is_out first ≡ false) }
            ensures same { IsSamePass first result }
            ensures joins { HasSameJoins first result }
            ensures inside { is_out result ≡ false }
            ensures calls { calls_of result ≡ calls_of first ++ first_calls (V.entry (caller_of first)) first_count }
        { worked(lock, rt, first, first_count) },
        || -> Pass<V>
            requires { IsSync R.row × IsPassOf lock.now second × (is_out second ≡ false) }
            ensures same { IsSamePass second result }
            ensures joins { HasSameJoins second result }
            ensures inside { is_out result ≡ false }
            ensures calls { calls_of result ≡ calls_of second ++ first_calls (V.entry (caller_of second)) second_count }
        { worked(lock, rt, second, second_count) },
    );
    turns.join(&mut first, second);
    Ok(turns.close(first))
}
