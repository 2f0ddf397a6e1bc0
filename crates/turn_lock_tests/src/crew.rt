//! A lock with as many passes as wanted, each in the hands of a thread.

ghost use Rattle.std.specs.Prelude.{◌≡◌, ◌<◌, ◌≤◌, ◌+◌, [], ℕ, false, All, IfOk, vec_len};
ghost use Rattle.turn_lock.specs.Histories.{own};
ghost use Rattle.turn_lock.specs.Passes.{caller_of, splits_of, joins_of, is_out, IsFirst, IsPassOf, IsSamePass};

use crate::works::{Works, steps};
use std::alloc::{AllocFailed, Global};
use std::sync::Wait;
use std::thread;
use std::thread::Threads;
use turn_lock::{Pass, Turns};

// Splits off so many passes, and says whether there was memory for them all. Those that there was none for have joined again.
fn split_off<V: Works>(
    turns: &Turns<V>,
    first: &mut Pass<V>,
    passes: &mut Vec<Pass<V>>,
    count: u32,
) -> bool
    requires here { IsPassOf turns.now first.old × IsFirst first.old }
    requires inside { is_out first.old ≡ false }
    requires none_yet { (passes.old.items ≡ []) × (splits_of first.old ≡ 0) × (joins_of first.old ≡ 0) }
    requires few { count < 4294967295 }
    ensures same { IsSamePass first.old first.new }
    ensures inside { is_out first.new ≡ false }
    ensures counts { joins_of first.new + vec_len passes.new ≡ splits_of first.new }
    ensures most { splits_of first.new ≤ count }
    ensures passes { All (λ p. IsPassOf turns.now p × (is_out p ≡ false)) passes.new.items }
{
    for _ in 0..count {
        let pass = turns.split(first);
        if let Err(failed) = passes.push(pass) {
            let AllocFailed { value } = failed;
            turns.join(first, value);
            return false;
        }
    }
    true
}

// Joins all passes with the first one.
fn gather<V: Works>(turns: &Turns<V>, first: &mut Pass<V>, mut passes: Vec<Pass<V>>)
    requires here { IsPassOf turns.now first.old × IsFirst first.old }
    requires inside { is_out first.old ≡ false }
    requires passes { All (λ p. IsPassOf turns.now p × (is_out p ≡ false)) passes.items }
    ensures same { IsSamePass first.old first.new }
    ensures inside { is_out first.new ≡ false }
    ensures counts { (splits_of first.new ≡ splits_of first.old) × (joins_of first.new ≡ joins_of first.old + vec_len passes) }
{
    while let Some(pass) = passes.pop() {
        turns.join(first, pass);
    }
    passes.destroy_empty();
}

/// So many threads take so many turns each. The value that comes back has no entries of others. Where
/// there was no memory for all the passes, it comes back as an error.
pub fn run_many<V: Works + Send, R: Threads + Wait + Sync>(
    rt: &R,
    alloc: Global,
    value: V,
    threads: u32,
    count: u32,
) -> Result<V, V>
    requires fresh { V.history value ≡ [] }
    requires some { (0 < threads) × (threads < 4294967295) }
    ensures nobody { IfOk result (λ v. (caller : ℕ) → threads < caller → own V.caller_of caller (V.history v) ≡ []) }
    ensures start { IfOk result (λ v. V.start v ≡ V.start value) }
{
    let (turns, mut first) = Turns::new(alloc, value)?;
    let mut passes = Vec::new(alloc);
    let all = split_off(&turns, &mut first, &mut passes, threads);
    if all {
        let lock = &turns;
        let work = |_: usize, pass: &mut Pass<V>|
            requires { IsPassOf lock.now pass.now × (is_out pass.now ≡ false) }
            ensures { IsPassOf lock.entry.now pass.exit.now × (is_out pass.exit.now ≡ false) }
        { steps(lock, rt, pass, count) };
        thread::for_each_mut(rt, passes.as_mut_slice(), threads as usize, &work);
    }
    gather(&turns, &mut first, passes);
    let value = turns.close(first);
    if all { Ok(value) } else { Err(value) }
}
