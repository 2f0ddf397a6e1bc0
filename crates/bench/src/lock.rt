//! Threads that take turns under the lock.

ghost use Rattle.std.specs.Prelude.{◌≡◌, ◌<◌, ◌+◌, [], false, All, vec_len};
ghost use Rattle.turn_lock.specs.Passes.{splits_of, joins_of, is_out, IsFirst, IsPassOf, IsSamePass};

use crate::counter::Counter;
use crate::stop::Stop;
use std::alloc::{AllocFailed, Global};
use std::sync::Wait;
use std::thread;
use std::thread::Threads;
use turn_lock::{Pass, Turns};

// One turn.
fn step<R: Wait>(turns: &Turns<Counter>, rt: &R, pass: &mut Pass<Counter>)
    requires here { IsPassOf turns.now pass.old }
    requires inside { is_out pass.old ≡ false }
    ensures same { IsSamePass pass.old pass.new }
    ensures inside { is_out pass.new ≡ false }
{
    let mut turn = turns.enter(rt, pass);
    turn.value().add(pass.caller());
    turns.leave(pass, turn);
}

// So many turns, one after the other.
fn steps<R: Wait>(turns: &Turns<Counter>, rt: &R, pass: &mut Pass<Counter>, count: u32)
    requires here { IsPassOf turns.now pass.old }
    requires inside { is_out pass.old ≡ false }
    ensures same { IsSamePass pass.old pass.new }
    ensures inside { is_out pass.new ≡ false }
{
    for _ in 0..count {
        step(turns, rt, pass);
    }
}

// Splits off so many passes, and says whether there was memory for them all. One that there was
// none for has joined again.
fn split_off(
    turns: &Turns<Counter>,
    first: &mut Pass<Counter>,
    passes: &mut Vec<Pass<Counter>>,
    count: u32,
) -> bool
    requires here { IsPassOf turns.now first.old × IsFirst first.old }
    requires inside { is_out first.old ≡ false }
    requires none_yet { (passes.old.items ≡ []) × (splits_of first.old ≡ 0) × (joins_of first.old ≡ 0) }
    requires few { count < 4294967295 }
    ensures same { IsSamePass first.old first.new }
    ensures inside { is_out first.new ≡ false }
    ensures counts { joins_of first.new + vec_len passes.new ≡ splits_of first.new }
    ensures passes { All (λ p. IsPassOf turns.now p × (is_out p ≡ false)) passes.new.items }
{
    for _ in 0..count {
        let pass = turns.split(first);
        if let Err(failed) = passes.push(pass) {
            let AllocFailed { value } = failed;
            turns.join(first, value);
            return false;
        }
    }
    true
}

// Joins all passes with the first one.
fn gather(turns: &Turns<Counter>, first: &mut Pass<Counter>, mut passes: Vec<Pass<Counter>>)
    requires here { IsPassOf turns.now first.old × IsFirst first.old }
    requires inside { is_out first.old ≡ false }
    requires passes { All (λ p. IsPassOf turns.now p × (is_out p ≡ false)) passes.items }
    ensures same { IsSamePass first.old first.new }
    ensures inside { is_out first.new ≡ false }
    ensures counts { (splits_of first.new ≡ splits_of first.old) × (joins_of first.new ≡ joins_of first.old + vec_len passes) }
{
    while let Some(pass) = passes.pop() {
        turns.join(first, pass);
    }
    passes.destroy_empty();
}

/// So many threads take so many turns each. Gives how many turns were counted.
pub fn take_turns<R: Threads + Wait + Sync>(
    rt: &R,
    alloc: Global,
    threads: u8,
    count: u32,
) -> Result<u64, Stop> {
    let Ok((turns, mut first)) = Turns::new(alloc, Counter::new()) else {
        return Err(Stop::NoMemory);
    };
    let mut passes = Vec::new(alloc);
    let all = split_off(&turns, &mut first, &mut passes, u32::from(threads));
    if all {
        let lock = &turns;
        let work = |_: usize, pass: &mut Pass<Counter>|
            requires { IsPassOf lock.now pass.now × (is_out pass.now ≡ false) }
            ensures { IsPassOf lock.entry.now pass.exit.now × (is_out pass.exit.now ≡ false) }
        { steps(lock, rt, pass, count) };
        thread::for_each_mut(
            rt,
            passes.as_mut_slice(),
            usize::from(threads).max(1),
            &work,
        );
    }
    gather(&turns, &mut first, passes);
    let counter = turns.close(first);
    if all {
        Ok(counter.count)
    } else {
        Err(Stop::NoMemory)
    }
}
