//! Turns of one pass, one after the other.

ghost use Rattle.std.specs.Prelude.{◌≡◌, ◌+◌, ◌++◌, ◌∷◌, [], ℕ, false};
ghost use Rattle.turn_lock.specs.Passes.{caller_of, seen_of, calls_of, is_out, IsPassOf, IsSamePass, HasSameJoins};
ghost use Rattle.turn_lock.specs.Histories.{own, Begins};
ghost use Rattle.turn_lock_tests.specs.Calls.{first_calls, AddsOne};

use std::sync::Wait;
use turn_lock::{Pass, Standing, Turns};

/// A value that does its work with one entry, which is told by the caller and the caller's own
/// number for the call.
pub trait Works: Standing {
    ghost use Rattle.std.specs.Prelude.{◌≡◌, ◌++◌, ◌∷◌, [], ℕ};

    /// The entry of a call.
    ghost entry: { ℕ → ℕ → Self.Entry };

    /// Does the work of one call.
    fn work(&mut self, caller: u32, number: u32)
        ensures entry { Self.history self.new ≡ Self.history self.old ++ entry caller number ∷ [] }
        ensures start { Self.start self.new ≡ Self.start self.old };

    /// The entry of a call is its caller's.
    ghost by_caller: { (caller number : ℕ) → Self.Standing.caller_of (entry caller number) ≡ caller };
}

/// One turn. Entries of others were seen, and then this pass's one.
pub fn step<V: Works, R: Wait>(turns: &Turns<V>, rt: &R, pass: &mut Pass<V>, number: u32)
    requires here { IsPassOf turns.now pass.old }
    requires inside { is_out pass.old ≡ false }
    ensures same { IsSamePass pass.old pass.new }
    ensures joins { HasSameJoins pass.old pass.new }
    ensures inside { is_out pass.new ≡ false }
    ensures turn { AddsOne V.caller_of (caller_of pass.old) (V.entry (caller_of pass.old) number) (seen_of pass.old) (seen_of pass.new) }
    ensures calls { calls_of pass.new ≡ calls_of pass.old ++ V.entry (caller_of pass.old) number ∷ [] }
{
    let mut turn = turns.enter(rt, pass);
    turn.value().work(pass.caller(), number);
    turns.leave(pass, turn);
}

/// As many turns as `count`, numbered from 0.
pub fn steps<V: Works, R: Wait>(turns: &Turns<V>, rt: &R, pass: &mut Pass<V>, count: u32)
    requires here { IsPassOf turns.now pass.old }
    requires inside { is_out pass.old ≡ false }
    ensures same { IsSamePass pass.old pass.new }
    ensures joins { HasSameJoins pass.old pass.new }
    ensures inside { is_out pass.new ≡ false }
    ensures seen { Begins (seen_of pass.old) (seen_of pass.new) }
    ensures calls { calls_of pass.new ≡ calls_of pass.old ++ first_calls (V.entry (caller_of pass.old)) count }
{
    for number in 0..count {
        step(turns, rt, pass, number);
    }
}
