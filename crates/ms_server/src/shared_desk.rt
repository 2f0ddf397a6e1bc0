//! A desk at a store that others share.

ghost use Rattle.std.specs.Prelude.{◌≡◌, ◌%◌, ◌^◌, [], false, length};
ghost use Rattle.turn_lock.specs.Passes.{caller_of, lock_of, seen_of, calls_of, start_of, is_out, IsPassOf, IsSamePass, HasSameJoins};
ghost use Rattle.desk.specs.History.{Legal};
ghost use Rattle.ms_server.specs.Turns.{TakesTurn, last_fault};

use crate::gate::Gate;
use crate::held::Held;
use crate::room::Room;
use cat_types::{Answer, Step};
use desk::{Core, Desk};
use std::marker::PhantomData;
use std::sync::Wait;
use turn_lock::{Pass, Standing, Turns};

/// One caller's desk at a store that others share. It has a pass of the lock, and counts its steps.
#[derive(Drop)]
pub struct SharedDesk<'a, R, G, C: Core, B: Room>
where
    Held<C>: Standing,
{
    rt: &'a R,
    turns: &'a Turns<Held<C>>,
    gate: &'a G,
    worker: u32,
    done: u64,
    pass: Pass<Held<C>>,
    room: PhantomData<B>,
    ghost lock: { turns.now.table.shared.table_id ≡ B.table },
    ghost here: { lock_of pass ≡ B.table },
    ghost inside: { is_out pass ≡ false },
    ghost counted: { done ≡ length (calls_of pass) % 2 ^ 64 },
}

// One turn of the store under the lock.
fn take_turn<R: Wait, C: Core>(
    rt: &R,
    turns: &Turns<Held<C>>,
    pass: &mut Pass<Held<C>>,
    s: Step,
) -> Answer
    requires here { IsPassOf turns.now pass.old }
    requires inside { is_out pass.old ≡ false }
    ensures same { IsSamePass pass.old pass.new }
    ensures joins { HasSameJoins pass.old pass.new }
    ensures inside { is_out pass.new ≡ false }
    ensures turn { TakesTurn (caller_of pass.old) s result (seen_of pass.old) (calls_of pass.old) (seen_of pass.new) (calls_of pass.new) }
    ensures legal { Legal (start_of pass.new) (seen_of pass.new) }
{
    let mut turn = turns.enter(rt, pass);
    let answer = turn.value().turn(pass.caller(), s);
    turns.leave(pass, turn);
    answer
}

impl<'a, R, G, C: Core, B: Room> SharedDesk<'a, R, G, C, B> {
    /// A desk that takes its turns by this pass, which has no turn out and has made no entry.
    pub fn new(
        rt: &'a R,
        turns: &'a Turns<Held<C>>,
        gate: &'a G,
        worker: u32,
        pass: Pass<Held<C>>,
    ) -> SharedDesk<'a, R, G, C, B>
        requires lock { turns.now.table.shared.table_id ≡ B.table }
        requires here { lock_of pass ≡ B.table }
        requires inside { is_out pass ≡ false }
        requires fresh { calls_of pass ≡ [] }
        ensures pass { result.pass ≡ pass }
    {
        SharedDesk {
            rt,
            turns,
            gate,
            worker,
            done: 0,
            pass,
            room: PhantomData,
        }
    }

    /// How many steps it took, modulo 2^64.
    pub fn done(&self) -> u64
        ensures { result ≡ length (calls_of self.now.pass) % 2 ^ 64 }
    {
        self.done
    }

    /// Gives the pass back, which has no turn out.
    pub fn into_pass(self) -> Pass<Held<C>>
        ensures pass { result ≡ self.entry.pass }
        ensures here { lock_of result ≡ B.table }
        ensures inside { is_out result ≡ false }
    {
        let SharedDesk {
            rt: _,
            turns: _,
            gate: _,
            worker: _,
            done: _,
            pass,
            room: _,
        } = self;
        pass
    }
}

impl<'a, R: Wait, G: Gate, C: Core, B: Room> Desk for SharedDesk<'a, R, G, C, B> {
    ghost start = { λ d. start_of d.pass };

    ghost history = { λ d. seen_of d.pass };

    ghost faults = { λ d. last_fault (start_of d.pass).fault (seen_of d.pass) };

    ghost caller = { λ d. caller_of d.pass };

    ghost alone = { false };

    fn step(&mut self, s: Step) -> Answer {
        let answer = take_turn(self.rt, self.turns, &mut self.pass, s);
        self.done = self.done.wrapping_add(1);
        self.gate.pass(self.worker, self.done);
        answer
    }
}
