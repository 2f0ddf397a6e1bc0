//! The lock.

ghost use Rattle.std.specs.Prelude.{◌≡◌, ◌≢◌, ◌≤◌, ◌<◌, ◌+◌, ◌++◌, ◌∷◌, [], All, AllPairs, true, false, ℕ, IfOk, IfErr, Some, None};

use crate::bells::Bells;
use crate::pass::Pass;
use crate::rule::{Both, Count, Draw, Halves, Law, Look, Publish, Settle};
use crate::standing::Standing;
use crate::turn::Turn;
use crate::view::View;
use atomic_table::{Refused, Seat, Table};
use std::alloc::{AllocFailed, Global};
use std::snapshot::Snapshot;
use std::sync::Wait;

// The word that counts the turn numbers drawn, the word that counts those served, and the value's slot.
const DRAWN: usize = 0;

const SERVED: usize = 1;

const VALUE: usize = 0;

/// A lock round a value. Each call with a pass needs a pass of this lock. It ends by `close` alone,
/// which gives the value back. Turns come in the order in which their numbers were drawn.
pub struct Turns<V: Standing> {
    pub(crate) table: Table<Option<V>, View<V::Entry, V::Start>, Snapshot<V>, Law<V>, Global>,
    bells: Bells,
    ghost words: { table.shared.table_id.words ≡ 2 },
    ghost slots: { table.shared.table_id.slots ≡ 1 },
}

impl<V: Standing> Turns<V> {
    ghost use Rattle.turn_lock.specs.Histories.{own, Fits};
    ghost use Rattle.turn_lock.specs.Passes.{caller_of, past_of, seen_of, calls_of, start_of, splits_of, joins_of, joined_of, is_out, value_of, IsFirst, IsPassOf, IsSamePass, HasSameJoins, IsNewcomer};
    ghost use Rattle.turn_lock.specs.Steps.{holding};
    ghost use Rattle.turn_lock.specs.declared.view.Past.{Past};
    ghost use Rattle.turn_lock.specs.declared.view.Stage.TheVariants.{Idle};

    /// A lock round a value that stands for the empty list from its start, and the first pass, which has
    /// caller number 0. Hands the value back for want of memory.
    pub fn new(alloc: Global, value: V) -> Result<(Turns<V>, Pass<V>), V>
        requires fresh { V.history value ≡ [] }
        ensures first { IfOk result (λ r. IsPassOf r.0 r.1 × IsFirst r.1) }
        ensures start { IfOk result (λ r. start_of r.1 ≡ V.start value) }
        ensures newcomer { IfOk result (λ r. IsNewcomer 0 [] r.1) }
        ensures err { IfErr result (λ v. v ≡ value) }
    {
        let Ok(bells) = Bells::hang(alloc) else {
            return Err(value);
        };
        let about = Snapshot::of(&value);
        let mut slots = Vec::new(alloc);
        if let Err(failed) = slots.push(Some(value)) {
            let AllocFailed { value } = failed;
            slots.destroy_empty();
            return Err(value.unwrap());
        }
        match Table::new(alloc, &[0, 0], slots, &about) {
            Ok((table, seat)) => Ok((
                Turns { table, bells },
                Pass {
                    seat,
                    caller: 0,
                    splits: 0,
                    joins: 0,
                },
            )),
            Err(refused) => {
                let Refused { mut slots } = refused;
                let value = slots.pop().unwrap();
                slots.destroy_empty();
                Err(value.unwrap())
            }
        }
    }

    /// Waits for the turn of a pass that has no turn out. The value stands for a list that the pass fits,
    /// which begins with all that the pass had seen; it has seen the whole list now.
    pub fn enter<R: Wait>(&self, rt: &R, pass: &mut Pass<V>) -> Turn<V>
        requires here { IsPassOf self.now pass.old }
        requires inside { is_out pass.old ≡ false }
        ensures same { IsSamePass pass.old pass.new }
        ensures joins { HasSameJoins pass.old pass.new }
        ensures out { is_out pass.new ≡ true }
        ensures history { V.history (value_of result) ≡ seen_of pass.new }
        ensures start { V.start (value_of result) ≡ start_of pass.old }
        ensures fits { Fits V.caller_of (seen_of pass.new) (past_of pass.old) }
        ensures calls { calls_of pass.new ≡ calls_of pass.old }
    {
        let value = self.take(rt, &mut pass.seat);
        Turn { value }
    }

    // Draws a number, waits until it is served, and takes the value.
    fn take<R: Wait>(&self, rt: &R, seat: &mut Seat<Option<V>, View<V::Entry, V::Start>>) -> V
        requires here { seat.old.table_id ≡ self.now.table.shared.table_id }
        requires idle { (seat.old.me.0.stage ≡ Idle) × (seat.old.me.1 ≡ []) }
        ensures same { (seat.new.table_id ≡ seat.old.table_id) × (seat.new.id ≡ seat.old.id) }
        ensures start { Some (V.start result) ≡ seat.old.me.0.start }
        ensures fits { Fits V.caller_of (V.history result) seat.old.me.0.past }
        ensures taken { (n : ℕ) × (seat.new.me ≡ (holding seat.old.me.0 n (V.history result), (0, None) ∷ [])) }
    {
        let table = &self.table.shared;
        let ticket = table.fetch_add::<Draw>(seat, DRAWN, 1);
        let mut looks = 0;
        for _ in rt.forever() {
            let heard = self.bells.heard(ticket);
            if table.load::<Look<V>>(seat, SERVED) == ticket {
                return table.exchange(seat, VALUE, None).unwrap();
            }
            looks = self.bells.wait(rt, ticket, heard, looks);
        }
        unreachable!()
    }

    /// Ends the turn that the pass entered. The value stands for the list that was entered, with one
    /// entry more of this caller. The pass has seen that list now.
    pub fn leave(&self, pass: &mut Pass<V>, turn: Turn<V>)
        requires here { IsPassOf self.now pass.old }
        requires out { is_out pass.old ≡ true }
        requires start { V.start (value_of turn) ≡ start_of pass.old }
        requires entry { (e : V.Entry) × (V.caller_of e ≡ caller_of pass.old) × (V.history (value_of turn) ≡ seen_of pass.old ++ e ∷ []) }
        ensures same { IsSamePass pass.old pass.new }
        ensures joins { HasSameJoins pass.old pass.new }
        ensures inside { is_out pass.new ≡ false }
        ensures seen { seen_of pass.new ≡ V.history (value_of turn) }
        ensures calls { (e : V.Entry) × (V.caller_of e ≡ caller_of pass.old) × (V.history (value_of turn) ≡ seen_of pass.old ++ e ∷ []) × (calls_of pass.new ≡ calls_of pass.old ++ e ∷ []) }
    {
        let Turn { value } = turn;
        let table = &self.table.shared;
        let nothing = table.exchange(&mut pass.seat, VALUE, Some(value));
        let None = nothing else { unreachable!() };
        table.load::<Settle<V>>(&mut pass.seat, SERVED);
        let served = table.fetch_add::<Publish>(&mut pass.seat, SERVED, 1);
        self.bells.ring(served.wrapping_add(1));
    }

    /// A new pass with a caller number of its own, which has seen what the first pass has seen.
    pub fn split(&self, pass: &mut Pass<V>) -> Pass<V>
        requires here { IsPassOf self.now pass.old }
        requires first { IsFirst pass.old }
        requires inside { is_out pass.old ≡ false }
        requires few { splits_of pass.old < 4294967294 }
        ensures same { IsSamePass pass.old pass.new }
        ensures past { past_of pass.new ≡ past_of pass.old }
        ensures inside { is_out pass.new ≡ false }
        ensures counts { (splits_of pass.new ≡ splits_of pass.old + 1) × (joins_of pass.new ≡ joins_of pass.old) × (joined_of pass.new ≡ joined_of pass.old) }
        ensures here { IsPassOf self.now result }
        ensures start { start_of result ≡ start_of pass.old }
        ensures newcomer { IsNewcomer (splits_of pass.old + 1) (seen_of pass.old) result }
    {
        let seat = self.table.shared.split_seat::<Halves>(&mut pass.seat);
        pass.splits += 1;
        Pass {
            seat,
            caller: pass.splits,
            splits: 0,
            joins: 0,
        }
    }

    /// The first pass takes in another one, and keeps what that one has seen and its entries.
    pub fn join(&self, pass: &mut Pass<V>, other: Pass<V>)
        requires here { IsPassOf self.now pass.old × IsPassOf self.now other }
        requires first { IsFirst pass.old }
        requires inside { (is_out pass.old ≡ false) × (is_out other ≡ false) }
        ensures same { IsSamePass pass.old pass.new }
        ensures past { past_of pass.new ≡ past_of pass.old }
        ensures inside { is_out pass.new ≡ false }
        ensures counts { (splits_of pass.new ≡ splits_of pass.old) × (joins_of pass.new ≡ joins_of pass.old + 1) }
        ensures joined { joined_of pass.new ≡ joined_of pass.old ++ past_of other ∷ [] }
    {
        let Pass {
            seat,
            caller: _,
            splits: _,
            joins: _,
        } = other;
        self.table.shared.join_seat::<Both>(&mut pass.seat, seat);
        self.table.shared.load::<Count>(&mut pass.seat, SERVED);
        pass.joins += 1;
    }

    /// Ends the lock once each pass that was split off was joined, and gives the value. The first pass and
    /// each joined one fit its list, no two of them have one caller number, and nobody else has an entry.
    pub fn close(self, pass: Pass<V>) -> V
        requires here { IsPassOf self pass }
        requires first { IsFirst pass }
        requires inside { is_out pass ≡ false }
        requires all { joins_of pass ≡ splits_of pass }
        ensures start { V.start result ≡ start_of pass }
        ensures fits { All (Fits V.caller_of (V.history result)) (past_of pass ∷ joined_of pass) }
        ensures apart { AllPairs (λ (p q : Past V.Entry). p.caller ≢ q.caller) (past_of pass ∷ joined_of pass) }
        ensures known { All (λ (p : Past V.Entry). p.caller ≤ splits_of pass) (past_of pass ∷ joined_of pass) }
        ensures nobody { (caller : ℕ) → splits_of pass < caller → own V.caller_of caller (V.history result) ≡ [] }
    {
        let Turns { table, bells: _ } = self;
        let Pass {
            seat,
            caller: _,
            splits: _,
            joins: _,
        } = pass;
        let mut closed = table.close_with(seat);
        let value = closed.take(VALUE);
        closed.free();
        value.unwrap()
    }
}
