//! A thread's part in a lock.

ghost use Rattle.std.specs.Prelude.{◌≡◌, ◌==◌, true, length, IsSome};
ghost use Rattle.turn_lock.specs.Rests.{rests, carried};

use crate::standing::Standing;
use crate::view::View;
use atomic_table::Seat;

/// A pass of a lock, with a caller number of its own. It takes turns, one after the other. It may
/// go to another thread, where the value may. A lock whose pass is lost can't be closed.
#[derive(Drop)]
pub struct Pass<V: Standing> {
    pub(crate) seat: Seat<Option<V>, View<V::Entry, V::Start>>,
    pub(crate) caller: u32,
    pub(crate) splits: u32,
    pub(crate) joins: u32,
    pub ghost at_rest: { rests seat.me.0.stage ≡ true },
    pub ghost carries: { seat.me.1 ≡ carried seat.me.0.stage },
    pub ghost caller_told: { seat.me.0.past.caller ≡ caller },
    pub ghost splits_told: { seat.me.0.splits ≡ splits },
    pub ghost joins_told: { length seat.me.0.joined ≡ joins },
    pub ghost started: { IsSome seat.me.0.start },
}

impl<V: Standing> Pass<V> {
    ghost use Rattle.turn_lock.specs.Passes.{caller_of, splits_of, joins_of};

    /// The caller number of this pass. The first pass has 0.
    pub fn caller(&self) -> u32
        ensures { result ≡ caller_of self.now }
    {
        self.caller
    }

    /// How many passes were split off this one.
    pub fn splits(&self) -> u32
        ensures { result ≡ splits_of self.now }
    {
        self.splits
    }

    /// Whether as many passes have joined this one as were split off it.
    pub fn has_all_joined(&self) -> bool
        ensures { result ≡ (joins_of self.now == splits_of self.now) }
    {
        self.joins == self.splits
    }
}
