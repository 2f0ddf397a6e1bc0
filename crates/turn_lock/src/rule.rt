//! What the table under the lock keeps, and what each of its steps tells.

use crate::standing::Standing;
use crate::view::View;
use atomic_table::{Join, Play, Split, TableRule};
use std::marker::PhantomData;
use std::snapshot::Snapshot;

/// The rule of the lock. The key is the value that the lock was made with.
pub struct Law<V> {
    of: PhantomData<V>,
}

impl<V: Standing> TableRule<Option<V>, View<V::Entry, V::Start>, Snapshot<V>> for Law<V> {
    ghost use Rattle.std.specs.Prelude.{[], Some};
    ghost use Rattle.turn_lock.specs.Lock.{Kept, HasHistory};
    ghost use Rattle.turn_lock.specs.Steps.{newcomer};

    ghost holds = { λ key. Kept V.caller_of (HasHistory V.history V.start) (Some (V.start key.value)) };

    ghost first = { λ key. newcomer (Some (V.start key.value)) 0 [] };
}

/// A turn number is drawn.
pub(crate) struct Draw;

impl<S, E, B> Play<S, View<E, B>> for Draw {
    ghost use Rattle.turn_lock.specs.Steps.{Drew};

    ghost then = { Drew };
}

/// The number that is served is looked at, and where it is this pass's, the value is taken.
pub(crate) struct Look<V> {
    of: PhantomData<V>,
}

impl<V: Standing> Play<Option<V>, View<V::Entry, V::Start>> for Look<V> {
    ghost use Rattle.turn_lock.specs.Lock.{HasHistory};
    ghost use Rattle.turn_lock.specs.Steps.{Looked};

    ghost then = { Looked V.caller_of (HasHistory V.history V.start) };
}

/// The value is given back, with an entry that is not published yet.
pub(crate) struct Settle<V> {
    of: PhantomData<V>,
}

impl<V: Standing> Play<Option<V>, View<V::Entry, V::Start>> for Settle<V> {
    ghost use Rattle.turn_lock.specs.Lock.{HasHistory};
    ghost use Rattle.turn_lock.specs.Steps.{Settled};

    ghost then = { Settled V.caller_of (HasHistory V.history V.start) };
}

/// The entry is published.
pub(crate) struct Publish;

impl<S, E, B> Play<S, View<E, B>> for Publish {
    ghost use Rattle.turn_lock.specs.Steps.{Published};

    ghost then = { Published };
}

/// The first pass learns that it has no more joins than splits.
pub(crate) struct Count;

impl<S, E, B> Play<S, View<E, B>> for Count {
    ghost use Rattle.turn_lock.specs.Steps.{Counted};

    ghost then = { Counted };
}

/// A new pass is split off the first one.
pub(crate) struct Halves;

impl<E, B> Split<View<E, B>> for Halves {
    ghost use Rattle.turn_lock.specs.Steps.{one_more, newcomer_of};

    ghost left = { one_more };

    ghost right = { newcomer_of };
}

/// The first pass takes in another one.
pub(crate) struct Both;

impl<E, B> Join<View<E, B>> for Both {
    ghost use Rattle.turn_lock.specs.Steps.{with_pass, spent};

    ghost both = { with_pass };

    ghost spent = { spent };
}
