//! The value, while a turn lasts.

ghost use Rattle.std.specs.Prelude.{◌≡◌};
ghost use Rattle.std.specs.Borrow.{Lends, sem};

/// A turn, with the value. It ends by `Turns::leave` alone; until then all others wait.
pub struct Turn<V> {
    pub(crate) value: V,
}

impl<V> Turn<V> {
    ghost use Rattle.turn_lock.specs.contracts.turn.Turn.{the_row};

    /// Lends the value.
    pub fn value(&mut self) -> &mut V
        ensures* lends { sem 𝓛 (Lends (the_row V.row) V.row self.entry result (λ w. record { value = w })) }
        ensures value { result.now ≡ self.old.value }
    {
        &mut self.value
    }
}
