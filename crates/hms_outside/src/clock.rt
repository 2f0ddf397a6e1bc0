//! What time it is.

ghost use Rattle.std.specs.Prelude.{◌≤◌, List, ℕ};
ghost use Rattle.std.specs.declared.option.Option.{Option};
ghost use Rattle.hms_outside.specs.Clocks.{Ticks};

/// A clock, which may tell the moments that it will answer.
pub trait Clock {
    /// The moments to come, where they are known.
    ghost moments: { Self → Option (List ℕ) };

    /// How often it could not be read.
    ghost faults: { Self → ℕ };

    /// The moment, in seconds since 1970. It never fails.
    fn now(&mut self) -> u64
        ensures moment { Ticks (moments self.old) (moments self.new) result }
        ensures later { faults self.old ≤ faults self.new };
}
