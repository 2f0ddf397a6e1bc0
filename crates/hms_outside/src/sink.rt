//! Where bytes go.

ghost use Rattle.std.specs.Prelude.{◌<◌, ◌≤◌, ℕ, length, IfOk};
ghost use Rattle.std.specs.declared.option.Option.{Option};
ghost use Rattle.hms_outside.specs.Causes.{HasCause};
ghost use Rattle.hms_outside.specs.Told.{Held, Writes, Flushes};

use crate::Outage;

/// A sink of bytes, which may tell what it holds.
pub trait Sink {
    /// The bytes and the flushes, where they are known.
    ghost held: { Self → Option Held };

    /// How often it has failed.
    ghost faults: { Self → ℕ };

    /// Appends at least one byte from the front of `bytes`, and answers how many. An `Err` leaves
    /// what is held.
    fn write(&mut self, bytes: &[u8]) -> Result<usize, Outage>
        requires { 0 < length bytes.now }
        ensures some { IfOk result (λ n. 0 < n) }
        ensures bound { IfOk result (λ n. n ≤ length bytes.now) }
        ensures bytes { Writes (held self.old) (held self.new) result bytes.now }
        ensures cause { HasCause (faults self.old) (faults self.new) result };

    /// Hands on what was written so far.
    fn flush(&mut self) -> Result<(), Outage>
        ensures flushes { Flushes (held self.old) (held self.new) result }
        ensures cause { HasCause (faults self.old) (faults self.new) result };
}
