//! Where bytes come from.

ghost use Rattle.std.specs.Prelude.{◌<◌, ◌≤◌, List, ℕ, length, IfOk};
ghost use Rattle.std.specs.Io.KnownBytes.{ReadConsumes};
ghost use Rattle.std.specs.declared.option.Option.{Option};
ghost use Rattle.hms_outside.specs.Causes.{HasCause};

use crate::Outage;

/// A source of bytes, which may tell what it has left.
pub trait Source {
    /// The bytes that reads will give, where they are known.
    ghost left: { Self → Option (List ℕ) };

    /// How often it has failed.
    ghost faults: { Self → ℕ };

    /// Takes bytes off the front, and answers how many. 0 means the end of the input. An `Err`
    /// leaves what is left.
    fn read(&mut self, buf: &mut [u8]) -> Result<usize, Outage>
        requires { 0 < length buf.old }
        ensures bound { IfOk result (λ n. n ≤ length buf.old) }
        ensures bytes { ReadConsumes (left self.old) (left self.new) result buf.new }
        ensures cause { HasCause (faults self.old) (faults self.new) result };
}
