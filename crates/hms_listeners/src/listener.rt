//! Where connections come from.

ghost use Rattle.std.specs.Prelude.{◌≡◌, ◌<◌, ◌+◌, ℕ, List, IfOk, MatchResult};
ghost use Rattle.std.specs.declared.option.Option.{Option};
ghost use Rattle.hms_outside.specs.Causes.{HasCause};
ghost use Rattle.hms_outside.specs.Told.{Goes};
ghost use Rattle.hms_listeners.specs.Listening.{Appended, HandsOut, HoldsNothing, Returned, as_returned};

use hms_outside::{Outage, Sink, Source};

/// Hands out connections, each a source and a sink, and takes each back after its session. It may tell
/// the inputs that are left, and the connections that it took back.
pub trait Listener {
    /// Where a connection's input comes from.
    type Rx: Source;

    /// Where a connection's output goes.
    type Tx: Sink;

    /// The inputs of the connections to come, where they are known.
    ghost inputs: { Self → Option (List (List ℕ)) };

    /// The connections that it took back, the oldest first, where they are known.
    ghost returned: { Self → Option (List Returned) };

    /// How many of the connections that it handed out weren't given back yet.
    ghost out: { Self → ℕ };

    /// How often it has failed.
    ghost faults: { Self → ℕ };

    /// Hands out the next connection, whose input is the first that was left. Nothing was read of it
    /// and nothing written. It makes the room for taking the connection back. A refusal leaves the
    /// inputs.
    fn accept(&mut self) -> Result<(Self::Rx, Self::Tx), Outage>
        ensures inputs { MatchResult result (λ c. HandsOut (inputs self.old) (inputs self.new) (Self.Rx.left c.0)) (λ _. inputs self.new ≡ inputs self.old) }
        ensures source { IfOk result (λ c. Self.Rx.faults c.0 ≡ 0) }
        ensures sink { IfOk result (λ c. (Self.Tx.faults c.1 ≡ 0) × HoldsNothing (Self.Tx.held c.1)) }
        ensures returned { returned self.new ≡ returned self.old }
        ensures out { MatchResult result (λ _. out self.new ≡ out self.old + 1) (λ _. out self.new ≡ out self.old) }
        ensures cause { HasCause (faults self.old) (faults self.new) result };

    /// Takes a connection back after its session. It takes no memory.
    fn hand_back(&mut self, rx: Self::Rx, tx: Self::Tx)
        requires { 0 < out self.old }
        ensures returned { Goes (Appended (as_returned (Self.Tx.held tx) (Self.Rx.faults rx) (Self.Tx.faults tx))) (returned self.old) (returned self.new) }
        ensures inputs { inputs self.new ≡ inputs self.old }
        ensures out { out self.old ≡ out self.new + 1 }
        ensures faults { faults self.new ≡ faults self.old };
}
