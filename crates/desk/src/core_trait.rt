//! A store that takes the steps of all callers.

ghost use Rattle.std.specs.Prelude.{◌≡◌, ◌++◌, ◌∷◌, [], List, ℕ};
ghost use Rattle.desk.specs.History.{Entry, Legal, NoneAbove, Start};

use cat_types::{Answer, Step};

/// A store, which stands for a history from a start: a state and the fault number at the opening, and
/// what its disk had gone through by then.
pub trait Core {
    /// The start of its history.
    ghost start: { Self → Start };

    /// Its history so far.
    ghost history: { Self → List Entry };

    /// Its fault number.
    ghost faults: { Self → ℕ };

    /// Takes a caller's step. The history gains one entry, and is legal. No fault number in it is
    /// above the store's own.
    fn turn(&mut self, caller: u32, s: Step) -> Answer
        ensures start { start self.new ≡ start self.old }
        ensures entry { history self.new ≡ history self.old ++ (record { caller = caller; step = s }, record { answer = result; fault = faults self.new }) ∷ [] }
        ensures legal { Legal (start self.new) (history self.new) }
        ensures counted { NoneAbove (faults self.new) (history self.new) };
}
