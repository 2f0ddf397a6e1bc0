//! A place from which one caller takes steps.

ghost use Rattle.std.specs.Prelude.{◌≡◌, ◌++◌, ◌∷◌, [], Bool, IsTrue, List, ℕ};
ghost use Rattle.desk.specs.Entries.{Others};
ghost use Rattle.desk.specs.History.{Entry, Legal, NoneAbove, Start};

use cat_types::{Answer, Step};

/// One caller's place at a store, which stands for the history that this caller has seen.
pub trait Desk {
    /// The start of the history.
    ghost start: { Self → Start };

    /// The history that was seen so far.
    ghost history: { Self → List Entry };

    /// The store's fault number, as it was seen last.
    ghost faults: { Self → ℕ };

    /// The number of this caller.
    ghost caller: { Self → ℕ };

    /// Whether such a caller is alone, so that nobody else's entries come.
    ghost alone: { Bool };

    /// Takes a step. The history gains entries of other callers, and then this caller's own. No fault
    /// number in it is above the store's.
    fn step(&mut self, s: Step) -> Answer
        ensures same { caller self.new ≡ caller self.old }
        ensures start { start self.new ≡ start self.old }
        ensures turns { (between : List Entry) × Others (caller self.old) between
            × (history self.new ≡ (history self.old ++ between) ++ (record { caller = caller self.old; step = s }, record { answer = result; fault = faults self.new }) ∷ []) }
        ensures sole { IsTrue alone → history self.new ≡ history self.old ++ (record { caller = caller self.old; step = s }, record { answer = result; fault = faults self.new }) ∷ [] }
        ensures legal { Legal (start self.new) (history self.new) }
        ensures counted { NoneAbove (faults self.new) (history self.new) };
}
