//! Laws on what stores open to, each the contract of a function that does nothing.

ghost use Rattle.engine.specs.Laws.{
  AcceptedStepsAreKept,
  StoresBreakAtOnePlace,
  StoresOpen,
  StoresOpenOneWay,
};

/// The bytes of a store open to one state, and are neither foreign nor broken then; and they are broken
/// at one place.
pub fn stores_open_one_way()
    ensures one_state { StoresOpenOneWay }
    ensures opens { StoresOpen }
    ensures one_place { StoresBreakAtOnePlace }
{}

/// What is kept for a history opens, behind an accepted writing step, to what that step made.
pub fn accepted_steps_are_kept()
    ensures { AcceptedStepsAreKept }
{}
