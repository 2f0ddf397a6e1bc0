//! Laws of dumps, each the contract of a function that does nothing.

ghost use Rattle.repl_dump.specs.Laws.{DumpsStayOpen};

/// No step of a dump is answered that no dump is open, however the dump ends.
pub fn dumps_stay_open()
    ensures { DumpsStayOpen }
{}
