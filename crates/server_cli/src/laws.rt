//! Laws of the top call, each the contract of a function that does nothing.

ghost use Rattle.server_cli.specs.Laws.{StoreFaultsAreCounted};

/// Where the disks count no fault in a call of a server, none of its steps is answered by a fault of the
/// store.
pub fn store_faults_are_counted()
    ensures { StoreFaultsAreCounted }
{}
