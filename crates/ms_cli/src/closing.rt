//! Closing a store.

ghost use Rattle.ms_cli.specs.Keeping.{seen};
ghost use Rattle.ms_cli.specs.Opened.{Closed};

use engine::Engine;
use hms_outside::Disk;

/// Closes a store, and gives its disks back.
pub fn close<D: Disk>(engine: Engine<D>) -> (D, D)
    ensures { Closed engine.start engine.history (seen D.lies D.past D.faults result.0) (seen D.lies D.past D.faults result.1) }
{
    engine.into_disks()
}
