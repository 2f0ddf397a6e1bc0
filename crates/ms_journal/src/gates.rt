//! The two halves of an append, and taking a doubtful gate back.

ghost use Rattle.std.specs.Prelude.{◌≡◌, ◌<◌, ◌≤◌, ◌+◌, ◌++◌, ◌^◌, ◌∷◌, [], List, ℕ, length, IfSome, OnOk, IsErrOf};
ghost use Rattle.hms_outside.specs.Causes.{Rose};
ghost use Rattle.hms_outside.specs.Disks.{Went};
ghost use Rattle.ms_journal.specs.Books.{IsClosed, IsDoubtful, ShutAt, EitherAt, Staged, Opened, Withdrawn};

use crate::format::{GATE_OPEN, GATE_SHUT};
use hms_outside::{Disk, Outage};

/// Writes a block and a closed gate behind the gate at the log's end.
pub fn stage<D: Disk>(disk: &mut D, gate: u64, bytes: &[u8]) -> Result<(), Outage>
    requires room { gate + 1 < 2 ^ 64 }
    requires end { IfSome (D.lies disk.old) (λ d. gate + 1 ≤ length d.held) }
    ensures went { (before block : List ℕ) → IfSome (D.lies disk.old) (IsClosed before) → gate ≡ length before → bytes.now ≡ block ++ 0 ∷ []
        → Went (D.past disk.old) (D.past disk.new) (D.lies disk.new) (Staged before block result) (ShutAt before) }
    ensures fits { OnOk result (gate + 1 + length bytes.now < 2 ^ 64) }
    ensures later { D.faults disk.old ≤ D.faults disk.new }
    ensures cause { IsErrOf result Outage.Failed → Rose (D.faults disk.old) (D.faults disk.new) }
{
    disk.write_at(gate + 1, bytes)?;
    disk.sync()
}

/// Opens the gate before a block that was staged.
pub fn open_gate<D: Disk>(disk: &mut D, gate: u64) -> Result<(), Outage>
    requires end { IfSome (D.lies disk.old) (λ d. gate ≤ length d.held) }
    ensures went { (before block : List ℕ) → IfSome (D.lies disk.old) (IsDoubtful before block) → gate ≡ length before
        → Went (D.past disk.old) (D.past disk.new) (D.lies disk.new) (Opened before block result) (EitherAt before block) }
    ensures later { D.faults disk.old ≤ D.faults disk.new }
    ensures cause { IsErrOf result Outage.Failed → Rose (D.faults disk.old) (D.faults disk.new) }
{
    disk.write_at(gate, &[GATE_OPEN])?;
    disk.sync()
}

/// Closes a doubtful gate.
pub fn close_gate<D: Disk>(disk: &mut D, gate: u64) -> Result<(), Outage>
    requires end { IfSome (D.lies disk.old) (λ d. gate ≤ length d.held) }
    ensures went { (before block : List ℕ) → IfSome (D.lies disk.old) (IsDoubtful before block) → gate ≡ length before
        → Went (D.past disk.old) (D.past disk.new) (D.lies disk.new) (Withdrawn before block result) (EitherAt before block) }
    ensures later { D.faults disk.old ≤ D.faults disk.new }
    ensures cause { IsErrOf result Outage.Failed → Rose (D.faults disk.old) (D.faults disk.new) }
{
    disk.write_at(gate, &[GATE_SHUT])?;
    disk.sync()
}
