//! Reading a disk that a crash may have left.

ghost use Rattle.std.specs.Prelude.{◌≡◌, true, ◌<◌, ◌≤◌, ◌^◌, List, ℕ, length, IfOk, IfErr, IfSome, IsErrOf, OnOk};
ghost use Rattle.hms_outside.specs.Causes.{Rose};
ghost use Rattle.hms_outside.specs.Disks.{HasSynced, Lay, Went};
ghost use Rattle.ms_journal.specs.Faults.{IsOpeningFault, IsOutage, RefusesOpening};
ghost use Rattle.ms_journal.specs.Found.{AsFound, HeldStays, LeavesAsFound};
ghost use Rattle.ms_journal.specs.Parsed.{IsRead, ReadsOn};

use crate::OpenFault;
use crate::reading::{Parsed, parse};
use hms_outside::Disk;
use std::alloc::Global;

/// How many bytes are read at once.
const PIECE: usize = 65_536;

/// So many zeros.
fn zeros(alloc: Global, count: usize) -> Result<Vec<u8>, OpenFault>
    ensures room { IfOk result (λ zeros. length zeros.items ≡ count) }
    ensures outage { IfErr result (λ fault. fault ≡ OpenFault.NoMemory) }
{
    Ok(vec![in alloc; 0; count]?)
}

/// Reads the bytes that follow those that were read, at most as many as the piece has room for.
/// False where there are none.
fn read_piece<D: Disk>(
    disk: &mut D,
    piece: &mut [u8],
    bytes: &mut Vec<u8>,
) -> Result<bool, OpenFault>
    requires { 0 < length piece.old }
    ensures lies { D.lies disk.new ≡ D.lies disk.old }
    ensures past { D.past disk.new ≡ D.past disk.old }
    ensures room { length piece.new ≡ length piece.old }
    ensures bytes { IfOk result (λ more. IfSome (D.lies disk.old) (λ d. ReadsOn more bytes.old.items bytes.new.items d.held)) }
    ensures grows { IfOk result (λ more. more ≡ true → length bytes.old.items < length bytes.new.items) }
    ensures outage { IfErr result IsOutage }
    ensures later { D.faults disk.old ≤ D.faults disk.new }
    ensures cause { IsErrOf result OpenFault.DiskFault → Rose (D.faults disk.old) (D.faults disk.new) }
{
    let filled = disk.read_at(bytes.len() as u64, piece)?;
    bytes.extend_from_slice(&piece[..filled])?;
    Ok(filled > 0)
}

/// All bytes of a disk, piece by piece: no length that the disk tells reserves memory.
fn read_all<D: Disk>(alloc: Global, disk: &mut D) -> Result<Vec<u8>, OpenFault>
    ensures lies { D.lies disk.new ≡ D.lies disk.old }
    ensures past { D.past disk.new ≡ D.past disk.old }
    ensures bytes { IfOk result (λ bytes. IfSome (D.lies disk.old) (λ d. bytes.items ≡ d.held)) }
    ensures outage { IfErr result IsOutage }
    ensures later { D.faults disk.old ≤ D.faults disk.new }
    ensures cause { IsErrOf result OpenFault.DiskFault → Rose (D.faults disk.old) (D.faults disk.new) }
{
    let mut piece = zeros(alloc, PIECE)?;
    let room = piece.as_mut_slice();
    let mut bytes = Vec::new(alloc);
    while read_piece(disk, room, &mut bytes)? {}
    Ok(bytes)
}

/// Syncs the disk and reads the journal that it holds.
#[tactic(auto, using(crate::proofs::Finding::found_held))]
pub fn read_log<D: Disk>(alloc: Global, disk: &mut D) -> Result<Parsed, OpenFault>
    ensures read { IfOk result (λ p. (c : List ℕ) × IsRead c p.head p.payloads p.log.items p.end × (length c < 2 ^ 64)
        × IfSome (D.lies disk.old) (λ d. c ≡ d.held)) }
    ensures synced { OnOk result (Lay HasSynced (D.lies disk.old) (D.lies disk.new)) }
    ensures held { Lay HeldStays (D.lies disk.old) (D.lies disk.new) }
    ensures kind { IfErr result IsOpeningFault }
    ensures refused { IfErr result (λ fault. IfSome (D.lies disk.old) (λ d. RefusesOpening fault d.held)) }
    ensures went { Went (D.past disk.old) (D.past disk.new) (D.lies disk.new) (LeavesAsFound (D.lies disk.old)) (AsFound (D.lies disk.old)) }
    ensures later { D.faults disk.old ≤ D.faults disk.new }
    ensures cause { IsErrOf result OpenFault.DiskFault → Rose (D.faults disk.old) (D.faults disk.new) }
{
    disk.sync()?;
    let bytes = read_all(alloc, disk)?;
    parse(alloc, &bytes)
}
