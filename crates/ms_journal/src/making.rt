//! Making a journal.

ghost use Rattle.std.specs.Prelude.{◌≡◌, ◌<◌, ◌≤◌, ◌++◌, ◌∷◌, ◌^◌, [], length, take, IfOk, IfErr, IfSome, IsErrOf, OnOk};
ghost use Rattle.hms_outside.specs.Causes.{Rose};
ghost use Rattle.ms_journal.specs.Books.{IsClosed};
ghost use Rattle.ms_journal.specs.Files.{head_of};
ghost use Rattle.ms_journal.specs.Faults.{IsMakingFault};

use crate::OpenFault;
use crate::format::{GATE_SHUT, GENERATION, HEAD_LENGTH, SIGNATURE};
use cat_values::NoMemory;
use hms_outside::Disk;
use std::alloc::Global;

/// The head of a new store, and a closed gate.
fn first_bytes(alloc: Global, id: &[u8], base: u64) -> Result<Vec<u8>, NoMemory>
    ensures { IfOk result (λ bytes. bytes.items ≡ head_of id.now base ++ 0 ∷ []) }
{
    let mut bytes = Vec::with_capacity(alloc, HEAD_LENGTH + 1)?;
    bytes.extend_from_slice(&SIGNATURE)?;
    bytes.extend_from_slice(id)?;
    bytes.extend_from_slice(&GENERATION.to_be_bytes())?;
    bytes.extend_from_slice(&base.to_be_bytes())?;
    bytes.push(GATE_SHUT)?;
    Ok(bytes)
}

/// The first forty bytes.
pub fn head_in(bytes: &[u8]) -> [u8; HEAD_LENGTH]
    requires { 40 ≤ length bytes.now }
    ensures { result ≡ take 40 bytes.now }
{
    let front = &bytes[..HEAD_LENGTH];
    let mut head = [0; HEAD_LENGTH];
    head.copy_from_slice(front);
    head
}

/// Writes the head of a new store on a disk that has no bytes.
pub fn begin<D: Disk>(
    alloc: Global,
    disk: &mut D,
    id: &[u8],
    base: u64,
) -> Result<[u8; HEAD_LENGTH], OpenFault>
    requires { length id.now ≡ 16 }
    ensures head { IfOk result (λ head. head ≡ head_of id.now base) }
    ensures empty { OnOk result (IfSome (D.lies disk.old) (λ d. d.held ≡ [])) }
    ensures closed { OnOk result (IfSome (D.lies disk.new) (IsClosed (head_of id.now base))) }
    ensures kind { IfErr result IsMakingFault }
    ensures not_empty { IsErrOf result OpenFault.NotEmpty → IfSome (D.lies disk.old) (λ d. 0 < length d.held) }
    ensures same { IsErrOf result OpenFault.NotEmpty → D.lies disk.new ≡ D.lies disk.old }
    ensures later { D.faults disk.old ≤ D.faults disk.new }
    ensures cause { IsErrOf result OpenFault.DiskFault → Rose (D.faults disk.old) (D.faults disk.new) }
{
    if disk.len()? != 0 {
        return Err(OpenFault::NotEmpty);
    }
    let bytes = first_bytes(alloc, id, base)?;
    disk.write_at(0, &bytes)?;
    disk.sync()?;
    Ok(head_in(&bytes))
}
