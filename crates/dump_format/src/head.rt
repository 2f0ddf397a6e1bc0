//! The manifest of a dump's folder.

ghost use Rattle.std.specs.Prelude.{◌≡◌, ◌≤◌, MatchResult, IfOk, IsErrOf};
ghost use Rattle.hms_outside.specs.Causes.{Rose};
ghost use Rattle.hms_outside.specs.Told.{Goes, Same};
ghost use Rattle.hms_outside.specs.declared.outage.Outage.TheVariants.{Failed};
ghost use Rattle.dump_format.specs.Dumps.{IsHead, IsHeadDamaged, IsHeadJudged, IsHeadTaken, manifest_name};
ghost use Rattle.dump_format.specs.Harms.{FaultIs};

use crate::files::path_of;
use crate::{Harm, ReadDumpFault};
use cat_types::{NoMemory, Text, TextFault};
use dump_manifest::{Manifest, ManifestFault, read_dir, read_manifest};
use hms_outside::{Folder, Outage};
use std::alloc::Global;

/// The manifest of the dump in this folder. Where no dump's folder has the name, the manifest
/// counts as absent.
pub fn read_head<F: Folder>(
    alloc: Global,
    folder: &mut F,
    dir: &str,
) -> Result<Manifest, ReadDumpFault>
    ensures same { Goes Same (F.files folder.old) (F.files folder.new) }
    ensures later { F.faults folder.old ≤ F.faults folder.new }
    ensures answer { MatchResult result
        (λ m. IsHead (F.files folder.old) dir.now m)
        (λ fault. FaultIs (F.faults folder.old) (F.faults folder.new)
        (IsHeadDamaged (F.files folder.old) dir.now) fault) }
{
    match take_head(alloc, folder, dir)? {
        Ok(manifest) => Ok(manifest),
        Err(harm) => {
            let file = own_name(alloc)?;
            Err(ReadDumpFault::Damaged { file, harm })
        }
    }
}

// The manifest, or its harm.
fn take_head<F: Folder>(
    alloc: Global,
    folder: &mut F,
    dir: &str,
) -> Result<Result<Manifest, Harm>, Outage>
    ensures same { Goes Same (F.files folder.old) (F.files folder.new) }
    ensures later { F.faults folder.old ≤ F.faults folder.new }
    ensures failed { IsErrOf result Failed → Rose (F.faults folder.old) (F.faults folder.new) }
    ensures taken { IfOk result (λ head. IsHeadTaken (F.files folder.old) dir.now head) }
{
    let Some(named) = read_dir(dir) else {
        return Ok(Err(Harm::Absent));
    };
    let path = match path_of(alloc, dir, "manifest") {
        Ok(path) => path,
        Err(NoMemory) => return Err(Outage::NoMemory),
    };
    match folder.get(path.as_str()) {
        Ok(None) => Ok(Err(Harm::Absent)),
        Ok(Some(text)) => judge_head(alloc, &named.0, named.1, text.as_slice()),
        Err(outage) => Err(outage),
    }
}

// The manifest that a text is, or its harm.
fn judge_head(
    alloc: Global,
    source: &[u8; 16],
    dump: u64,
    text: &[u8],
) -> Result<Result<Manifest, Harm>, Outage>
    ensures failed { IsErrOf result Failed → ⊥ }
    ensures judged { IfOk result (λ head. IsHeadJudged source.now dump text.now head) }
{
    match read_manifest(alloc, source, dump, text) {
        Ok(manifest) => Ok(Ok(manifest)),
        Err(ManifestFault::Grammar(at)) => Ok(Err(Harm::Grammar(at))),
        Err(ManifestFault::NoMemory) => Err(Outage::NoMemory),
    }
}

fn own_name(alloc: Global) -> Result<Text, NoMemory>
    ensures { IfOk result (λ text. text ≡ manifest_name) }
{
    match Text::of(alloc, "manifest") {
        Ok(text) => Ok(text),
        Err(TextFault::TooLong | TextFault::NoMemory) => Err(NoMemory),
    }
}
