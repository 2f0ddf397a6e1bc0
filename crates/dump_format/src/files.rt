//! The files of a dump against the lines of its manifest, one after the other.

ghost use Rattle.std.specs.Prelude.{◌≡◌, ◌≢◌, ◌≤◌, MatchResult, IfOk, IsErrOf, IsTrue, IsFalse, None, Some, string_bytes};
ghost use Rattle.sha2.specs.Sha256.{sha256};
ghost use Rattle.hms_outside.specs.Causes.{Rose};
ghost use Rattle.hms_outside.specs.Told.{Goes, Same};
ghost use Rattle.hms_outside.specs.declared.outage.Outage.TheVariants.{Failed};
ghost use Rattle.dump_format.specs.Files.{AreRead, IsAdded, IsFirstHarm, IsJudged, IsTaken};
ghost use Rattle.dump_format.specs.Harms.{FaultIs, path as path_text};

use crate::filed::Filed;
use crate::{Harm, ReadDumpFault};
use cat_types::{ListOf, NoMemory, TryCopy};
use dump_files::{Bounds, FileFault};
use dump_manifest::FileLine;
use hms_outside::{Folder, Outage};
use sha2::{Digest, Sha256};
use std::alloc::Global;

/// The elements of the files of these lines, in order. Each file is read, judged and let go before
/// the next one is looked at; the first that is not good is told.
pub fn read_lines<F: Folder, T: Filed>(
    alloc: Global,
    folder: &mut F,
    dir: &str,
    bounds: &Bounds,
    lines: &[FileLine],
) -> Result<ListOf<T>, ReadDumpFault>
    ensures same { Goes Same (F.files folder.old) (F.files folder.new) }
    ensures later { F.faults folder.old ≤ F.faults folder.new }
    ensures answer { MatchResult result
        (λ elements. AreRead (F.files folder.old) dir.now (T.rule bounds.now) T.form lines.now elements)
        (λ fault. FaultIs (F.faults folder.old) (F.faults folder.new)
        (IsFirstHarm (F.files folder.old) dir.now (T.rule bounds.now) T.form lines.now) fault) }
{
    let mut elements = ListOf::new(alloc);
    for line in lines {
        match read_line(alloc, folder, dir, bounds, line, &mut elements) {
            Ok(()) => {}
            Err(fault) => return Err(fault),
        }
    }
    Ok(elements)
}

// Adds the elements of one line's file to those before.
fn read_line<F: Folder, T: Filed>(
    alloc: Global,
    folder: &mut F,
    dir: &str,
    bounds: &Bounds,
    line: &FileLine,
    elements: &mut ListOf<T>,
) -> Result<(), ReadDumpFault>
    ensures same { Goes Same (F.files folder.old) (F.files folder.new) }
    ensures later { F.faults folder.old ≤ F.faults folder.new }
    ensures answer { MatchResult result
        (λ _. IsTaken (F.files folder.old) dir.now (T.rule bounds.now) T.form line.now elements.old elements.new None)
        (λ fault. FaultIs (F.faults folder.old) (F.faults folder.new)
        (λ name harm. (name ≡ line.now.name)
        × IsTaken (F.files folder.old) dir.now (T.rule bounds.now) T.form line.now elements.old elements.new (Some harm))
        fault) }
{
    match take_file(alloc, folder, dir, bounds, line, elements)? {
        None => Ok(()),
        Some(harm) => {
            let file = line.name.copy(alloc)?;
            Err(ReadDumpFault::Damaged { file, harm })
        }
    }
}

// The same, with the harm of the file.
fn take_file<F: Folder, T: Filed>(
    alloc: Global,
    folder: &mut F,
    dir: &str,
    bounds: &Bounds,
    line: &FileLine,
    elements: &mut ListOf<T>,
) -> Result<Option<Harm>, Outage>
    ensures same { Goes Same (F.files folder.old) (F.files folder.new) }
    ensures later { F.faults folder.old ≤ F.faults folder.new }
    ensures failed { IsErrOf result Failed → Rose (F.faults folder.old) (F.faults folder.new) }
    ensures taken { IfOk result (λ harm.
        IsTaken (F.files folder.old) dir.now (T.rule bounds.now) T.form line.now elements.old elements.new harm) }
{
    let path = match path_of(alloc, dir, line.name.as_str()) {
        Ok(path) => path,
        Err(NoMemory) => return Err(Outage::NoMemory),
    };
    match folder.get(path.as_str()) {
        Ok(None) => Ok(Some(Harm::Absent)),
        Ok(Some(bytes)) => judge(alloc, bounds, line, bytes.as_slice(), elements),
        Err(outage) => Err(outage),
    }
}

// The first check that a file's bytes fail, or none and their elements are added.
fn judge<T: Filed>(
    alloc: Global,
    bounds: &Bounds,
    line: &FileLine,
    bytes: &[u8],
    elements: &mut ListOf<T>,
) -> Result<Option<Harm>, Outage>
    ensures failed { IsErrOf result Failed → ⊥ }
    ensures judged { IfOk result (λ harm.
        IsJudged (T.rule bounds.now) T.form line.now bytes.now elements.old elements.new harm) }
{
    if bytes.len() as u64 != line.length {
        return Ok(Some(Harm::Length));
    }
    if has_digest(bytes, &line.digest) {
        add(alloc, bounds, bytes, elements)
    } else {
        Ok(Some(Harm::Digest))
    }
}

// Adds the elements of a file that is whole, or tells where its grammar is broken.
fn add<T: Filed>(
    alloc: Global,
    bounds: &Bounds,
    bytes: &[u8],
    elements: &mut ListOf<T>,
) -> Result<Option<Harm>, Outage>
    ensures failed { IsErrOf result Failed → ⊥ }
    ensures added { IfOk result (λ harm.
        IsAdded (T.rule bounds.now) T.form bytes.now elements.old elements.new harm) }
{
    match T::read(alloc, bounds, bytes, elements) {
        Ok(()) => Ok(None),
        Err(FileFault::Grammar(at)) => Ok(Some(Harm::Grammar(at))),
        Err(FileFault::NoMemory) => Err(Outage::NoMemory),
    }
}

/// The name under which a folder keeps a file of a dump.
pub fn path_of(alloc: Global, dir: &str, name: &str) -> Result<String, NoMemory>
    ensures { IfOk result (λ s. string_bytes s ≡ path_text dir.now name.now) }
{
    Ok(format!(in alloc; "{}/{}", dir, name)?)
}

fn has_digest(bytes: &[u8], digest: &[u8; 32]) -> bool
    ensures yes { IsTrue result → sha256 bytes.now ≡ digest.now }
    ensures no { IsFalse result → sha256 bytes.now ≢ digest.now }
{
    Sha256::digest(bytes) == *digest
}
