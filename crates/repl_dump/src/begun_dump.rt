//! A dump from behind its beginning to its end.

ghost use Rattle.std.specs.Prelude.{◌≡◌, ◌≤◌, ◌∷◌, [], codes, IfErr, IfOk, IsErrOf, OnOk};
ghost use Rattle.desk.specs.Adds.{Adds};
ghost use Rattle.desk.specs.History.{Legal, NoneAbove};
ghost use Rattle.desk.specs.Walks.{place_begun};
ghost use Rattle.dump_manifest.specs.Manifests.{manifest_code};
ghost use Rattle.dump_texts.specs.Texts.{path_in};
ghost use Rattle.hms_outside.specs.Causes.{Rose};
ghost use Rattle.hms_outside.specs.Told.{Goes};
ghost use Rattle.repl_dump.specs.Beginnings.{began_of, manifest_of};
ghost use Rattle.repl_dump.specs.Endings.{EndsSo, StandsBegun, StaysBy, WritesFiles, dir_of, failed_answer};
ghost use Rattle.repl_dump.specs.Files.{Gained, OthersStay};
ghost use Rattle.repl_dump.specs.Opened.{Takes, allows, any_kind};
ghost use Rattle.repl_dump.specs.Turns.{IsOwn, place_of};
ghost use Rattle.repl_dump.specs.declared.dumping.DumpAnswer.TheVariants as dumped;

use crate::beginning::Beginning;
use crate::dumping::DumpAnswer;
use crate::failure::{Failure, failure_of};
use crate::place::Place;
use crate::walking::walk;
use crate::writer::Writer;
use cat_types::{Step, Text, TryCopy};
use desk::Desk;
use dump_manifest::{Manifest, manifest_text};
use dump_texts::{FileKind, one_item_file, path_in};
use hms_outside::Folder;
use std::alloc::Global;

/// Takes the steps after the first, and writes the files; then the manifest, where all went well. The
/// last step is taken whatever failed.
pub fn dump_begun<K: Desk, F: Folder>(
    alloc: Global,
    desk: &mut K,
    folder: &mut F,
    db: &Text,
    beginning: Beginning,
) -> DumpAnswer
    requires legal { Legal (K.start desk.old) (K.history desk.old) }
    requires open { Takes (allows (place_begun beginning.begin beginning.first)) (K.caller desk.old) beginning.dump (K.start desk.old) (K.history desk.old) }
    ensures caller { K.caller desk.new ≡ K.caller desk.old }
    ensures start { K.start desk.new ≡ K.start desk.old }
    ensures legal { Legal (K.start desk.new) (K.history desk.new) }
    ensures counted { NoneAbove (K.faults desk.new) (K.history desk.new) }
    ensures later { F.faults folder.old ≤ F.faults folder.new }
    ensures cause { result ≡ dumped.FolderFault → Rose (F.faults folder.old) (F.faults folder.new) }
    ensures ends { Adds K.alone (K.caller desk.old) (K.history desk.old) (K.history desk.new) (EndsSo db.now (began_of beginning) result (F.files folder.old) (F.files folder.new)) }
{
    let written = write_files(alloc, desk, folder, &beginning);
    let _ended = desk.step(Step::DumpEnd {
        dump: beginning.dump,
    });
    match written {
        Ok(writer) => match write_manifest(alloc, folder, db, &beginning, writer) {
            Ok(answer) => answer,
            Err(failure) => failed(failure),
        },
        Err(failure) => failed(failure),
    }
}

// Takes the steps up to the last one, and writes their files.
fn write_files<K: Desk, F: Folder>(
    alloc: Global,
    desk: &mut K,
    folder: &mut F,
    beginning: &Beginning,
) -> Result<Writer, Failure>
    requires legal { Legal (K.start desk.old) (K.history desk.old) }
    requires open { Takes (allows (place_begun beginning.now.begin beginning.now.first)) (K.caller desk.old) beginning.now.dump (K.start desk.old) (K.history desk.old) }
    ensures caller { K.caller desk.new ≡ K.caller desk.old }
    ensures start { K.start desk.new ≡ K.start desk.old }
    ensures legal { Legal (K.start desk.new) (K.history desk.new) }
    ensures open { Takes any_kind (K.caller desk.new) beginning.now.dump (K.start desk.new) (K.history desk.new) }
    ensures later { F.faults folder.old ≤ F.faults folder.new }
    ensures cause { IsErrOf result Failure.FolderFault → Rose (F.faults folder.old) (F.faults folder.new) }
    ensures stays { Goes (OthersStay (dir_of (began_of beginning.now))) (F.files folder.old) (F.files folder.new) }
    ensures written { Adds K.alone (K.caller desk.old) (K.history desk.old) (K.history desk.new) (WritesFiles (began_of beginning.now) result (F.files folder.old) (F.files folder.new)) }
{
    let (mut writer, place) = match begin_files(alloc, folder, beginning) {
        Ok(begun) => begun,
        Err(failure) => return Err(failure),
    };
    match walk(
        alloc,
        desk,
        folder,
        &mut writer,
        beginning.dump,
        beginning.begin,
        place,
    ) {
        Ok(()) => Ok(writer),
        Err(failure) => Err(failure),
    }
}

// Writes the first item, where there is one. Returns the writer with it, and the first place.
fn begin_files<F: Folder>(
    alloc: Global,
    folder: &mut F,
    beginning: &Beginning,
) -> Result<(Writer, Place), Failure>
    ensures later { F.faults folder.old ≤ F.faults folder.new }
    ensures cause { IsErrOf result Failure.FolderFault → Rose (F.faults folder.old) (F.faults folder.new) }
    ensures own { IfErr result IsOwn }
    ensures stays { Goes (OthersStay (dir_of (began_of beginning.now))) (F.files folder.old) (F.files folder.new) }
    ensures place { IfOk result (λ begun. place_of begun.1 ≡ place_begun beginning.now.begin beginning.now.first) }
    ensures written { IfOk result (λ begun. StandsBegun (began_of beginning.now) [] (F.files folder.old) (place_of begun.1) begun.0 (F.files folder.new)) }
{
    let Ok(mut writer) = Writer::new(alloc, &beginning.source, beginning.dump, beginning.end) else {
        return Err(Failure::NoMemory);
    };
    let Some(item) = &beginning.first else {
        return Ok((writer, Place::Events(beginning.begin)));
    };
    let Ok(bytes) = one_item_file(alloc, item) else {
        return Err(Failure::NoMemory);
    };
    match writer.put(alloc, folder, FileKind::ItemFile, &bytes) {
        Ok(()) => Ok((writer, Place::Tables(None))),
        Err(outage) => Err(failure_of(outage)),
    }
}

// Writes the manifest, with which a dump is whole.
fn write_manifest<F: Folder>(
    alloc: Global,
    folder: &mut F,
    db: &Text,
    beginning: &Beginning,
    writer: Writer,
) -> Result<DumpAnswer, Failure>
    ensures later { F.faults folder.old ≤ F.faults folder.new }
    ensures cause { IsErrOf result Failure.FolderFault → Rose (F.faults folder.old) (F.faults folder.new) }
    ensures own { IfErr result IsOwn }
    ensures stays { IfErr result (λ failure. Goes (StaysBy failure writer.dir) (F.files folder.old) (F.files folder.new)) }
    ensures done { IfOk result (λ answer. answer ≡ dumped.Done writer.dir writer.end) }
    ensures put { OnOk result (Goes (Gained ((path_in writer.dir (codes "manifest"), manifest_code (manifest_of db.now beginning.now writer)) ∷ [])) (F.files folder.old) (F.files folder.new)) }
{
    let Writer {
        dir,
        end,
        files,
        ..
    } = writer;
    let Ok(db) = db.copy(alloc) else {
        return Err(Failure::NoMemory);
    };
    let manifest = Manifest {
        source: beginning.source,
        db,
        dump: beginning.dump,
        bootstrap: beginning.first.is_some(),
        begin: beginning.begin,
        end,
        born: beginning.born,
        files,
    };
    let (Ok(text), Ok(path)) = (
        manifest_text(alloc, &manifest),
        path_in(alloc, &dir, "manifest"),
    ) else {
        return Err(Failure::NoMemory);
    };
    match folder.put(path.as_str(), text.as_slice()) {
        Ok(()) => Ok(DumpAnswer::Done { dir, last: end }),
        Err(outage) => Err(failure_of(outage)),
    }
}

// How a failure is answered.
fn failed(failure: Failure) -> DumpAnswer
    ensures { result ≡ failed_answer failure }
{
    match failure {
        Failure::Refused(refusal) => DumpAnswer::Refused(refusal),
        Failure::FolderFault => DumpAnswer::FolderFault,
        Failure::NoMemory => DumpAnswer::NoMemory,
    }
}
