//! A manifest read from its text.

ghost use Rattle.std.specs.Prelude.{◌≡◌, ◌≢◌, [], true, false, ◌≤◌, ◌-◌, length, IfOk, MatchResult};
ghost use Rattle.dump_manifest.specs.Manifests.{Fits, manifest_code};
ghost use Rattle.dump_manifest.specs.declared.manifest.ManifestFault.TheVariants.{Grammar};
ghost use Rattle.dump_manifest.specs.Reading.{IsFault};

use crate::heads::{read_origin, read_span};
use crate::lists::read_files;
use crate::{Manifest, ManifestFault};
use cat_values::{NoMemory, Text, TextFault};
use std::alloc::Global;

/// The manifest of this store's dump with this number that a text spells.
///
/// `Grammar` has the offset of the first line that breaks a rule, or the text's length where lines
/// are missing. A rule on two lines is broken by the later one.
pub fn read_manifest(
    alloc: Global,
    source: &[u8; 16],
    dump: u64,
    text: &[u8],
) -> Result<Manifest, ManifestFault>
    ensures { MatchResult result
        (λ m. (text.now ≡ manifest_code m) × Fits source.now dump m)
        (λ fault. IsFault source.now dump text.now fault) }
{
    let (db, after_origin) = match read_origin(text, source, dump) {
        Ok(found) => found,
        Err(rest) => return Err(fault_at(text, rest)),
    };
    let (span, after_span) = match read_span(after_origin) {
        Ok(found) => found,
        Err(rest) => return Err(fault_at(text, rest)),
    };
    let (files, rest) = match read_files(alloc, span.bootstrap, after_span)? {
        Ok(found) => found,
        Err(rest) => return Err(fault_at(text, rest)),
    };
    if has_more(rest) {
        return Err(fault_at(text, rest));
    }
    Ok(Manifest {
        source: *source,
        db: name_text(alloc, db)?,
        dump,
        bootstrap: span.bootstrap,
        begin: span.begin,
        end: span.end,
        born: span.born,
        files,
    })
}

// Whether anything is left.
fn has_more(rest: &[u8]) -> bool
    ensures some { result ≡ true → rest.now ≢ [] }
    ensures none { result ≡ false → rest.now ≡ [] }
{
    !rest.is_empty()
}

// The fault at a line from which this text is left.
fn fault_at(text: &[u8], rest: &[u8]) -> ManifestFault
    requires { length rest.now ≤ length text.now }
    ensures { result ≡ Grammar (length text.now - length rest.now) }
{
    ManifestFault::Grammar((text.len() - rest.len()) as u64)
}

// The name as a text of its own.
fn name_text(alloc: Global, name: &str) -> Result<Text, NoMemory>
    ensures { IfOk result (λ text. text ≡ name.now) }
{
    match Text::of(alloc, name) {
        Ok(text) => Ok(text),
        Err(TextFault::TooLong | TextFault::NoMemory) => Err(NoMemory),
    }
}
