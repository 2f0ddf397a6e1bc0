//! The name of a dump's folder.

ghost use Rattle.std.specs.Prelude.{◌≡◌, ◌++◌, ℕ, List, codes, decimal, IfOk, IfSome, IsNone};
ghost use Rattle.hex.specs.Hex.{encode_lower};
ghost use Rattle.dump_manifest.specs.Manifests.{dir_text};
ghost use Rattle.dump_manifest.specs.Reading.{IsReadAs, dir_of};

use crate::values::{read_number, source_of};
use cat_values::{NoMemory, TEXT_LIMIT, Text};
use std::alloc::Global;

/// How many digits a store's id has.
const SOURCE_DIGITS: usize = 32;

/// The name of the folder in which a store's dump stands: the store's id in hexadecimal digits, a
/// dash, and the number of the dump.
pub fn dir_name(alloc: Global, source: &[u8; 16], dump: u64) -> Result<Text, NoMemory>
    ensures { IfOk result (λ text. text ≡ dir_text source.now dump) }
{
    let digits = hex::encode(alloc, source)?;
    let name = format!(in alloc; "{}-{}", digits, dump)?;
    if name.len() > TEXT_LIMIT {
        return Err(NoMemory);
    }
    match Text::from_utf8(name.into_bytes()) {
        Some(text) => Ok(text),
        None => Err(NoMemory),
    }
}

/// The store's id and the number of the dump whose folder has this name.
pub fn read_dir(dir: &str) -> Option<([u8; 16], u64)>
    ensures { IsReadAs dir_of dir.now result }
{
    let bytes = dir.as_bytes();
    if bytes.len() < SOURCE_DIGITS {
        return None;
    }
    let (digits, dump) = bytes.split_at(SOURCE_DIGITS);
    read_parts(digits, dump)
}

// The id that these are the digits of, and the number after a dash.
fn read_parts(digits: &[u8], dump: &[u8]) -> Option<([u8; 16], u64)>
    ensures some { IfSome result (λ found. dir_of.Fits found
        × (digits.now ≡ encode_lower found.0) × (dump.now ≡ codes "-" ++ decimal found.1)) }
    ensures none { IsNone result → (source : List ℕ) (n : ℕ) → dir_of.Fits (source, n)
        → digits.now ≡ encode_lower source → dump.now ≡ codes "-" ++ decimal n → ⊥ }
{
    let source = source_of(digits)?;
    let dump = read_number(dump, b"-")?;
    Some((source, dump))
}
