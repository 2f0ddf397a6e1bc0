//! Names in lower case.

ghost use Rattle.std.specs.Prelude.{◌≡◌, ◌↔◌, IfOk, IsTrue};
ghost use Rattle.cat_values.specs.Names.{lower, lower_name};

use crate::{NoMemory, Text, TryCopy};
use std::alloc::Global;

/// A name in lower case. One that has no ASCII letter in upper case is not copied for it.
#[derive(Drop)]
pub enum LowerName<'a> {
    /// The name as it was handed in, which is in lower case.
    Same(&'a Text),
    /// The name that was made of one with letters in upper case.
    Made(Text),
}

impl<'a> LowerName<'a> {
    /// A name with its ASCII letters in lower case.
    pub fn of(alloc: Global, name: &'a Text) -> Result<LowerName<'a>, NoMemory>
        ensures { IfOk result (λ made. lower_name made ≡ lower name.now) }
    {
        if is_lower(name) {
            Ok(LowerName::Same(name))
        } else {
            Ok(LowerName::Made(name.to_lower(alloc)?))
        }
    }

    pub fn as_text(&self) -> &Text
        ensures { result.now ≡ lower_name self.now }
    {
        match self {
            LowerName::Same(name) => name,
            LowerName::Made(name) => name,
        }
    }

    /// The name as a text of its own.
    pub fn into_text(self, alloc: Global) -> Result<Text, NoMemory>
        ensures { IfOk result (λ text. text ≡ lower_name self.entry) }
    {
        match self {
            LowerName::Same(name) => name.copy(alloc),
            LowerName::Made(name) => Ok(name),
        }
    }
}

// Whether a name is as it is in lower case.
fn is_lower(name: &Text) -> bool
    ensures { IsTrue result → lower name.now ≡ name.now }
{
    name.as_str()
        .as_bytes()
        .iter()
        .all(|byte| !byte.is_ascii_uppercase())
}
