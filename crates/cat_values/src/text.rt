//! Text of bounded length.

ghost use Rattle.std.specs.Prelude.{◌≡◌, ◌==◌, ◌<◌, ◌≤◌, ◌↔◌, length, IfOk, IfSome, IsErrOf, IsNone, OnSome};
ghost use Rattle.std.specs.Cmp.{partial_order_from_own_ties};
ghost use Rattle.std.specs.Cmp.Lexicographic.{slice_cmp, nat_list_cmp_total};
ghost use Rattle.std.specs.Cmp.Rules.{comparing};
ghost use Rattle.std.specs.Ordering.{nat_cmp, as_partial_cmp};
ghost use Rattle.std.specs.Str.{bytes_eq, IsUtf8};
ghost use Rattle.std.proofs.Common.{rules};
ghost use Rattle.cat_values.specs.Names.{lower};
ghost use Rattle.cat_values.specs.declared.text.TextFault.TheVariants.{NoMemory};

use crate::{NoMemory, TryCopy};
use std::alloc::{AllocError, Global};
use std::cmp::Ordering;
use std::marker::Model;

/// How many bytes a text has at most.
pub const TEXT_LIMIT: usize = 16_777_216;

/// UTF-8 text of at most `TEXT_LIMIT` bytes, which contracts see as its bytes.
#[derive(Debug, Drop)]
pub struct Text {
    inner: String,
}

impl Model for Text {
    ghost use Rattle.std.specs.Prelude.{List, ℕ, ◌≤◌, string_bytes, string_len};
    ghost use Rattle.cat_values.specs.declared.text.TheConstants.{TEXT_LIMIT};

    ghost Value = { List ℕ };

    ghost view = { λ t. string_bytes t.inner };

    ghost invariant = { λ t. string_len t.inner ≤ TEXT_LIMIT };
}

/// Why a text was refused.
#[derive(Clone, Copy, Debug, PartialEq, Eq)]
pub enum TextFault {
    /// The text has more than `TEXT_LIMIT` bytes.
    TooLong,
    NoMemory,
}

impl From<AllocError> for TextFault {
    ghost from_gives = { λ _ e. e ≡ NoMemory };

    fn from(_: AllocError) -> TextFault {
        TextFault::NoMemory
    }
}

impl Text {
    /// The text with these bytes. `TooLong` comes exactly above `TEXT_LIMIT`.
    pub fn of(alloc: Global, s: &str) -> Result<Text, TextFault>
        ensures same { IfOk result (λ text. text ≡ s.now) }
        ensures too_long { IsErrOf result TextFault.TooLong ↔ (TEXT_LIMIT < length s.now) }
    {
        if s.len() > TEXT_LIMIT {
            return Err(TextFault::TooLong);
        }
        Ok(Text {
            inner: String::from_str(alloc, s)?,
        })
    }

    /// The text that these bytes spell, without taking memory.
    pub fn from_utf8(bytes: Vec<u8>) -> Option<Text>
        requires { length bytes.items ≤ TEXT_LIMIT }
        ensures same { IfSome result (λ text. text ≡ bytes.items) }
        ensures utf8 { OnSome result (IsUtf8 bytes.items) }
        ensures none { IsNone result → IsUtf8 bytes.items → ⊥ }
    {
        match String::from_utf8(bytes) {
            Ok(inner) => {
                let _text = inner.as_str();
                Some(Text { inner })
            }
            Err(_) => None,
        }
    }

    /// The text with its ASCII letters in lower case.
    pub fn to_lower(&self, alloc: Global) -> Result<Text, NoMemory>
        ensures { IfOk result (λ text. text ≡ lower self.now) }
    {
        let mut inner = String::from_str(alloc, self.inner.as_str())?;
        inner.make_ascii_lowercase();
        Ok(Text { inner })
    }

    pub fn as_str(&self) -> &str
        ensures bytes { result.now ≡ self.now }
        ensures bounded { length self.now ≤ TEXT_LIMIT }
    {
        self.inner.as_str()
    }

    pub fn len(&self) -> usize
        ensures bytes { result ≡ length self.now }
        ensures bounded { result ≤ TEXT_LIMIT }
    {
        self.inner.len()
    }

    pub fn is_empty(&self) -> bool
        ensures { result ≡ (length self.now == 0) }
    {
        self.inner.is_empty()
    }
}

impl TryCopy for Text {
    fn copy(&self, alloc: Global) -> Result<Text, NoMemory> {
        Ok(Text {
            inner: String::from_str(alloc, self.inner.as_str())?,
        })
    }
}

impl PartialEq for Text {
    ghost eq = { bytes_eq };

    ghost laws = { Prim.search (comparing, rules) };

    fn eq(&self, other: &Text) -> bool {
        self.as_str() == other.as_str()
    }
}

impl Eq for Text {
    ghost laws = { Prim.search (comparing, rules) };
}

impl PartialOrd for Text {
    ghost partial_cmp = { as_partial_cmp (slice_cmp nat_cmp) };

    ghost laws = { partial_order_from_own_ties (Prim.search (comparing, rules)) (Prim.search (comparing, rules)) };

    fn partial_cmp(&self, other: &Text) -> Option<Ordering> {
        Some(self.cmp(other))
    }
}

impl Ord for Text {
    ghost cmp = { slice_cmp nat_cmp };

    ghost total = { nat_list_cmp_total };

    ghost matches_partial_cmp = { Prim.search (comparing, rules) };

    ghost matches_eq = { Prim.search (comparing, rules) };

    fn cmp(&self, other: &Text) -> Ordering {
        self.as_str().cmp(other.as_str())
    }
}
