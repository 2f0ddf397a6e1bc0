//! Which partition a call means.

ghost use Rattle.std.specs.Prelude.{◌≡◌, IfOk, IsTrue, MatchOption, None, Some, false, true, if◌then◌else◌};
ghost use Rattle.std.specs.Cmp.Lexicographic.{pointwise};
ghost use Rattle.std.specs.Str.{bytes_eq};
ghost use Rattle.rulings.specs.Meant.{key_names, may_mean, meaning, meant_values, seen_values, spells_keys, stored_values};
ghost use Rattle.part_names.specs.Making.{stored};
ghost use Rattle.part_names.specs.Reading.{vals};

use cat_types::{Columns, ListOf, NoMemory, Text, Texts, TryCopy};
use part_names::{NameFault, keys_of, stored_text, vals_of};
use std::alloc::Global;

/// The partition that a call means: the one with these values, or the one with this name.
#[derive(Drop)]
pub enum Meant<'a> {
    Values(&'a Texts),
    Name(&'a Text),
}

impl<'a> Meant<'a> {
    /// The values that are meant, as they are stored, where they can be those of a table with these
    /// keys.
    pub fn values(
        &self,
        alloc: Global,
        keys: &Columns,
    ) -> Result<Option<StoredValues<'a>>, NoMemory>
        ensures { IfOk result (λ found. MatchOption found (may_mean keys.now (meaning self.now) ≡ false) (λ values. (may_mean keys.now (meaning self.now) ≡ true) × (seen_values values ≡ meant_values (meaning self.now)))) }
    {
        match self {
            Meant::Values(values) => Ok(Some(StoredValues::of(alloc, values)?)),
            Meant::Name(name) => match named_values(alloc, keys, name)? {
                Some(values) => Ok(Some(StoredValues::Made(values))),
                None => Ok(None),
            },
        }
    }
}

/// The values that a partition's name spells, where it can be read and has these keys, in their order.
pub fn named_values(alloc: Global, keys: &Columns, name: &Text) -> Result<Option<Texts>, NoMemory>
    ensures { IfOk result (λ found. found ≡ (if spells_keys keys.now name.now then Some (vals name.now) else None)) }
{
    let spelled = match keys_of(alloc, name) {
        Ok(spelled) => spelled,
        Err(NameFault::BadName(_)) => return Ok(None),
        Err(NameFault::NoMemory) => return Err(NoMemory),
    };
    if !are_names_of(&spelled, keys) {
        return Ok(None);
    }
    match vals_of(alloc, name) {
        Ok(values) => Ok(Some(values)),
        Err(NameFault::BadName(_)) => Ok(None),
        Err(NameFault::NoMemory) => Err(NoMemory),
    }
}

// Whether these are the names of keys, in their order.
fn are_names_of(names: &Texts, keys: &Columns) -> bool
    ensures { result ≡ pointwise bytes_eq names.now (key_names keys.now) }
{
    let mut left = keys.as_slice();
    for name in names.as_slice() {
        let [key, more @ ..] = left else {
            return false;
        };
        if *name != key.name {
            return false;
        }
        left = more;
    }
    left.is_empty()
}

/// Values of a partition as they are stored. Values of which none is empty are not copied for it.
#[derive(Drop)]
pub enum StoredValues<'a> {
    /// The values as they were handed in, none of which is empty.
    Same(&'a Texts),
    /// The values that were made for it.
    Made(Texts),
}

impl<'a> StoredValues<'a> {
    /// Values as they are stored.
    pub fn of(alloc: Global, values: &'a Texts) -> Result<StoredValues<'a>, NoMemory>
        ensures { IfOk result (λ made. seen_values made ≡ stored_values values.now) }
    {
        if are_stored(values) {
            Ok(StoredValues::Same(values))
        } else {
            Ok(StoredValues::Made(stored_copy(alloc, values)?))
        }
    }

    /// The values as they are stored.
    pub fn as_texts(&self) -> &Texts
        ensures { result.now ≡ seen_values self.now }
    {
        match self {
            StoredValues::Same(values) => values,
            StoredValues::Made(values) => values,
        }
    }

    /// The values as a list of its own.
    pub fn into_texts(self, alloc: Global) -> Result<Texts, NoMemory>
        ensures { IfOk result (λ texts. texts ≡ seen_values self.entry) }
    {
        match self {
            StoredValues::Same(values) => values.copy(alloc),
            StoredValues::Made(values) => Ok(values),
        }
    }
}

// Whether no value is empty, so that they are stored as they are.
fn are_stored(values: &Texts) -> bool
    ensures { IsTrue result → stored_values values.now ≡ values.now }
{
    for value in values.as_slice() {
        if value.is_empty() {
            return false;
        }
    }
    true
}

// A copy of values as they are stored.
fn stored_copy(alloc: Global, values: &Texts) -> Result<Texts, NoMemory>
    ensures { IfOk result (λ made. made ≡ stored_values values.now) }
{
    let mut made = Vec::with_capacity(alloc, values.len())?;
    for value in values.as_slice() {
        made.push(stored_value(alloc, value)?)?;
    }
    ListOf::from_vec(made)
}

// A copy of the text that is stored for a value.
fn stored_value(alloc: Global, value: &Text) -> Result<Text, NoMemory>
    ensures { IfOk result (λ made. made ≡ stored value.now) }
{
    match Text::of(alloc, stored_text(value)) {
        Ok(text) => Ok(text),
        Err(_) => Err(NoMemory),
    }
}
