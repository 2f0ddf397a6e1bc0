//! Names read into values, or into a map from keys to values.

ghost use Rattle.std.specs.Prelude.{◌≡◌, ◌<◌, ◌≤◌, ◌∷◌, ℕ, None, Some, false, true, length, map};
ghost use Rattle.std.specs.Prelude.{IfOk, IfSome, IsErrOf, IsNone, IsUtf8, OnOk, OnSome};
ghost use Rattle.std.specs.Char.{to_ascii_lowercase};
ghost use Rattle.std.specs.Option.{option_copied};
ghost use Rattle.cat_values.specs.declared.text.TheConstants.{TEXT_LIMIT};
ghost use Rattle.part_names.specs.Reading.{components, components_left, first_component, first_unreadable};
ghost use Rattle.part_names.specs.Reading.{is_unreadable, keys_in, part_by, part_of, spec, unescaped, vals, written_key, written_value};

use crate::NameFault;
use crate::escapes::{text_of, undo_escapes};
use cat_values::{NoMemory, Params, Text, Texts};
use std::alloc::Global;

/// The values that a name spells, in its order; the empty name has none. `%` and two hexadecimal
/// digits of either case are the character from U+0000 to U+00FF with that number, and every other
/// `%` stays.
///
/// `BadName` has the number, from 0, of the first component without `=`, or with an empty key or
/// value.
pub fn vals_of(alloc: Global, name: &Text) -> Result<Texts, NameFault>
    ensures values { IfOk result (λ values. values ≡ vals name.now) }
    ensures readable { OnOk result (first_unreadable name.now ≡ None) }
    ensures bad { (i : ℕ) → IsErrOf result (NameFault.BadName i)
        → first_unreadable name.now ≡ Some i }
{
    parts_of(alloc, name, Part::Value)
}

/// The keys that a name spells, in its order and in lower case.
///
/// `BadName` has the number, from 0, of the first component without `=`, or with an empty key or
/// value.
pub fn keys_of(alloc: Global, name: &Text) -> Result<Texts, NameFault>
    ensures keys { IfOk result (λ keys. keys ≡ keys_in name.now) }
    ensures readable { OnOk result (first_unreadable name.now ≡ None) }
    ensures bad { (i : ℕ) → IsErrOf result (NameFault.BadName i)
        → first_unreadable name.now ≡ Some i }
{
    parts_of(alloc, name, Part::Key)
}

// Which text of a component is meant.
#[derive(Clone, Copy)]
enum Part {
    Key,
    Value,
}

// The keys or the values that a name spells, in its order.
fn parts_of(alloc: Global, name: &Text, part: Part) -> Result<Texts, NameFault>
    ensures texts { IfOk result (λ texts. texts ≡ map (part_of part) (components name.now)) }
    ensures readable { OnOk result (first_unreadable name.now ≡ None) }
    ensures bad { (i : ℕ) → IsErrOf result (NameFault.BadName i)
        → first_unreadable name.now ≡ Some i }
{
    let mut texts = Texts::new(alloc);
    let mut rest = components(name);
    while let Some(text) = rest {
        let Some(first) = first_component(text) else {
            return Err(NameFault::BadName(texts.len() as u64));
        };
        texts.push(part_text(alloc, part, first.key, first.value)?)?;
        rest = first.after;
    }
    Ok(texts)
}

/// The map from the keys that a name spells, in lower case, to their values. Of a repeated key the
/// last value counts.
///
/// `BadName` has the number, from 0, of the first component without `=`, or with an empty key or
/// value.
pub fn spec_of(alloc: Global, name: &Text) -> Result<Params, NameFault>
    ensures pairs { IfOk result (λ pairs. pairs ≡ spec name.now) }
    ensures readable { OnOk result (first_unreadable name.now ≡ None) }
    ensures bad { (i : ℕ) → IsErrOf result (NameFault.BadName i)
        → first_unreadable name.now ≡ Some i }
{
    let mut pairs = Params::new(alloc);
    let mut number: u64 = 0;
    let mut rest = components(name);
    while let Some(text) = rest {
        let Some(first) = first_component(text) else {
            return Err(NameFault::BadName(number));
        };
        let key = key_text(alloc, first.key)?;
        pairs.put(key, value_text(alloc, first.value)?)?;
        number += 1;
        rest = first.after;
    }
    Ok(pairs)
}

// The first component of a text of components, as its key and its value are written, and the
// text of the other ones.
#[derive(Drop)]
struct First<'a> {
    key: &'a str,
    value: &'a str,
    after: Option<&'a str>,
}

// The text of a name's components, of which the empty name has none.
fn components(name: &Text) -> Option<&str>
    ensures left { components_left (option_copied result) ≡ components name.now }
    ensures utf8 { IfSome (option_copied result) IsUtf8 }
    ensures short { IfSome (option_copied result) (λ text. length text ≤ TEXT_LIMIT) }
{
    if name.is_empty() {
        None
    } else {
        Some(name.as_str())
    }
}

// The first component of a text of components, unless it can't be read.
fn first_component(text: &str) -> Option<First<'_>>
    ensures none { IsNone result → is_unreadable (first_component text.now) ≡ true }
    ensures readable { OnSome result (is_unreadable (first_component text.now) ≡ false) }
    ensures key { IfSome result (λ first.
        first.key.now ≡ written_key (first_component text.now)) }
    ensures value { IfSome result (λ first.
        first.value.now ≡ written_value (first_component text.now)) }
    ensures left { IfSome result (λ first. components_left (Some text.now)
        ≡ first_component text.now ∷ components_left (option_copied first.after)) }
    ensures shorter { IfSome result (λ first.
        IfSome (option_copied first.after) (λ rest. length rest < length text.now)) }
    ensures within { IfSome result (λ first.
        (length first.key.now ≤ length text.now) × (length first.value.now ≤ length text.now)) }
    ensures utf8 { IfSome result (λ first. IsUtf8 first.key.now × IsUtf8 first.value.now
        × IfSome (option_copied first.after) IsUtf8) }
{
    let (component, after) = cut_component(text);
    let (key, value) = component.split_once('=')?;
    if key.is_empty() || value.is_empty() {
        return None;
    }
    Some(First { key, value, after })
}

// The component at the front of a text of components, and the text of the other ones.
fn cut_component(text: &str) -> (&str, Option<&str>)
    ensures first { result.0.now ≡ first_component text.now }
    ensures left { components_left (Some text.now)
        ≡ first_component text.now ∷ components_left (option_copied result.1) }
    ensures shorter { IfSome (option_copied result.1) (λ rest. length rest < length text.now) }
    ensures within { length result.0.now ≤ length text.now }
    ensures utf8 { IsUtf8 result.0.now × IfSome (option_copied result.1) IsUtf8 }
{
    match text.split_once('/') {
        Some((component, after)) => (component, Some(after)),
        None => (text, None),
    }
}

// What the key or the value of a component spells.
fn part_text(alloc: Global, part: Part, key: &str, value: &str) -> Result<Text, NoMemory>
    requires { (length key.now ≤ TEXT_LIMIT) × (length value.now ≤ TEXT_LIMIT) }
    ensures { IfOk result (λ text. text ≡ part_by part key.now value.now) }
{
    match part {
        Part::Key => key_text(alloc, key),
        Part::Value => value_text(alloc, value),
    }
}

// The key that a text spells, in lower case.
fn key_text(alloc: Global, text: &str) -> Result<Text, NoMemory>
    requires { length text.now ≤ TEXT_LIMIT }
    ensures { IfOk result (λ key. key ≡ map to_ascii_lowercase (unescaped text.now)) }
{
    let mut key = undo_escapes(alloc, text)?;
    key.make_ascii_lowercase();
    Ok(text_of(key))
}

// The value that a text spells.
fn value_text(alloc: Global, text: &str) -> Result<Text, NoMemory>
    requires { length text.now ≤ TEXT_LIMIT }
    ensures { IfOk result (λ value. value ≡ unescaped text.now) }
{
    Ok(text_of(undo_escapes(alloc, text)?))
}
