//! Names made of keys and values.

ghost use Rattle.std.specs.Prelude.{◌≡◌, ◌≤◌, length, All, IfOk, OnOk, string_bytes};
ghost use Rattle.cat_values.specs.Names.{IsObjectName};
ghost use Rattle.part_names.specs.Making.{IsValidValue, component, grown, part_name};

use crate::escapes::{push_escaped, text_of};
use crate::values::stored_text;
use cat_values::{NoMemory, TEXT_LIMIT, Text, Texts};
use std::alloc::Global;

/// The name of the partition with these values of these keys, in their order. An empty value is
/// written as `DEFAULT_VALUE`; keys stand as they are.
pub fn make_name(alloc: Global, keys: &Texts, values: &Texts) -> Result<Text, NoMemory>
    requires as_many { length keys.now ≡ length values.now }
    requires few { length keys.now ≤ 16 }
    requires object_names { All IsObjectName keys.now }
    requires valid { All IsValidValue values.now }
    ensures { IfOk result (λ name. name ≡ part_name keys.now values.now) }
{
    let name = joined_name(alloc, keys, values)?;
    Ok(text_of(name))
}

/// The same name, of keys and values of which nothing is known. A name that is longer than a text may
/// be is refused as want of memory.
pub fn join_name(alloc: Global, keys: &Texts, values: &Texts) -> Result<Text, NoMemory>
    ensures { IfOk result (λ name. name ≡ part_name keys.now values.now) }
{
    let name = joined_name(alloc, keys, values)?;
    if name.len() > TEXT_LIMIT {
        return Err(NoMemory);
    }
    Ok(text_of(name))
}

// The characters of a name.
fn joined_name(alloc: Global, keys: &Texts, values: &Texts) -> Result<String, NoMemory>
    ensures { IfOk result (λ name. string_bytes name ≡ part_name keys.now values.now) }
{
    let mut name = String::with_capacity(alloc, plain_len(keys, values))?;
    for (key, value) in keys.as_slice().iter().zip(values.as_slice()) {
        push_component(&mut name, key, value)?;
    }
    Ok(name)
}

// Room for a name without escapes.
fn plain_len(keys: &Texts, values: &Texts) -> usize {
    let mut len: usize = 0;
    for (key, value) in keys.as_slice().iter().zip(values.as_slice()) {
        len = len.saturating_add(key.len() + 2 + stored_text(value).len());
    }
    len
}

// Adds a component to a name, behind a slash if it isn't the first.
fn push_component(name: &mut String, key: &Text, value: &Text) -> Result<(), NoMemory>
    ensures { OnOk result (string_bytes name.new
        ≡ grown (string_bytes name.old) (component key.now value.now)) }
{
    if !name.is_empty() {
        name.push('/')?;
    }
    name.push_str(key.as_str())?;
    name.push('=')?;
    push_escaped(name, stored_text(value))
}
