//! What calls on the names and values of partitions are answered, which need no catalogue.

ghost use Rattle.std.specs.Prelude.{◌≡◌, IfOk};
ghost use Rattle.std.specs.List.{list_all};
ghost use Rattle.ms_calls.specs.Arguments.{has_valid_characters_reply, is_valid_value, name_reply, spec_reply, valid_reply, vals_reply};
ghost use Rattle.ms_calls.specs.Asked.{name_asked, plain};

use crate::Asked;
use crate::arguments::{given, needed};
use crate::refusals::invalid_request;
use cat_types::{NoMemory, Reply, Text, Texts};
use ms_structs::Got;
use part_names::{NameFault, spec_of, valid_value, vals_of};
use std::alloc::Global;

/// A call on the name of a partition.
#[derive(Clone, Copy)]
pub enum OfName {
    /// Its values.
    Vals,
    /// Its values by their keys.
    Spec,
}

impl OfName {
    /// The name, and what is answered of it.
    pub fn asked(self, alloc: Global, name: Got<Text>) -> Result<Asked, NoMemory>
        ensures { IfOk result (λ asked. asked ≡ name_asked self name) }
    {
        match needed(1, name) {
            Ok(name) => Ok(Asked::Plain(self.reply(alloc, &name)?)),
            Err(id) => Ok(Asked::BadArgument(id)),
        }
    }

    // What is answered of a name.
    fn reply(self, alloc: Global, name: &Text) -> Result<Reply, NoMemory>
        ensures { IfOk result (λ reply. reply ≡ name_reply self name.now) }
    {
        match self {
            OfName::Vals => vals_reply(alloc, name),
            OfName::Spec => spec_reply(alloc, name),
        }
    }
}

// The values that a name spells.
fn vals_reply(alloc: Global, name: &Text) -> Result<Reply, NoMemory>
    ensures { IfOk result (λ reply. reply ≡ vals_reply name.now) }
{
    match vals_of(alloc, name) {
        Ok(values) => Ok(Reply::Names(values)),
        Err(NameFault::BadName(_)) => invalid_request(alloc),
        Err(NameFault::NoMemory) => Err(NoMemory),
    }
}

// The values that a name spells, by their keys.
fn spec_reply(alloc: Global, name: &Text) -> Result<Reply, NoMemory>
    ensures { IfOk result (λ reply. reply ≡ spec_reply name.now) }
{
    match spec_of(alloc, name) {
        Ok(pairs) => Ok(Reply::Spec(pairs)),
        Err(NameFault::BadName(_)) => invalid_request(alloc),
        Err(NameFault::NoMemory) => Err(NoMemory),
    }
}

/// `partition_name_has_valid_characters`: the values, and whether those that aren't valid are
/// refused. It is answered whether all of them are.
pub fn has_valid_characters(
    alloc: Global,
    values: Got<Texts>,
    refuse: Got<bool>,
) -> Result<Asked, NoMemory>
    ensures { IfOk result (λ asked. asked ≡ plain (has_valid_characters_reply values refuse)) }
{
    match (needed(1, values), given(2, false, refuse)) {
        (Ok(values), Ok(refuse)) => Ok(Asked::Plain(valid_reply(alloc, &values, refuse)?)),
        (Err(id), _) | (Ok(_), Err(id)) => Ok(Asked::BadArgument(id)),
    }
}

// What is answered of values.
fn valid_reply(alloc: Global, values: &Texts, refuse: bool) -> Result<Reply, NoMemory>
    ensures { IfOk result (λ reply. reply ≡ valid_reply values.now refuse) }
{
    if are_valid(values) {
        return Ok(Reply::Flag(true));
    }
    if refuse {
        return invalid_request(alloc);
    }
    Ok(Reply::Flag(false))
}

// Whether a partition may have each of these values.
fn are_valid(values: &Texts) -> bool
    ensures { result ≡ list_all is_valid_value values.now }
{
    for value in values.as_slice() {
        if !is_valid(value) {
            return false;
        }
    }
    true
}

// Whether a partition may have this value.
fn is_valid(value: &Text) -> bool
    ensures { result ≡ is_valid_value value.now }
{
    valid_value(value)
}
