//! The calls: whole records to bytes and back.

ghost use Rattle.std.specs.Prelude.{◌≡◌, ◌≤◌, ◌<◌, ◌-◌, ◌+◌, ◌^◌, IfOk, OnOk, Ok, drop, length};
ghost use Rattle.cat_values.specs.declared.list_of.TheConstants.{LIST_END};
ghost use Rattle.cat_values.specs.Gathering.{Gathers};
ghost use Rattle.cat_types.specs.declared.changes.Event.{Event};
ghost use Rattle.cat_types.specs.declared.items.Item.{Item};
ghost use Rattle.change_codec.specs.Forms.{count_read, list_of};
ghost use Rattle.change_codec.specs.Records.{an_entry, an_item, event, newest};
ghost use Rattle.change_codec.specs.Whole.{Answers, AnswersWhole, GoesForward, at_by, fault_by, read_at, whole_by};
ghost use Rattle.change_codec.specs.declared.version.Version.TheVariants.{One};

use crate::fault::Stop;
use crate::reading::{Get, count_of};
use crate::version::Version;
use crate::writing::Put;
use crate::{CodecFault, Entry};
use cat_types::{Bytes, Event, Events, Item, Items, LIST_END, NoMemory};
use std::alloc::Global;

/// Adds the spelling of an event to `out`. After `NoMemory` `out` begins with what it held.
pub fn put_event(value: &Event, out: &mut Bytes) -> Result<(), NoMemory>
    ensures gathers { Gathers out.old out.new result ((event newest).code value.now) }
    ensures fits { OnOk result ((event newest).HasCode value.now) }
{
    value.put(out)
}

/// Adds the spelling of an item to `out`. After `NoMemory` `out` begins with what it held.
pub fn put_item(value: &Item, out: &mut Bytes) -> Result<(), NoMemory>
    ensures gathers { Gathers out.old out.new result ((an_item newest).code value.now) }
    ensures fits { OnOk result ((an_item newest).HasCode value.now) }
{
    value.put(out)
}

/// Adds the spelling of a list of items to `out`. After `NoMemory` `out` begins with what it held.
pub fn put_items(value: &Items, out: &mut Bytes) -> Result<(), NoMemory>
    ensures gathers { Gathers out.old out.new result ((list_of (an_item newest)).code value.now) }
    ensures fits { OnOk result ((list_of (an_item newest)).HasCode value.now) }
{
    value.put(out)
}

/// Adds the spelling of a list of events to `out`. After `NoMemory` `out` begins with what it held.
pub fn put_events(value: &Events, out: &mut Bytes) -> Result<(), NoMemory>
    ensures gathers { Gathers out.old out.new result ((list_of (event newest)).code value.now) }
    ensures fits { OnOk result ((list_of (event newest)).HasCode value.now) }
{
    value.put(out)
}

/// Adds the spelling of a journal's entry to `out`. After `NoMemory` `out` begins with what it held.
pub fn put_entry(value: &Entry, out: &mut Bytes) -> Result<(), NoMemory>
    ensures gathers { Gathers out.old out.new result ((an_entry newest).code value.now) }
    ensures fits { OnOk result ((an_entry newest).HasCode value.now) }
{
    value.put(out)
}

// The value that all of the bytes spell.
fn get_whole<T: Get>(alloc: Global, version: Version, bytes: &[u8]) -> Result<T, CodecFault>
    ensures { Answers result (whole_by (length bytes.now) (T.read version bytes.now)) }
{
    match T::get(alloc, version, bytes) {
        Ok((value, rest)) => {
            if !rest.is_empty() {
                return Err(fault_of(bytes.len(), Stop::Left(rest.len())));
            }
            Ok(value)
        }
        Err(stop) => Err(fault_of(bytes.len(), stop)),
    }
}

// The fault where so many bytes were handed in.
fn fault_of(count: usize, stop: Stop) -> CodecFault
    ensures { result ≡ fault_by count stop }
{
    match stop {
        Stop::Left(left) => CodecFault::BadRecord(count.saturating_sub(left) as u64),
        Stop::NoMemory => CodecFault::NoMemory,
    }
}

/// The event that all of the bytes spell.
pub fn get_event(alloc: Global, bytes: &[u8]) -> Result<Event, CodecFault>
    ensures { AnswersWhole (event One) bytes.now result }
{
    get_whole(alloc, Version::One, bytes)
}

/// The list of items that all of the bytes spell.
pub fn get_items(alloc: Global, bytes: &[u8]) -> Result<Items, CodecFault>
    ensures { AnswersWhole (list_of (an_item One)) bytes.now result }
{
    get_whole(alloc, Version::One, bytes)
}

/// The list of events that all of the bytes spell.
pub fn get_events(alloc: Global, bytes: &[u8]) -> Result<Events, CodecFault>
    ensures { AnswersWhole (list_of (event One)) bytes.now result }
{
    get_whole(alloc, Version::One, bytes)
}

/// The entry of a journal that all of the bytes spell.
pub fn get_entry(alloc: Global, bytes: &[u8]) -> Result<Entry, CodecFault>
    ensures { AnswersWhole (an_entry One) bytes.now result }
{
    get_whole(alloc, Version::One, bytes)
}

/// How many elements the list has whose spelling the bytes begin with, and the offset behind that
/// count: so a list can be judged one element after the other.
pub fn read_count(bytes: &[u8]) -> Result<(u32, u64), CodecFault>
    ensures { Answers result (at_by (length bytes.now) (count_read (LIST_END - 1) bytes.now)) }
{
    match count_of(bytes, LIST_END - 1) {
        Ok((count, rest)) => Ok((count as u32, bytes.len().saturating_sub(rest.len()) as u64)),
        Err(stop) => Err(fault_of(bytes.len(), stop)),
    }
}

// The value that is spelled from an offset on, and the offset behind it.
fn get_at<T: Get>(
    alloc: Global,
    version: Version,
    bytes: &[u8],
    at: u64,
) -> Result<(T, u64), CodecFault>
    requires { at ≤ length bytes.now }
    ensures { Answers result (read_at (T.read version) at bytes.now) }
{
    match T::get(alloc, version, &bytes[at as usize..]) {
        Ok((value, rest)) => Ok((value, bytes.len().saturating_sub(rest.len()) as u64)),
        Err(stop) => Err(fault_of(bytes.len(), stop)),
    }
}

/// The item that is spelled from an offset on, and the offset behind it.
pub fn next_item(alloc: Global, bytes: &[u8], at: u64) -> Result<(Item, u64), CodecFault>
    requires { at ≤ length bytes.now }
    ensures exact { Answers result (read_at (an_item One).read at bytes.now) }
    ensures forward { GoesForward at (length bytes.now) result }
{
    get_at(alloc, Version::One, bytes, at)
}

/// The event that is spelled from an offset on, and the offset behind it.
pub fn next_event(alloc: Global, bytes: &[u8], at: u64) -> Result<(Event, u64), CodecFault>
    requires { at ≤ length bytes.now }
    ensures exact { Answers result (read_at (event One).read at bytes.now) }
    ensures forward { GoesForward at (length bytes.now) result }
{
    get_at(alloc, Version::One, bytes, at)
}
