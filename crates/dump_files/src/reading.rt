//! Reading a file's elements one after the other, each judged as soon as it is read.

ghost use Rattle.std.specs.List.{last_or};
ghost use Rattle.std.specs.Option.{option_copied};
ghost use Rattle.std.specs.Prelude.{◌≡◌, ◌≤◌, ◌-◌, List, None, OnErr, drop, length, ℕ};
ghost use Rattle.cat_values.specs.declared.list_of.TheConstants.{LIST_END};
ghost use Rattle.change_codec.specs.Forms.{Reading, count_read};
ghost use Rattle.change_codec.specs.Whole.{whole_by};
ghost use Rattle.dump_files.specs.Files.{BeginsWith, Judges, Rule, element_read, elements_read, file_read};
ghost use Rattle.dump_files.specs.Steps.{Comes, Grows, GrowsByOne};
ghost use Rattle.dump_files.specs.declared.bounds.Bounds.{Bounds};

use crate::{Bounds, FileFault};
use cat_types::ListOf;
use change_codec::read_count;
use std::alloc::Global;

/// An element of a dump's files.
pub trait Judged: Drop {
    /// How it is read.
    ghost read: { List ℕ → Reading Self };

    /// Where it may stand in a dump.
    ghost rule: { Bounds → Rule Self };

    /// The element from an offset on, and the offset behind it.
    fn next(alloc: Global, bytes: &[u8], at: u64) -> Result<(Self, u64), FileFault>
        requires { at ≤ length bytes.now }
        ensures { Comes bytes.now (read (drop at bytes.now)) result };

    /// Whether it may stand behind the last element, at a place in its file.
    fn may_stand(&self, bounds: &Bounds, last: Option<&Self>, place: u32) -> bool
        ensures { result ≡ rule bounds.now (option_copied last.entry) place self.now };
}

/// Adds the elements of one file to those of the files before it. After a fault `elements` begins
/// with what it held.
pub fn read_file<T: Judged>(
    alloc: Global,
    bounds: &Bounds,
    bytes: &[u8],
    elements: &mut ListOf<T>,
) -> Result<(), FileFault>
    ensures kept { BeginsWith elements.old elements.new }
    ensures exact { Judges (whole_by (length bytes.now) (file_read (T.rule bounds.now) (last_or None elements.old) T.read bytes.now)) elements.old elements.new result }
{
    let (count, first) = count_of(bytes)?;
    if count == 0 {
        return Err(FileFault::Grammar(first));
    }
    let behind = read_elements(alloc, bounds, bytes, first, count, elements)?;
    if behind < bytes.len() as u64 {
        return Err(FileFault::Grammar(behind));
    }
    Ok(())
}

// The count that a file begins with, and the offset behind it.
fn count_of(bytes: &[u8]) -> Result<(u32, u64), FileFault>
    ensures { Comes bytes.now (count_read (LIST_END - 1) bytes.now) result }
{
    match read_count(bytes) {
        Ok(count) => Ok(count),
        Err(fault) => Err(FileFault::from(fault)),
    }
}

// Adds so many elements from an offset on, and answers the offset behind them.
fn read_elements<T: Judged>(
    alloc: Global,
    bounds: &Bounds,
    bytes: &[u8],
    first: u64,
    count: u32,
    elements: &mut ListOf<T>,
) -> Result<u64, FileFault>
    requires { first ≤ length bytes.now }
    ensures kept { BeginsWith elements.old elements.new }
    ensures exact { Grows bytes.now (elements_read (T.rule bounds.now) T.read count (last_or None elements.old) 0 (drop first bytes.now)) elements.old elements.new result }
{
    let mut at = first;
    for place in 0..count {
        at = read_element(alloc, bounds, bytes, at, place, elements)?;
    }
    Ok(at)
}

// Adds the element from an offset on, where it may stand there, and answers the offset behind it.
fn read_element<T: Judged>(
    alloc: Global,
    bounds: &Bounds,
    bytes: &[u8],
    at: u64,
    place: u32,
    elements: &mut ListOf<T>,
) -> Result<u64, FileFault>
    requires { at ≤ length bytes.now }
    ensures kept { OnErr result (elements.new ≡ elements.old) }
    ensures exact { GrowsByOne bytes.now (element_read (T.rule bounds.now (last_or None elements.old) place) T.read (drop at bytes.now)) elements.old elements.new result }
{
    let (element, behind) = T::next(alloc, bytes, at)?;
    if !element.may_stand(bounds, last_of(elements), place) {
        drop(element);
        return Err(FileFault::Grammar(at));
    }
    elements.push(element)?;
    Ok(behind)
}

// The last element of a list.
fn last_of<T>(elements: &ListOf<T>) -> Option<&T>
    ensures { option_copied result ≡ last_or None elements.now }
{
    elements.as_slice().last()
}
