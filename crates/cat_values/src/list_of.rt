//! A list with fewer than 2^31 elements.

ghost use Rattle.std.specs.Prelude.{◌≡◌, ◌<◌, ◌≤◌, [], ◌∷◌, ◌++◌, ◌↔◌, length, slice_get, IsTrue, IfOk, OnOk, OnErr, MatchOption, OnSome};
ghost use Rattle.std.specs.Option.{option_copied};
ghost use Rattle.std.specs.Cmp.Lexicographic.{pointwise, lists_agrees, lists_equiv, lists_per, lists_po, lists_ties, lists_total, slice_cmp, slice_partial_cmp};

use crate::{NoMemory, Text, TryCopy};
use std::alloc::Global;
use std::cmp::Ordering;
use std::marker::Model;

/// A list of bytes.
pub type Bytes = ListOf<u8>;

/// A list of texts.
pub type Texts = ListOf<Text>;

/// How many elements a list has fewer than.
pub const LIST_END: usize = 2_147_483_648;

/// Fewer than `LIST_END` elements, which contracts see as the list of them.
#[derive(Drop)]
pub struct ListOf<T> {
    items: Vec<T>,
}

impl<T> Model for ListOf<T> {
    ghost use Rattle.std.specs.Prelude.{List, ◌<◌, vec_len};
    ghost use Rattle.std.specs.Coded.{coded_list};
    ghost use Rattle.cat_values.specs.declared.list_of.TheConstants.{LIST_END};

    ghost Value = { List T };

    ghost coded = { coded_list T.code };

    ghost view = { λ it. it.items.items };

    ghost invariant = { λ it. vec_len it.items < LIST_END };
}

impl<T> ListOf<T> {
    pub fn new(alloc: Global) -> ListOf<T>
        ensures { result ≡ [] }
    {
        ListOf {
            items: Vec::new(alloc),
        }
    }

    pub fn len(&self) -> usize
        ensures count { result ≡ length self.now }
        ensures bounded { result < LIST_END }
    {
        self.items.len()
    }

    pub fn is_empty(&self) -> bool
        ensures { IsTrue result ↔ (self.now ≡ []) }
    {
        self.items.is_empty()
    }

    pub fn as_slice(&self) -> &[T]
        ensures items { result.now ≡ self.now }
        ensures bounded { length self.now < LIST_END }
    {
        self.items.as_slice()
    }

    /// The element at a place that is counted from 0.
    pub fn get(&self, at: usize) -> Option<&T>
        ensures value { option_copied result ≡ slice_get self.now at }
        ensures within { OnSome result (at < length self.now) }
    {
        self.items.get(at)
    }

    /// Gives the elements back, without taking memory.
    pub fn into_vec(self) -> Vec<T>
        ensures { result.items ≡ self }
    {
        let ListOf { items } = self;
        items
    }
}

impl<T: Drop> ListOf<T> {
    /// The list of these elements, without taking memory.
    pub fn from_vec(items: Vec<T>) -> Result<ListOf<T>, NoMemory>
        ensures ok { IfOk result (λ list. list ≡ items.items) }
        ensures full { OnErr result (LIST_END ≤ length items.items) }
    {
        if items.len() >= LIST_END {
            return Err(NoMemory);
        }
        Ok(ListOf { items })
    }

    /// Adds an element at the end; after `NoMemory` the list is as before.
    pub fn push(&mut self, item: T) -> Result<(), NoMemory>
        ensures ok { OnOk result (self.new ≡ self.old ++ item ∷ []) }
        ensures err { OnErr result (self.new ≡ self.old) }
    {
        if self.items.len() + 1 >= LIST_END {
            return Err(NoMemory);
        }
        self.items.push(item)?;
        Ok(())
    }
}

impl<T: Copy> ListOf<T> {
    /// The list of these elements, copied.
    pub fn from_slice(alloc: Global, items: &[T]) -> Result<ListOf<T>, NoMemory>
        ensures { IfOk result (λ list. list ≡ items.now) }
    {
        ListOf::from_vec(Vec::from_slice(alloc, items)?)
    }

    /// Adds copies of these elements at the end; after `NoMemory` the list is as before.
    pub fn extend_from_slice(&mut self, items: &[T]) -> Result<(), NoMemory>
        ensures ok { OnOk result (self.new ≡ self.old ++ items.now) }
        ensures err { OnErr result (self.new ≡ self.old) }
    {
        if items.len() >= LIST_END - self.items.len() {
            return Err(NoMemory);
        }
        self.items.extend_from_slice(items)?;
        Ok(())
    }
}

impl<T: TryCopy> TryCopy for ListOf<T> {
    fn copy(&self, alloc: Global) -> Result<ListOf<T>, NoMemory> {
        let mut items = Vec::with_capacity(alloc, self.items.len())?;
        for item in &self.items {
            items.push(item.copy(alloc)?)?;
        }
        Ok(ListOf { items })
    }
}

impl<T: PartialEq> PartialEq for ListOf<T> {
    ghost eq = { pointwise T.eq };

    ghost laws = { lists_per T.laws };

    fn eq(&self, other: &ListOf<T>) -> bool {
        self.items.as_slice() == other.items.as_slice()
    }
}

impl<T: Eq> Eq for ListOf<T> {
    ghost laws = { lists_equiv T.Eq.laws };
}

impl<T: PartialOrd> PartialOrd for ListOf<T> {
    ghost partial_cmp = { slice_partial_cmp T.partial_cmp };

    ghost laws = { lists_po T.PartialOrd.laws };

    fn partial_cmp(&self, other: &ListOf<T>) -> Option<Ordering> {
        self.items.as_slice().partial_cmp(other.items.as_slice())
    }
}

impl<T: Ord> Ord for ListOf<T> {
    ghost cmp = { slice_cmp T.cmp };

    ghost total = { lists_total T.total };

    ghost matches_partial_cmp = { lists_agrees T.matches_partial_cmp };

    ghost matches_eq = { lists_ties T.cmp T.matches_eq };

    fn cmp(&self, other: &ListOf<T>) -> Ordering {
        self.items.as_slice().cmp(other.items.as_slice())
    }
}
