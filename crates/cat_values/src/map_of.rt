//! A map with fewer than 2^31 pairs.

ghost use Rattle.std.specs.Prelude.{◌≡◌, ◌<◌, ◌≤◌, ◌+◌, ◌-◌, [], length, slice_get, IfOk, OnOk, OnErr};
ghost use Rattle.std.specs.List.{find};
ghost use Rattle.std.specs.Option.{option_copied, option_map};
ghost use Rattle.std.specs.BTreeMap.{btree_map_len, insert_entry, is_at};
ghost use Rattle.std.specs.List.Sorted.{IsStrictlySortedBy};
ghost use Rattle.std.specs.Map.{keys_of, lookup, remove_entry, set_value};
ghost use Rattle.std.specs.Ordering.{is_lt};
ghost use Rattle.cat_values.specs.Maps.{first_after};

use crate::{ListOf, NoMemory, Text, TryCopy};
use std::alloc::Global;
use std::collections::BTreeMap;
use std::collections::btree_map::Iter;
use std::marker::Model;
use std::mem;
use std::ops::Bound;

/// A map from texts to texts, the parameters of an object.
pub type Params = MapOf<Text, Text>;

/// How many pairs a map has fewer than.
pub const MAP_END: usize = 2_147_483_648;

/// A map, which contracts see as the list of its pairs in rising order of their keys.
#[derive(Drop)]
pub struct MapOf<K: Ord, V> {
    inner: BTreeMap<K, V>,
}

impl<K: Ord, V> Model for MapOf<K, V> {
    ghost use Rattle.std.specs.Prelude.{List, ◌<◌};
    ghost use Rattle.std.specs.BTreeMap.{btree_map_len};
    ghost use Rattle.std.specs.Coded.{coded_list, coded×};
    ghost use Rattle.cat_values.specs.declared.map_of.TheConstants.{MAP_END};

    ghost Value = { List (K × V) };

    ghost coded = { coded_list (coded× K.code V.code) };

    ghost view = { λ m. m.inner.entries };

    ghost invariant = { λ m. btree_map_len m.inner < MAP_END };
}

impl<K: Ord, V> MapOf<K, V> {
    pub fn new(alloc: Global) -> MapOf<K, V>
        ensures { result ≡ [] }
    {
        MapOf {
            inner: BTreeMap::new(alloc),
        }
    }

    pub fn len(&self) -> usize
        ensures count { result ≡ length self.now }
        ensures bounded { result < MAP_END }
    {
        self.inner.len()
    }

    /// The value at a key.
    pub fn get(&self, key: &K) -> Option<&V>
        ensures { option_copied result ≡ lookup (is_at (K.cmp key.now)) self.now }
    {
        self.inner.get(key)
    }

    /// The greatest key.
    pub fn last_key(&self) -> Option<&K>
        ensures { option_copied result ≡ slice_get (keys_of self.now) (length self.now - 1) }
    {
        match self.inner.last_key_value() {
            Some((key, _)) => Some(key),
            None => None,
        }
    }

    /// The pair of the first key above this one, or of the least key. It takes no memory.
    pub fn after(&self, after: Option<&K>) -> Option<(&K, &V)>
        ensures { option_map (λ found. (found.0.now, found.1.now)) result ≡ first_after K.cmp (option_copied after.entry) self.now }
    {
        match after {
            Some(key) => first_above(&self.inner, key),
            None => self.inner.iter().next(),
        }
    }

    /// The pairs, in rising order of their keys.
    pub fn iter(&self) -> Iter<'_, K, V>
        ensures pairs { result ≡ self.now }
        ensures sorted { IsStrictlySortedBy K.cmp (keys_of self.now) }
        ensures bounded { length self.now < MAP_END }
    {
        self.inner.iter()
    }
}

impl<K: Ord + TryCopy, V> MapOf<K, V> {
    /// The keys, in rising order.
    pub fn keys(&self, alloc: Global) -> Result<ListOf<K>, NoMemory>
        ensures { IfOk result (λ list. list ≡ keys_of self.now) }
    {
        let mut list = ListOf::new(alloc);
        for key in self.inner.keys() {
            let new_key = key.copy(alloc)?;
            list.push(new_key)?;
        }
        Ok(list)
    }
}

impl<K: Ord + Drop, V: Drop> MapOf<K, V> {
    /// Puts a value at a key, over the one that was there. After `NoMemory` the map is as before.
    pub fn put(&mut self, key: K, value: V) -> Result<(), NoMemory>
        ensures ok { OnOk result (self.new ≡ insert_entry K.cmp self.old key value) }
        ensures err { OnErr result (self.new ≡ self.old) }
    {
        if self.inner.len() + 1 >= MAP_END {
            return Err(NoMemory);
        }
        insert_pair(&mut self.inner, key, value)
    }

    /// Takes the pair at a key out, and gives its value. Without that key the map stays as it was.
    pub fn remove(&mut self, key: &K) -> Option<V>
        ensures value { result ≡ lookup (is_at (K.cmp key.now)) self.old }
        ensures entries { self.new ≡ remove_entry (is_at (K.cmp key.now)) self.old }
    {
        self.inner.remove(key)
    }

    /// Puts a value in the place of the one at a key, and gives that one, without taking memory.
    /// Without that key the map stays as it was.
    pub fn swap(&mut self, key: &K, value: V) -> Option<V>
        ensures value { result ≡ lookup (is_at (K.cmp key.now)) self.old }
        ensures entries { self.new ≡ set_value (is_at (K.cmp key.now)) self.old value }
    {
        let Some(place) = self.inner.get_mut(key) else {
            return None;
        };
        Some(mem::replace(place, value))
    }
}

// The first pair whose key is above this one.
fn first_above<'a, K: Ord, V>(inner: &'a BTreeMap<K, V>, key: &K) -> Option<(&'a K, &'a V)>
    ensures { option_map (λ found. (found.0.now, found.1.now)) result ≡ find (λ entry. is_lt (K.cmp key.now entry.0)) inner.now.entries }
{
    inner.range((Bound::Excluded(key), Bound::Unbounded)).next()
}

// Puts a value at a key, and drops the one that was there.
fn insert_pair<K: Ord + Drop, V: Drop>(
    inner: &mut BTreeMap<K, V>,
    key: K,
    value: V,
) -> Result<(), NoMemory>
    ensures ok { OnOk result (inner.new.entries ≡ insert_entry K.cmp inner.old.entries key value) }
    ensures err { OnErr result (inner.new.entries ≡ inner.old.entries) }
    ensures len { btree_map_len inner.new ≤ btree_map_len inner.old + 1 }
{
    inner.insert(key, value)?;
    Ok(())
}

impl<K: Ord + TryCopy, V: TryCopy> TryCopy for MapOf<K, V> {
    fn copy(&self, alloc: Global) -> Result<MapOf<K, V>, NoMemory> {
        let mut inner = BTreeMap::new(alloc);
        for (key, value) in self.inner.iter() {
            let new_key = key.copy(alloc)?;
            let new_value = value.copy(alloc)?;
            insert_pair(&mut inner, new_key, new_value)?;
        }
        Ok(MapOf { inner })
    }
}
