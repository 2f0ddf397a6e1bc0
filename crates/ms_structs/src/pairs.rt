//! The pairs of a map while they come.

ghost use Rattle.std.specs.Prelude.{◌≡◌, [], OnOk};
ghost use Rattle.std.specs.BTreeMap.{insert_entry, is_at};
ghost use Rattle.std.specs.Map.{remove_entry};
ghost use Rattle.ms_structs.specs.Values.{put_value};

use crate::Got;
use cat_types::{MapOf, NoMemory};
use std::alloc::Global;

/// The pairs of a map that came so far.
#[derive(Drop)]
pub struct PairsSoFar<K: Ord, V> {
    pub pairs: MapOf<K, V>,
    /// The keys whose last value is a text that isn't UTF-8.
    pub spoiled: MapOf<K, ()>,
}

impl<K: Ord + Drop, V: Drop> PairsSoFar<K, V> {
    /// No pairs.
    pub fn new(alloc: Global) -> PairsSoFar<K, V>
        ensures pairs { result.pairs ≡ [] }
        ensures spoiled { result.spoiled ≡ [] }
    {
        PairsSoFar {
            pairs: MapOf::new(alloc),
            spoiled: MapOf::new(alloc),
        }
    }

    /// Puts a pair over the one with its key.
    pub fn put(&mut self, key: K, value: Got<V>) -> Result<(), NoMemory>
        ensures { OnOk result (self.new ≡ put_value K.cmp self.old key value) }
    {
        match value {
            Got::Nothing => Ok(()),
            Got::BadText => self.spoiled.put(key, ()),
            Got::Is(value) => {
                let _spoiled = self.spoiled.remove(&key);
                self.pairs.put(key, value)
            }
        }
    }
}
