//! The statistics of columns, kept by the columns' names.

ghost use Rattle.std.specs.Prelude.{◌≡◌, is_some, OnOk, OnErr};
ghost use Rattle.std.specs.BTreeMap.{insert_entry, is_at};
ghost use Rattle.std.specs.Cmp.Lexicographic.{slice_cmp};
ghost use Rattle.std.specs.Map.{lookup, remove_entry};
ghost use Rattle.std.specs.Ordering.{nat_cmp};

use cat_values::{NoMemory, StatRec, Stats, Text};

/// Keeps a column's statistics, over those that were kept of it. After `NoMemory` all are as
/// before.
pub fn put(stats: &mut Stats, col: Text, rec: StatRec) -> Result<(), NoMemory>
    ensures ok { OnOk result (stats.new ≡ insert_entry (slice_cmp nat_cmp) stats.old col rec) }
    ensures err { OnErr result (stats.new ≡ stats.old) }
{
    stats.put(col, rec)
}

/// Drops a column's statistics, and answers whether there were any.
pub fn remove(stats: &mut Stats, col: &Text) -> bool
    ensures found { result ≡ is_some (lookup (is_at (slice_cmp nat_cmp col.now)) stats.old) }
    ensures entries { stats.new ≡ remove_entry (is_at (slice_cmp nat_cmp col.now)) stats.old }
{
    stats.remove(col).is_some()
}
