//! What structs say, proved over all of them.

ghost use Rattle.ms_structs.specs.Database.{database_of};
ghost use Rattle.ms_structs.specs.Laws.{BadMapsAreTold, DatabaseIsSaid, LastPairCounts, OrderIsFree, WrittenIsRead};

/// A database is made of what the last field with each known id says, of those that say something:
/// fields with unknown ids, or of another type, count for nothing.
pub fn database_is_said()
    ensures { DatabaseIsSaid }
{}

/// The order of fields with different ids doesn't count.
pub fn order_is_free()
    ensures { OrderIsFree database_of }
{}

/// Of the pairs of a map from texts to texts the last one with a key counts.
pub fn last_pair_counts()
    ensures { LastPairCounts }
{}

/// A map from texts to texts is a bad text exactly where some key isn't UTF-8, or the last value of
/// some key isn't.
pub fn bad_maps_are_told()
    ensures { BadMapsAreTold }
{}

/// A database that is written reads back as it was.
pub fn written_is_read()
    ensures { WrittenIsRead }
{}
