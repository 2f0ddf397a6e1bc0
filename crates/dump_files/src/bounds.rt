//! What the files of a dump are judged against.

use cat_types::Text;

/// What a dump's manifest says of its items and events: the database, the event numbers `begin` and
/// `end` of the dump, and the number of the event that made the database.
#[derive(Drop)]
pub struct Bounds {
    pub db: Text,
    pub begin: u64,
    pub end: u64,
    pub born: u64,
}
