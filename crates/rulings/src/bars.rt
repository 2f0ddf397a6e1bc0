//! What bars a change: replicas, and dumps and loads that are open.

ghost use Rattle.std.specs.Prelude.{◌≡◌};
ghost use Rattle.std.specs.List.{list_any};
ghost use Rattle.std.specs.Str.{bytes_eq};
ghost use Rattle.rulings.specs.Bars.{is_dumping, is_loading, is_replica, position};

use cat_types::{ListOf, Text, Texts};

/// A database that is a replica, and its position where it is live.
#[derive(Drop)]
pub struct ReplicaAt {
    pub db: Text,
    pub at: Option<u64>,
}

/// A list of replicas.
pub type ReplicaAts = ListOf<ReplicaAt>;

/// What bars changes of databases beside the catalogue itself.
#[derive(Drop)]
pub struct Bars {
    pub replicas: ReplicaAts,
    /// The databases with an open bootstrap dump, one element for each dump.
    pub dumping: Texts,
    /// The targets of open loads.
    pub loading: Texts,
}

impl Bars {
    /// Whether a database is a replica.
    pub fn is_replica(&self, name: &Text) -> bool
        ensures { result ≡ is_replica self.now name.now }
    {
        position_of(&self.replicas, name).is_some()
    }

    /// Whether a load of a database is open.
    pub fn is_loading(&self, name: &Text) -> bool
        ensures { result ≡ is_loading self.now name.now }
    {
        has_text(&self.loading, name)
    }

    /// Whether a bootstrap dump of a database is open.
    pub fn is_dumping(&self, name: &Text) -> bool
        ensures { result ≡ is_dumping self.now name.now }
    {
        has_text(&self.dumping, name)
    }
}

/// Whether a database is a replica, and its position where it is live.
pub fn position_of(replicas: &ReplicaAts, name: &Text) -> Option<Option<u64>>
    ensures { result ≡ position replicas.now name.now }
{
    for replica in replicas.as_slice() {
        if replica.db == *name {
            return Some(replica.at);
        }
    }
    None
}

// Whether a text stands in a list.
fn has_text(texts: &Texts, text: &Text) -> bool
    ensures { result ≡ list_any (bytes_eq text.now) texts.now }
{
    for one in texts.as_slice() {
        if *text == *one {
            return true;
        }
    }
    false
}
