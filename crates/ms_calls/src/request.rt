//! What messages ask.

use cat_types::{Call, Reply, Text};

/// What a message asks.
#[derive(Drop)]
pub enum Asked {
    /// A call of the catalogue.
    Client(Call),
    /// A dump of the database `db`: of all of it, or of the events after `from`; these up to `to`,
    /// and at most `limit` numbers of them.
    Dump {
        db: Text,
        from: Option<i64>,
        to: Option<i64>,
        limit: Option<i64>,
    },
    /// A trim: the kept events up to this number are to be taken off.
    Trim(i64),
    /// A call that needs no catalogue: its reply.
    Plain(Reply),
    /// A call that nobody knows.
    Unknown,
    /// A call whose argument under this id is missing, or has a text that isn't UTF-8; it is the
    /// least such id.
    BadArgument(i16),
    /// The end of the session.
    Shutdown,
}
