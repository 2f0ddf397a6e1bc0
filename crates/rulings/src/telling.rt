//! How a decision is told, and changes with one operation.

ghost use Rattle.std.specs.Prelude.{◌≡◌, [], ◌∷◌, IfOk, None, OnErr, true};
ghost use Rattle.cat_types.specs.declared.replies.Reply.TheVariants.{Flag, Nothing};
ghost use Rattle.rulings.specs.Decisions.{Decides, accepted, refused};

use crate::{Decided, Refusal};
use cat_types::{Change, EventKind, ListOf, NoMemory, Op, Parts, Reply, Text, Texts};
use std::alloc::Global;

/// Tells a refusal, or want of memory for its text.
pub fn refused(alloc: Global, refusal: Refusal) -> Decided
    ensures { Decides (refused refusal) result }
{
    let number = refusal.number();
    match refusal.text(alloc) {
        Ok(text) => Decided::Reply(Reply::Refused(number, text)),
        Err(NoMemory) => Decided::NoMemory,
    }
}

/// Tells a change whose call has no result, or want of memory.
pub fn changed(made: Result<Change, NoMemory>) -> Decided
    ensures ok { IfOk made (λ change. result ≡ Decided.Change change Nothing) }
    ensures err { OnErr made (result ≡ Decided.NoMemory) }
{
    match made {
        Ok(change) => Decided::Change(change, Reply::Nothing),
        Err(NoMemory) => Decided::NoMemory,
    }
}

/// Tells a change whose call answers yes, or want of memory.
pub fn flagged(made: Result<Change, NoMemory>) -> Decided
    ensures ok { IfOk made (λ change. result ≡ Decided.Change change (Flag true)) }
    ensures err { OnErr made (result ≡ Decided.NoMemory) }
{
    match made {
        Ok(change) => Decided::Change(change, Reply::Flag(true)),
        Err(NoMemory) => Decided::NoMemory,
    }
}

/// Tells partitions that a call results in, or want of memory.
pub fn told_parts(made: Result<Parts, NoMemory>) -> Decided
    ensures ok { IfOk made (λ parts. Decides (accepted None (Reply.Parts parts)) result) }
    ensures err { OnErr made (result ≡ Decided.NoMemory) }
{
    match made {
        Ok(parts) => Decided::Reply(Reply::Parts(parts)),
        Err(NoMemory) => Decided::NoMemory,
    }
}

/// Tells names that a call results in, or want of memory.
pub fn told_names(made: Result<Texts, NoMemory>) -> Decided
    ensures ok { IfOk made (λ names. Decides (accepted None (Reply.Names names)) result) }
    ensures err { OnErr made (result ≡ Decided.NoMemory) }
{
    match made {
        Ok(names) => Decided::Reply(Reply::Names(names)),
        Err(NoMemory) => Decided::NoMemory,
    }
}

/// A change with one operation. `db_born` is the number of the event that made the database.
pub fn one_op(
    alloc: Global,
    kind: EventKind,
    db: Text,
    db_born: u64,
    op: Op,
) -> Result<Change, NoMemory>
    ensures { IfOk result (λ made. made ≡ record { kind = kind; db = db; db_born = db_born; ops = op ∷ [] }) }
{
    let ops = ListOf::from_vec(vec![in alloc; op]?)?;
    Ok(Change {
        kind,
        db,
        db_born,
        ops,
    })
}
