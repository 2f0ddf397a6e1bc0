//! What stands at the name of a table after operations.

ghost use Rattle.std.specs.Prelude.{◌≡◌, ℕ, true};
ghost use Rattle.std.specs.Cmp.Lexicographic.{slice_cmp};
ghost use Rattle.std.specs.List.Sorted.{IsStrictlySortedBy};
ghost use Rattle.std.specs.Map.{keys_of};
ghost use Rattle.std.specs.Option.{option_map};
ghost use Rattle.std.specs.Ordering.{nat_cmp};
ghost use Rattle.cat_objects.specs.Catalogue.{at_name, database, is_name, tables_of};
ghost use Rattle.cat_objects.specs.Changes.{done_ops, is_put_db};
ghost use Rattle.cat_objects.specs.Lawful.{keep_database};
ghost use Rattle.cat_objects.specs.Seen.{seen_after, seen_after_all, seen_of, shape_of, table_after};

use crate::{Cat, HeldDb};
use cat_types::{Op, Text};

/// A table as its born and the number of its keys.
#[derive(Clone, Copy)]
pub struct Shape {
    pub born: u64,
    pub keys: usize,
}

/// What is seen at the name of a table: whether its database is there, and the table.
#[derive(Clone, Copy)]
pub struct Seen {
    pub there: bool,
    pub table: Option<Shape>,
}

impl Cat {
    // What is seen at a name after operations. It takes no memory.
    pub(crate) fn seen_after_all(&self, db: &Text, name: &Text, before: &[Op]) -> Seen
        requires { keep_database before.now ≡ true }
        ensures { (born : ℕ) → result ≡ seen_of (database (done_ops db.now born self.now before.now) db.now) name.now }
    {
        let first = self.seen(db, name);
        after_all(first, name, before)
    }

    // What is seen at a name, and that the names of the database's tables rise.
    pub(crate) fn seen(&self, db: &Text, name: &Text) -> Seen
        ensures seen { result ≡ seen_of (database self.now db.now) name.now }
        ensures rising { IsStrictlySortedBy (slice_cmp nat_cmp) (keys_of (tables_of (database self.now db.now))) }
    {
        match self.held_database(db) {
            Some(held) => Seen {
                there: true,
                table: shape_in(held, name),
            },
            None => Seen {
                there: false,
                table: None,
            },
        }
    }
}

// The shape of a table in a database.
fn shape_in(held: &HeldDb, name: &Text) -> Option<Shape>
    ensures shape { result ≡ option_map shape_of (at_name name.now held.now.tables) }
    ensures rising { IsStrictlySortedBy (slice_cmp nat_cmp) (keys_of held.now.tables) }
{
    let _tables = held.tables.iter();
    let table = held.tables.get(name)?;
    Some(Shape {
        born: table.born,
        keys: table.rec.keys.len(),
    })
}

// What is seen at a name after operations.
fn after_all(first: Seen, name: &Text, ops: &[Op]) -> Seen
    ensures { result ≡ seen_after_all name.now ops.now first }
{
    let mut seen = first;
    for op in ops {
        seen = after(seen, name, op);
    }
    seen
}

// What is seen at a name after one operation.
fn after(seen: Seen, name: &Text, op: &Op) -> Seen
    ensures { result ≡ seen_after name.now op.now seen }
{
    if seen.there {
        Seen {
            there: true,
            table: table_after(seen.table, name, op),
        }
    } else {
        Seen {
            there: makes_database(op),
            table: seen.table,
        }
    }
}

// What stands at a name after one operation on a database that is there.
fn table_after(found: Option<Shape>, name: &Text, op: &Op) -> Option<Shape>
    ensures { result ≡ table_after name.now op.now found }
{
    match op {
        Op::PutTable { table, born, rec } => {
            if is_same(name, table) {
                Some(Shape {
                    born: *born,
                    keys: rec.keys.len(),
                })
            } else {
                found
            }
        }
        Op::DropTable { table, born: _ } => { if is_same(name, table) { None } else { found } }
        Op::MoveTable {
            table,
            born,
            to,
            rec,
        } => {
            if is_same(name, table) {
                None
            } else if is_same(name, to) {
                Some(Shape {
                    born: *born,
                    keys: rec.keys.len(),
                })
            } else {
                found
            }
        }
        Op::PutDb { .. }
        | Op::DropDb
        | Op::PutPart { .. }
        | Op::DropPart { .. }
        | Op::MovePart { .. } => found,
    }
}

fn makes_database(op: &Op) -> bool
    ensures { result ≡ is_put_db op.now }
{
    match op {
        Op::PutDb { .. } => true,
        Op::DropDb
        | Op::PutTable { .. }
        | Op::DropTable { .. }
        | Op::MoveTable { .. }
        | Op::PutPart { .. }
        | Op::DropPart { .. }
        | Op::MovePart { .. } => false,
    }
}

// Whether two names are the same.
pub(crate) fn is_same(name: &Text, other: &Text) -> bool
    ensures { result ≡ is_name name.now other.now }
{
    name.cmp(other).is_eq()
}
