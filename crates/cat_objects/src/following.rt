//! Whether a partition stands after operations.

ghost use Rattle.std.specs.Prelude.{◌≡◌, ℕ, true, not, ◌&&◌, ◌||◌};
ghost use Rattle.std.specs.Cmp.Lexicographic.{slice_cmp};
ghost use Rattle.std.specs.List.Sorted.{IsStrictlySortedBy};
ghost use Rattle.std.specs.Map.{keys_of};
ghost use Rattle.std.specs.Option.{option_copied};
ghost use Rattle.std.specs.Ordering.{nat_cmp};
ghost use Rattle.cat_objects.specs.Catalogue.{has_part, parts_of, table};
ghost use Rattle.cat_objects.specs.Changes.{done_ops};
ghost use Rattle.cat_objects.specs.Lawful.{keep_database};
ghost use Rattle.cat_objects.specs.Parts.{are_values};
ghost use Rattle.cat_objects.specs.Seen.{name_before, puts, takes, touched};

use crate::Cat;
use crate::seen::is_same;
use cat_types::{Op, Text, Texts};

/// What an operation does to a partition.
#[derive(Clone, Copy)]
pub enum Touch {
    Nothing,
    Puts,
    Takes,
}

impl Cat {
    // Whether a partition is there after operations. It follows the table back to the name that it has
    // in the catalogue, past what took the partition out, since only there are its values known to
    // rise, so that none stands twice. It takes no memory.
    pub(crate) fn stands_after(&self, db: &Text, name: &Text, values: &Texts, before: &[Op]) -> bool
        requires { keep_database before.now ≡ true }
        ensures { (born : ℕ) → result ≡ has_part (done_ops db.now born self.now before.now) db.now name.now values.now }
    {
        let _first = self.seen(db, name);
        let mut name = name;
        let mut rest = before;
        let mut taken = false;
        while let Some((op, front)) = rest.split_last() {
            let Some(before) = name_before(name, op) else {
                return false;
            };
            let touch = touched(name, values, op);
            if ends(touch, taken) {
                return self.seen_after_all(db, name, front).table.is_some();
            }
            taken = is_taken(touch, taken);
            name = before;
            rest = front;
        }
        let there = self.held_part(db, name, values);
        but_not(there, taken)
    }

    // Whether a partition is there, and that the values of its table's partitions rise.
    fn held_part(&self, db: &Text, name: &Text, values: &Texts) -> bool
        ensures there { result ≡ has_part self.now db.now name.now values.now }
        ensures rising { IsStrictlySortedBy (slice_cmp (slice_cmp nat_cmp)) (keys_of (parts_of (table self.now db.now name.now))) }
    {
        let Some(held) = self.held_table(db, name) else {
            return false;
        };
        let _parts = held.parts.iter();
        held.parts.get(values).is_some()
    }
}

// The name that the table at a name had before an operation; none where the operation took it away.
fn name_before<'a>(name: &'a Text, op: &'a Op) -> Option<&'a Text>
    ensures { option_copied result ≡ name_before name.now op.now }
{
    match op {
        Op::DropTable { table, born: _ } => {
            if is_same(name, table) {
                None
            } else {
                Some(name)
            }
        }
        Op::MoveTable {
            table,
            born: _,
            to,
            rec: _,
        } => {
            if is_same(name, table) {
                None
            } else if is_same(name, to) {
                Some(table)
            } else {
                Some(name)
            }
        }
        Op::PutDb { .. }
        | Op::DropDb
        | Op::PutTable { .. }
        | Op::PutPart { .. }
        | Op::DropPart { .. }
        | Op::MovePart { .. } => Some(name),
    }
}

// What an operation does to the partition with these values under a name.
fn touched(name: &Text, values: &Texts, op: &Op) -> Touch
    ensures { result ≡ touched name.now values.now op.now }
{
    match op {
        Op::PutPart {
            table,
            born: _,
            values: put,
            rec: _,
        } => {
            if is_same(name, table) && are_same(values, put) {
                Touch::Puts
            } else {
                Touch::Nothing
            }
        }
        Op::DropPart {
            table,
            born: _,
            values: dropped,
        } => {
            if is_same(name, table) && are_same(values, dropped) {
                Touch::Takes
            } else {
                Touch::Nothing
            }
        }
        Op::MovePart {
            table,
            born: _,
            values: from,
            to,
            rec: _,
        } => {
            if !is_same(name, table) {
                Touch::Nothing
            } else if are_same(values, from) {
                Touch::Takes
            } else if are_same(values, to) {
                Touch::Puts
            } else {
                Touch::Nothing
            }
        }
        Op::PutDb { .. }
        | Op::DropDb
        | Op::PutTable { .. }
        | Op::DropTable { .. }
        | Op::MoveTable { .. } => Touch::Nothing,
    }
}

// Whether two lists of values are the same.
fn are_same(values: &Texts, other: &Texts) -> bool
    ensures { result ≡ are_values values.now other.now }
{
    values.cmp(other).is_eq()
}

// Whether what an operation does to a partition tells that it stands: it puts it, and none later took
// it out.
fn ends(touch: Touch, taken: bool) -> bool
    ensures { result ≡ (puts touch && not taken) }
{
    match touch {
        Touch::Puts => !taken,
        Touch::Nothing | Touch::Takes => false,
    }
}

// Whether a partition is taken out by an operation, or by a later one.
fn is_taken(touch: Touch, taken: bool) -> bool
    ensures { result ≡ (takes touch || taken) }
{
    match touch {
        Touch::Takes => true,
        Touch::Nothing | Touch::Puts => taken,
    }
}

// Whether one thing holds, and another doesn't.
pub(crate) fn but_not(one: bool, other: bool) -> bool
    ensures { result ≡ (one && not other) }
{
    one && !other
}
