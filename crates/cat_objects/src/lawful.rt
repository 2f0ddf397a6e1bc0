//! Whether an operation is lawful on a database as other operations leave it.

ghost use Rattle.std.specs.Prelude.{◌≡◌, ℕ, true, not, ◌&&◌, List, is_some, IfOk};
ghost use Rattle.cat_objects.specs.Changes.{done_ops};
ghost use Rattle.cat_objects.specs.Lawful.{is_lawful, keep_database};
ghost use Rattle.cat_objects.specs.Seen.{goes_over, has_keys_of, has_room};
ghost use Rattle.cat_values.specs.declared.records.PartRec.{PartRec};
ghost use Rattle.cat_types.specs.declared.changes.Op.TheVariants as op;

use crate::Cat;
use crate::following::but_not;
use crate::replaying::are_valid;
use crate::seen::Shape;
use cat_rules::object_name;
use cat_types::{NoMemory, Op, Ops, TableRec, Text, Texts};

impl Cat {
    /// Whether an operation is lawful on the database with this name, which is in lower case, as the
    /// operations of `before` leave it, none of which drops it. `NoMemory` alone is an error.
    pub fn lawful(&self, db: &Text, before: &Ops, op: &Op) -> Result<bool, NoMemory>
        requires { keep_database before.now ≡ true }
        ensures { (born : ℕ) → IfOk result (λ lawful. lawful ≡ is_lawful (done_ops db.now born self.now before.now) db.now op.now) }
    {
        let before = before.as_slice();
        match op {
            Op::PutDb { .. } | Op::DropDb => Ok(true),
            Op::PutTable { table, born, rec } => self.lawful_table(db, before, table, *born, rec),
            Op::MoveTable {
                table,
                born: _,
                to,
                rec,
            } => self.lawful_move(db, before, table, to, rec),
            Op::PutPart {
                table,
                born: _,
                values,
                rec: _,
            } => Ok(self.lawful_part(db, before, table, values)),
            Op::MovePart {
                table,
                born: _,
                values: _,
                to,
                rec: _,
            } => Ok(self.lawful_part_move(db, before, table, to)),
            Op::DropTable { table, .. } | Op::DropPart { table, .. } => Ok(object_name(table)),
        }
    }

    // A table that is put.
    fn lawful_table(
        &self,
        db: &Text,
        before: &[Op],
        name: &Text,
        born: u64,
        rec: &TableRec,
    ) -> Result<bool, NoMemory>
        requires { keep_database before.now ≡ true }
        ensures { (made : ℕ) → IfOk result (λ lawful. lawful ≡ is_lawful (done_ops db.now made self.now before.now) db.now (op.PutTable name.now born rec.now)) }
    {
        let named = self.is_lawful_table(name, rec)?;
        let seen = self.seen_after_all(db, name, before);
        Ok(may_put(named, seen.table, born, rec))
    }

    // A table that is moved.
    fn lawful_move(
        &self,
        db: &Text,
        before: &[Op],
        name: &Text,
        to: &Text,
        rec: &TableRec,
    ) -> Result<bool, NoMemory>
        requires { keep_database before.now ≡ true }
        ensures { (made at : ℕ) → IfOk result (λ lawful. lawful ≡ is_lawful (done_ops db.now made self.now before.now) db.now (op.MoveTable name.now at to.now rec.now)) }
    {
        let named = self.is_lawful_table(to, rec)?;
        let seen = self.seen_after_all(db, name, before);
        let over = self.seen_after_all(db, to, before);
        Ok(may_move(object_name(name), named, seen.table, over.table, rec))
    }

    // A partition that is put.
    fn lawful_part(&self, db: &Text, before: &[Op], name: &Text, values: &Texts) -> bool
        requires { keep_database before.now ≡ true }
        ensures { (made at : ℕ) (rec : PartRec) → result ≡ is_lawful (done_ops db.now made self.now before.now) db.now (op.PutPart name.now at values.now rec) }
    {
        let seen = self.seen_after_all(db, name, before);
        may_hold(object_name(name), seen.table, values)
    }

    // A partition that is moved.
    fn lawful_part_move(&self, db: &Text, before: &[Op], name: &Text, to: &Texts) -> bool
        requires { keep_database before.now ≡ true }
        ensures { (made at : ℕ) (values : List (List ℕ)) (rec : PartRec) → result ≡ is_lawful (done_ops db.now made self.now before.now) db.now (op.MovePart name.now at values to.now rec) }
    {
        let room = self.lawful_part(db, before, name, to);
        let there = self.stands_after(db, name, to, before);
        but_not(room, there)
    }
}

// Whether a record that has a lawful name and columns or not may be put over what stands at the name.
fn may_put(named: bool, found: Option<Shape>, born: u64, rec: &TableRec) -> bool
    ensures { result ≡ (named && goes_over born rec.now found) }
{
    if !named {
        return false;
    }
    match found {
        None => true,
        Some(shape) => shape.born == born && shape.keys == rec.keys.len(),
    }
}

// Whether a table may be moved, whose names are object names or not, over what stands at the new name.
fn may_move(old: bool, new: bool, found: Option<Shape>, over: Option<Shape>, rec: &TableRec) -> bool
    ensures { result ≡ (old && (new && (has_keys_of rec.now found && not (is_some over)))) }
{
    old && new && has_keys_of(found, rec) && over.is_none()
}

// Whether a table of this shape has as many keys as a record.
fn has_keys_of(found: Option<Shape>, rec: &TableRec) -> bool
    ensures { result ≡ has_keys_of rec.now found }
{
    match found {
        None => true,
        Some(shape) => shape.keys == rec.keys.len(),
    }
}

// Whether a table of this shape, whose name is an object name or not, can have a partition with these
// values.
fn may_hold(named: bool, found: Option<Shape>, values: &Texts) -> bool
    ensures { result ≡ (named && has_room values.now found) }
{
    if !named {
        return false;
    }
    match found {
        None => false,
        Some(shape) => shape.keys >= 1 && values.len() == shape.keys && are_valid(values),
    }
}
