//! What is told of an event.

ghost use Rattle.std.specs.Prelude.{◌≡◌, ◌<◌, ◌^◌, length};
ghost use Rattle.std.specs.Option.{option_copied};
ghost use Rattle.ms_structs.specs.Notifications.{cut_int, cut_long, event_table, first_table, is_on_database, kind_name, op_table};

use cat_types::{Event, EventKind, Op, Text};

/// A number as an i64; a greater one is cut to the greatest.
pub fn cut_long(number: u64) -> i64
    ensures { result ≡ cut_long number }
{
    number.min(9_223_372_036_854_775_807) as i64
}

/// A number as an i32; a greater one is cut to the greatest.
pub(crate) fn cut_int(number: u64) -> i32
    ensures { result ≡ cut_int number }
{
    number.min(2_147_483_647) as i32
}

/// The name of a kind of event.
pub(crate) fn kind_name(kind: EventKind) -> &'static str
    ensures name { result.now ≡ kind_name kind }
    ensures short { length result.now < 2 ^ 31 }
{
    match kind {
        EventKind::CreateDatabase => "CREATE_DATABASE",
        EventKind::AlterDatabase => "ALTER_DATABASE",
        EventKind::DropDatabase => "DROP_DATABASE",
        EventKind::CreateTable => "CREATE_TABLE",
        EventKind::AlterTable => "ALTER_TABLE",
        EventKind::DropTable => "DROP_TABLE",
        EventKind::AddPartition => "ADD_PARTITION",
        EventKind::AlterPartition => "ALTER_PARTITION",
        EventKind::DropPartition => "DROP_PARTITION",
    }
}

/// The table of an event: that of its first operation, and none where the event is one on a database.
pub(crate) fn table_of(event: &Event) -> Option<&Text>
    ensures { option_copied result ≡ event_table event.now }
{
    if is_on_database(event.change.kind) {
        return None;
    }
    first_table(event.change.ops.as_slice())
}

// Whether events of this kind change a database, and no table.
fn is_on_database(kind: EventKind) -> bool
    ensures { result ≡ is_on_database kind }
{
    match kind {
        EventKind::CreateDatabase | EventKind::AlterDatabase | EventKind::DropDatabase => true,
        EventKind::CreateTable | EventKind::AlterTable | EventKind::DropTable => false,
        EventKind::AddPartition | EventKind::AlterPartition | EventKind::DropPartition => false,
    }
}

fn first_table(ops: &[Op]) -> Option<&Text>
    ensures { option_copied result ≡ first_table ops.now }
{
    match ops {
        [] => None,
        [op, ..] => op_table(op),
    }
}

// The table of an operation, under its old name where it moves.
fn op_table(op: &Op) -> Option<&Text>
    ensures { option_copied result ≡ op_table op.now }
{
    match op {
        Op::PutDb { .. } | Op::DropDb => None,
        Op::PutTable { table, .. } => Some(table),
        Op::DropTable { table, .. } => Some(table),
        Op::MoveTable { table, .. } => Some(table),
        Op::PutPart { table, .. } => Some(table),
        Op::DropPart { table, .. } => Some(table),
        Op::MovePart { table, .. } => Some(table),
    }
}
