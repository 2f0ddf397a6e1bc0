//! The JSON of operations.

ghost use Rattle.std.specs.Prelude.{◌≡◌, IfOk};
ghost use Rattle.serde_json.specs.View.{view};
ghost use Rattle.notify_log.specs.Values.{alone, moved_part, moved_table, of_part, of_table, op_data, texts_data};

use cat_types::{NoMemory, Op, Text, Texts};
use serde_json::{Value, json};
use std::alloc::Global;

pub(crate) fn op_value(alloc: Global, op: &Op) -> Result<Value, NoMemory>
    ensures { IfOk result (λ v. view v ≡ op_data op.now) }
{
    match op {
        Op::PutDb { .. } => alone_value(alloc, "put_db"),
        Op::DropDb => alone_value(alloc, "drop_db"),
        Op::PutTable { table, .. } => of_table_value(alloc, "put_table", table),
        Op::DropTable { table, .. } => of_table_value(alloc, "drop_table", table),
        Op::MoveTable { table, to, .. } => moved_table_value(alloc, table, to),
        Op::PutPart { table, values, .. } => of_part_value(alloc, "put_part", table, values),
        Op::DropPart { table, values, .. } => of_part_value(alloc, "drop_part", table, values),
        Op::MovePart {
            table,
            values,
            to,
            ..
        } => moved_part_value(alloc, table, values, to),
    }
}

fn alone_value(alloc: Global, op: &str) -> Result<Value, NoMemory>
    ensures { IfOk result (λ v. view v ≡ alone op.now) }
{
    Ok(json!(in alloc; {"op": op})?)
}

fn of_table_value(alloc: Global, op: &str, table: &Text) -> Result<Value, NoMemory>
    ensures { IfOk result (λ v. view v ≡ of_table op.now table.now) }
{
    Ok(json!(in alloc; {"op": op, "table": table.as_str()})?)
}

fn moved_table_value(alloc: Global, table: &Text, to: &Text) -> Result<Value, NoMemory>
    ensures { IfOk result (λ v. view v ≡ moved_table table.now to.now) }
{
    Ok(json!(in alloc; {"op": "move_table", "table": table.as_str(), "to": to.as_str()})?)
}

fn of_part_value(alloc: Global, op: &str, table: &Text, values: &Texts) -> Result<Value, NoMemory>
    ensures { IfOk result (λ v. view v ≡ of_part op.now table.now values.now) }
{
    let values = texts_value(alloc, values.as_slice())?;
    Ok(json!(in alloc; {"op": op, "table": table.as_str(), "values": values})?)
}

fn moved_part_value(
    alloc: Global,
    table: &Text,
    values: &Texts,
    to: &Texts,
) -> Result<Value, NoMemory>
    ensures { IfOk result (λ v. view v ≡ moved_part table.now values.now to.now) }
{
    Ok(json!(in alloc; {
        "op": "move_part",
        "table": table.as_str(),
        "to": texts_value(alloc, to.as_slice())?,
        "values": texts_value(alloc, values.as_slice())?
    })?)
}

fn texts_value(alloc: Global, texts: &[Text]) -> Result<Value, NoMemory>
    ensures { IfOk result (λ v. view v ≡ texts_data texts.now) }
{
    let mut items = Vec::new(alloc);
    for text in texts {
        items.push(Value::try_from_str(alloc, text.as_str())?)?;
    }
    Ok(Value::Array(items))
}
