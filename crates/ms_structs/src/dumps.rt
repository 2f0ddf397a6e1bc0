//! What answers a dump, onto the wire.

ghost use Rattle.ms_structs.specs.Dumps.{dump_result};
ghost use Rattle.thrift_binary.specs.Codes.{struct_code};
ghost use Rattle.thrift_binary.specs.Sending.{Gathers};
ghost use Rattle.thrift_binary.specs.Strict.{wire_bytes};

use crate::put_field;
use cat_types::{NoMemory, Text};
use thrift_binary::WireWriter;

/// A ReplDumpResult: the folder that was written, and the number of the event up to which it goes.
pub fn write_repl_dump_result(
    writer: &mut WireWriter,
    dir: &Text,
    last: i64,
) -> Result<(), NoMemory>
    ensures { Gathers writer.old writer.new result (wire_bytes struct_code (dump_result dir.now last)) }
{
    put_field::<Text>(writer, 1, dir)?;
    put_field::<i64>(writer, 2, &last)?;
    writer.stop()
}
