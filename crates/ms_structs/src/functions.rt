//! Functions that a caller may define; the metastore keeps none.

ghost use Rattle.thrift_binary.specs.Codes.{struct_code};
ghost use Rattle.thrift_binary.specs.Sending.{Gathers};
ghost use Rattle.thrift_binary.specs.Strict.{wire_bytes};
ghost use Rattle.thrift_binary.specs.Tree.{NoFields, Struct};

use cat_types::NoMemory;
use thrift_binary::WireWriter;

/// A GetAllFunctionsResponse, of which no field is written.
pub fn write_get_all_functions_response(writer: &mut WireWriter) -> Result<(), NoMemory>
    ensures { Gathers writer.old writer.new result (wire_bytes struct_code (Struct NoFields)) }
{
    writer.stop()
}
