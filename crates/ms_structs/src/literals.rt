//! Words that the program knows, onto the wire.

ghost use Rattle.std.specs.Prelude.{◌≡◌, ◌<◌, ◌^◌, [], ◌∷◌, length};
ghost use Rattle.thrift_binary.specs.Sending.{Gathers};
ghost use Rattle.thrift_binary.specs.Wire.{text_bytes};

use cat_types::NoMemory;
use thrift_binary::WireWriter;

/// A short text that the program knows, written without a copy.
pub fn put_literal(writer: &mut WireWriter, text: &str) -> Result<(), NoMemory>
    requires { length text.now < 2 ^ 31 }
    ensures { Gathers writer.old writer.new result (text_bytes text.now) }
{
    writer.int(text.len() as i32)?;
    put_bytes(writer, text.as_bytes())
}

// Bytes, as they are.
fn put_bytes(writer: &mut WireWriter, bytes: &[u8]) -> Result<(), NoMemory>
    ensures { Gathers writer.old writer.new result bytes.now }
{
    for byte in bytes {
        put_byte(writer, *byte)?;
    }
    Ok(())
}

// One byte, as it is.
fn put_byte(writer: &mut WireWriter, byte: u8) -> Result<(), NoMemory>
    ensures { Gathers writer.old writer.new result (byte ∷ []) }
{
    writer.byte(byte.cast_signed())
}
