//! Values of one type onto the wire.

ghost use Rattle.std.specs.Prelude.{◌≡◌, ℕ};
ghost use Rattle.thrift_binary.specs.Codes.{bool_code, i32_code, i64_code, text_code};
ghost use Rattle.thrift_binary.specs.Sending.{Gathers};
ghost use Rattle.thrift_binary.specs.Strict.{wire_bytes};
ghost use Rattle.thrift_binary.specs.Tree.{Bytes, Flag, Number, Wire};
ghost use Rattle.ms_structs.specs.Written.{field_spelled, given, if_any};

use cat_types::{NoMemory, Text};
use thrift_binary::{WireWriter, type_code};

/// A type of the wire, and what is written as its values. A type that is its own value stands for
/// itself; a struct of another crate's type is named by one of its own.
pub trait ToWire {
    /// What is written as a value.
    type Value;

    /// The code of the type.
    ghost CODE: { ℕ };

    const CODE: u8;

    /// The tree that a value is written as.
    ghost tree: { Self.Value → Wire };

    /// Writes a value.
    fn write(writer: &mut WireWriter, value: &Self::Value) -> Result<(), NoMemory>
        ensures { Gathers writer.old writer.new result (wire_bytes CODE (tree value.now)) };
}

/// A field with this id.
pub fn put_field<T: ToWire>(
    writer: &mut WireWriter,
    id: i16,
    value: &T::Value,
) -> Result<(), NoMemory>
    ensures { Gathers writer.old writer.new result (field_spelled (given id T.CODE T.tree value.now)) }
{
    writer.field(T::CODE, id)?;
    T::write(writer, value)
}

/// A field with this id; an absent value isn't written.
pub fn put_optional<T: ToWire>(
    writer: &mut WireWriter,
    id: i16,
    value: &Option<T::Value>,
) -> Result<(), NoMemory>
    ensures { Gathers writer.old writer.new result (field_spelled (if_any id T.CODE T.tree value.now)) }
{
    match value {
        Some(value) => put_field::<T>(writer, id, value),
        None => Ok(()),
    }
}

impl ToWire for bool {
    type Value = bool;

    ghost CODE = { bool_code };

    const CODE: u8 = type_code::BOOL;

    ghost tree = { Flag };

    fn write(writer: &mut WireWriter, value: &bool) -> Result<(), NoMemory> {
        writer.flag(*value)
    }
}

impl ToWire for i32 {
    type Value = i32;

    ghost CODE = { i32_code };

    const CODE: u8 = type_code::I32;

    ghost tree = { Number };

    fn write(writer: &mut WireWriter, value: &i32) -> Result<(), NoMemory> {
        writer.int(*value)
    }
}

impl ToWire for i64 {
    type Value = i64;

    ghost CODE = { i64_code };

    const CODE: u8 = type_code::I64;

    ghost tree = { Number };

    fn write(writer: &mut WireWriter, value: &i64) -> Result<(), NoMemory> {
        writer.long(*value)
    }
}

impl ToWire for Text {
    type Value = Text;

    ghost CODE = { text_code };

    const CODE: u8 = type_code::STRING;

    ghost tree = { Bytes };

    fn write(writer: &mut WireWriter, value: &Text) -> Result<(), NoMemory> {
        writer.text(value)
    }
}
