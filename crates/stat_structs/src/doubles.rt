//! Doubles, as the bytes that spell them.

ghost use Rattle.stat_structs.specs.Doubles.{eight_of};
ghost use Rattle.thrift_binary.specs.Codes.{double_code};
ghost use Rattle.thrift_binary.specs.Tree.{Eight};

use cat_types::NoMemory;
use hms_outside::Source;
use ms_structs::{FromWire, Got, ToWire};
use std::alloc::Global;
use thrift_binary::{WireFault, WireReader, WireWriter, type_code};

/// A double as a type of the wire: eight bytes, which nothing here computes with.
#[derive(Drop)]
pub struct Double;

impl FromWire for Double {
    type Value = [u8; 8];

    ghost CODE = { double_code };

    const CODE: u8 = type_code::DOUBLE;

    ghost means = { eight_of };

    fn read<S: Source>(
        _alloc: Global,
        reader: &mut WireReader<'_, S>,
    ) -> Result<Got<[u8; 8]>, WireFault> {
        Ok(Got::Is(reader.eight()?))
    }
}

impl ToWire for Double {
    type Value = [u8; 8];

    ghost CODE = { double_code };

    const CODE: u8 = type_code::DOUBLE;

    ghost tree = { Eight };

    fn write(writer: &mut WireWriter, value: &[u8; 8]) -> Result<(), NoMemory> {
        writer.eight(*value)
    }
}
