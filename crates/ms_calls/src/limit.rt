//! How many are wanted at most, off the wire.

ghost use Rattle.std.specs.Prelude.{◌≡◌, ℕ, ℤ, ◌≤◌, None, IsErrOf};
ghost use Rattle.ms_structs.specs.Values.{number_of};
ghost use Rattle.thrift_binary.specs.Codes.{i16_code};

use hms_outside::Source;
use ms_structs::{FromWire, Got};
use std::alloc::Global;
use thrift_binary::{WireFault, WireReader, type_code};

/// A number of two bytes: how many are wanted at most.
pub struct Limit;

impl FromWire for Limit {
    type Value = i16;

    ghost CODE = { i16_code };

    const CODE: u8 = type_code::I16;

    ghost means = { number_of };

    fn read<S: Source>(
        _alloc: Global,
        reader: &mut WireReader<'_, S>,
    ) -> Result<Got<i16>, WireFault> {
        Ok(Got::Is(reader.short()?))
    }
}
