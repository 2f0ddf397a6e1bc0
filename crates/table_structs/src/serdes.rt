//! How rows are turned into bytes.

ghost use Rattle.std.specs.Prelude.{◌≡◌, ℕ, ℤ, ◌≤◌, None, IsErrOf};
ghost use Rattle.hms_outside.specs.Causes.{Rose, StaysBut};
ghost use Rattle.ms_structs.specs.Getting.{Makes};
ghost use Rattle.table_structs.specs.Serdes.{serde_is_bad, serde_made, serde_none, serde_of, serde_set, serde_tree, serde_whole};
ghost use Rattle.thrift_binary.specs.Codes.{struct_code};
ghost use Rattle.thrift_binary.specs.Sending.{Gathers};
ghost use Rattle.thrift_binary.specs.Strict.{wire_bytes};

use cat_types::{MapOf, NoMemory, Params, Serde, Text};
use hms_outside::Source;
use ms_structs::{
    FieldSink, FromWire, Got, StructFault, StructSink, ToWire, put_field, put_optional,
    read_struct, read_whole, skip_field,
};
use std::alloc::Global;
use thrift_binary::{WireFault, WireReader, WireWriter, type_code};

/// What the fields of a SerDeInfo said.
#[derive(Drop)]
pub struct SerdeFields {
    pub name: Got<Text>,
    pub lib: Got<Text>,
    pub params: Got<Params>,
}

impl FieldSink for SerdeFields {
    ghost none = { serde_none };

    ghost set = { serde_set };

    fn empty() -> SerdeFields {
        SerdeFields {
            name: Got::Nothing,
            lib: Got::Nothing,
            params: Got::Nothing,
        }
    }

    fn take<S: Source>(
        &mut self,
        alloc: Global,
        reader: &mut WireReader<'_, S>,
        ty: u8,
        id: i16,
    ) -> Result<(), WireFault> {
        match id {
            1 => self.name.take(alloc, reader, ty),
            2 => self.lib.take(alloc, reader, ty),
            3 => self.params.take(alloc, reader, ty),
            _ => skip_field(reader, ty),
        }
    }
}

impl StructSink for SerdeFields {
    type Out = Serde;

    ghost whole = { serde_whole };

    fn finish(self, alloc: Global) -> Option<Serde> {
        if self.has_bad_text() {
            return None;
        }
        Some(Serde {
            name: self.name.value(),
            lib: self.lib.value(),
            params: self.params.value_or(MapOf::new(alloc)),
        })
    }
}

impl SerdeFields {
    // Whether a text that counts isn't UTF-8.
    fn has_bad_text(&self) -> bool
        ensures { result ≡ serde_is_bad self.now }
    {
        self.name.is_bad() || self.lib.is_bad() || self.params.is_bad()
    }
}

impl FromWire for SerdeFields {
    type Value = Serde;

    ghost CODE = { struct_code };

    const CODE: u8 = type_code::STRUCT;

    ghost means = { serde_of };

    #[tactic(auto, unfolding(crate::specs::Serdes::serde_of))]
    fn read<S: Source>(
        alloc: Global,
        reader: &mut WireReader<'_, S>,
    ) -> Result<Got<Serde>, WireFault> {
        read_struct::<SerdeFields, S>(alloc, reader)
    }
}

impl ToWire for SerdeFields {
    type Value = Serde;

    ghost CODE = { struct_code };

    const CODE: u8 = type_code::STRUCT;

    ghost tree = { serde_tree };

    fn write(writer: &mut WireWriter, value: &Serde) -> Result<(), NoMemory> {
        put_optional::<Text>(writer, 1, &value.name)?;
        put_optional::<Text>(writer, 2, &value.lib)?;
        put_field::<Params>(writer, 3, &value.params)?;
        writer.stop()
    }
}

/// Reads a SerDeInfo. Absent texts stay absent, and absent parameters are none.
pub fn read_ser_de_info<S: Source>(
    alloc: Global,
    reader: &mut WireReader<'_, S>,
) -> Result<Serde, StructFault>
    ensures same_source { reader.new.source.ghost_name ≡ reader.old.source.ghost_name }
    ensures later { S.faults reader.old.source.now ≤ S.faults reader.new.source.now }
    ensures cause { reader.old.progress.fault ≡ None → IsErrOf result (StructFault.Wire WireFault.ReadFault) → Rose (S.faults reader.old.source.now) (S.faults reader.new.source.now) }
    ensures stays { StaysBut (StructFault.Wire WireFault.ReadFault) result (S.faults reader.old.source.now) (S.faults reader.new.source.now) }
    ensures reads { Makes (S.left reader.old.source.now) (S.left reader.new.source.now) reader.old.progress reader.new.progress result serde_made }
{
    read_whole::<SerdeFields, S>(alloc, reader)
}

/// A SerDeInfo with its fields in rising order of their ids. Absent values aren't written.
pub fn write_ser_de_info(writer: &mut WireWriter, value: &Serde) -> Result<(), NoMemory>
    ensures { Gathers writer.old writer.new result (wire_bytes struct_code (serde_tree value.now)) }
{
    SerdeFields::write(writer, value)
}
