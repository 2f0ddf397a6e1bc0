//! Contexts of calls.

ghost use Rattle.std.specs.Prelude.{◌≡◌, ℕ, ℤ, ◌≤◌, None, IsErrOf};
ghost use Rattle.hms_outside.specs.Causes.{Rose, StaysBut};
ghost use Rattle.ms_structs.specs.Getting.{Makes};
ghost use Rattle.table_structs.specs.Contexts.{context_made, context_none, context_of, context_set, context_whole};
ghost use Rattle.thrift_binary.specs.Codes.{struct_code};

use cat_types::Params;
use hms_outside::Source;
use ms_structs::{
    FieldSink, FromWire, Got, StructFault, StructSink, read_struct, read_whole, skip_field,
};
use std::alloc::Global;
use thrift_binary::{WireFault, WireReader, type_code};

/// What the fields of an EnvironmentContext said.
#[derive(Drop)]
pub struct ContextFields {
    pub properties: Got<Params>,
}

impl FieldSink for ContextFields {
    ghost none = { context_none };

    ghost set = { context_set };

    fn empty() -> ContextFields {
        ContextFields {
            properties: Got::Nothing,
        }
    }

    fn take<S: Source>(
        &mut self,
        alloc: Global,
        reader: &mut WireReader<'_, S>,
        ty: u8,
        id: i16,
    ) -> Result<(), WireFault> {
        match id {
            1 => self.properties.take(alloc, reader, ty),
            _ => skip_field(reader, ty),
        }
    }
}

impl StructSink for ContextFields {
    type Out = ();

    ghost whole = { context_whole };

    fn finish(self, _alloc: Global) -> Option<()> {
        if self.properties.is_bad() {
            return None;
        }
        Some(())
    }
}

impl FromWire for ContextFields {
    type Value = ();

    ghost CODE = { struct_code };

    const CODE: u8 = type_code::STRUCT;

    ghost means = { context_of };

    #[tactic(auto, unfolding(crate::specs::Contexts::context_of))]
    fn read<S: Source>(
        alloc: Global,
        reader: &mut WireReader<'_, S>,
    ) -> Result<Got<()>, WireFault> {
        read_struct::<ContextFields, S>(alloc, reader)
    }
}

/// Reads an EnvironmentContext, of which nothing is used.
pub fn read_environment_context<S: Source>(
    alloc: Global,
    reader: &mut WireReader<'_, S>,
) -> Result<(), StructFault>
    ensures same_source { reader.new.source.ghost_name ≡ reader.old.source.ghost_name }
    ensures later { S.faults reader.old.source.now ≤ S.faults reader.new.source.now }
    ensures cause { reader.old.progress.fault ≡ None → IsErrOf result (StructFault.Wire WireFault.ReadFault) → Rose (S.faults reader.old.source.now) (S.faults reader.new.source.now) }
    ensures stays { StaysBut (StructFault.Wire WireFault.ReadFault) result (S.faults reader.old.source.now) (S.faults reader.new.source.now) }
    ensures reads { Makes (S.left reader.old.source.now) (S.left reader.new.source.now) reader.old.progress reader.new.progress result context_made }
{
    read_whole::<ContextFields, S>(alloc, reader)
}
