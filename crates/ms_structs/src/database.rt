//! Databases.

ghost use Rattle.std.specs.Prelude.{◌≡◌, ℕ, ℤ, ◌≤◌, None, IsErrOf};
ghost use Rattle.hms_outside.specs.Causes.{Rose, StaysBut};
ghost use Rattle.ms_structs.specs.Getting.{Makes};
ghost use Rattle.thrift_binary.specs.Codes.{struct_code};
ghost use Rattle.thrift_binary.specs.Sending.{Gathers};
ghost use Rattle.thrift_binary.specs.Strict.{wire_bytes};
ghost use Rattle.thrift_binary.specs.Tree.{Struct};
ghost use Rattle.ms_structs.specs.Written.{database_fields};
ghost use Rattle.ms_structs.specs.Database.{database_is_bad, database_made, database_none, database_of, database_set, database_whole};

use crate::{
    FieldSink, FromWire, Got, StructFault, StructSink, put_field, put_optional, read_struct,
    read_whole, skip_field,
};
use cat_types::{DbArg, DbRec, MapOf, NoMemory, Params, Text};
use hms_outside::Source;
use std::alloc::Global;
use thrift_binary::{WireFault, WireReader, WireWriter, type_code};

/// What the fields of a Database said.
#[derive(Drop)]
pub struct DatabaseFields {
    pub name: Got<Text>,
    pub description: Got<Text>,
    pub location: Got<Text>,
    pub params: Got<Params>,
    pub owner: Got<Text>,
}

impl FieldSink for DatabaseFields {
    ghost none = { database_none };

    ghost set = { database_set };

    fn empty() -> DatabaseFields {
        DatabaseFields {
            name: Got::Nothing,
            description: Got::Nothing,
            location: Got::Nothing,
            params: Got::Nothing,
            owner: Got::Nothing,
        }
    }

    fn take<S: Source>(
        &mut self,
        alloc: Global,
        reader: &mut WireReader<'_, S>,
        ty: u8,
        id: i16,
    ) -> Result<(), WireFault> {
        match id {
            1 => self.name.take(alloc, reader, ty),
            2 => self.description.take(alloc, reader, ty),
            3 => self.location.take(alloc, reader, ty),
            4 => self.params.take(alloc, reader, ty),
            6 => self.owner.take(alloc, reader, ty),
            _ => skip_field(reader, ty),
        }
    }
}

impl StructSink for DatabaseFields {
    type Out = DbArg;

    ghost whole = { database_whole };

    fn finish(self, alloc: Global) -> Option<DbArg> {
        if self.has_bad_text() {
            return None;
        }
        Some(DbArg {
            name: self.name.value(),
            rec: DbRec {
                description: self.description.value(),
                location: self.location.value(),
                params: self.params.value_or(MapOf::new(alloc)),
                owner: self.owner.value(),
            },
        })
    }
}

impl DatabaseFields {
    // Whether a text that counts isn't UTF-8.
    fn has_bad_text(&self) -> bool
        ensures { result ≡ database_is_bad self.now }
    {
        self.name.is_bad()
            || self.description.is_bad()
            || self.location.is_bad()
            || self.params.is_bad()
            || self.owner.is_bad()
    }
}

impl FromWire for DbArg {
    type Value = DbArg;

    ghost CODE = { struct_code };

    const CODE: u8 = type_code::STRUCT;

    ghost means = { database_of };

    fn read<S: Source>(
        alloc: Global,
        reader: &mut WireReader<'_, S>,
    ) -> Result<Got<DbArg>, WireFault> {
        read_struct::<DatabaseFields, S>(alloc, reader)
    }
}

/// Reads a Database. `BadText` comes exactly where a text that counts isn't UTF-8; the struct was
/// then read to its end.
pub fn read_database<S: Source>(
    alloc: Global,
    reader: &mut WireReader<'_, S>,
) -> Result<DbArg, StructFault>
    ensures same_source { reader.new.source.ghost_name ≡ reader.old.source.ghost_name }
    ensures later { S.faults reader.old.source.now ≤ S.faults reader.new.source.now }
    ensures cause { reader.old.progress.fault ≡ None → IsErrOf result (StructFault.Wire WireFault.ReadFault) → Rose (S.faults reader.old.source.now) (S.faults reader.new.source.now) }
    ensures stays { StaysBut (StructFault.Wire WireFault.ReadFault) result (S.faults reader.old.source.now) (S.faults reader.new.source.now) }
    ensures reads { Makes (S.left reader.old.source.now) (S.left reader.new.source.now) reader.old.progress reader.new.progress result database_made }
{
    read_whole::<DatabaseFields, S>(alloc, reader)
}

/// A Database with its fields in rising order of their ids. Absent texts aren't written; the
/// parameters always are.
pub fn write_database(writer: &mut WireWriter, name: &Text, rec: &DbRec) -> Result<(), NoMemory>
    ensures { Gathers writer.old writer.new result (wire_bytes struct_code (Struct (database_fields name.now rec.now))) }
{
    put_field::<Text>(writer, 1, name)?;
    put_optional::<Text>(writer, 2, &rec.description)?;
    put_optional::<Text>(writer, 3, &rec.location)?;
    put_field::<Params>(writer, 4, &rec.params)?;
    put_optional::<Text>(writer, 6, &rec.owner)?;
    writer.stop()
}
