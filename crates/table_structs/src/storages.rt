//! How rows are stored.

ghost use Rattle.std.specs.Prelude.{◌≡◌, ℕ, ℤ, ◌≤◌, None, IsErrOf};
ghost use Rattle.hms_outside.specs.Causes.{Rose, StaysBut};
ghost use Rattle.ms_structs.specs.Getting.{Makes};
ghost use Rattle.table_structs.specs.Storages.{storage_from, storage_is_bad, storage_made, storage_none, storage_of, storage_set, storage_tree, storage_whole};
ghost use Rattle.thrift_binary.specs.Codes.{struct_code};
ghost use Rattle.thrift_binary.specs.Sending.{Gathers};
ghost use Rattle.thrift_binary.specs.Strict.{wire_bytes};

use crate::{ColumnFields, OrderFields, SerdeFields, SkewFields};
use cat_types::{
    Columns, ListOf, MapOf, NoMemory, Orders, Params, Serde, Skew, Storage, Text, Texts,
};
use hms_outside::Source;
use ms_structs::{
    FieldSink, FromWire, Got, StructFault, StructSink, ToWire, put_field, put_optional,
    read_struct, read_whole, skip_field,
};
use std::alloc::Global;
use thrift_binary::{WireFault, WireReader, WireWriter, type_code};

/// What the fields of a StorageDescriptor said.
#[derive(Drop)]
pub struct StorageFields {
    pub cols: Got<Columns>,
    pub location: Got<Text>,
    pub input: Got<Text>,
    pub output: Got<Text>,
    pub compressed: Got<bool>,
    pub buckets: Got<i32>,
    pub serde: Got<Serde>,
    pub bucket_cols: Got<Texts>,
    pub sort_cols: Got<Orders>,
    pub params: Got<Params>,
    pub skew: Got<Skew>,
    pub sub_dirs: Got<bool>,
}

impl FieldSink for StorageFields {
    ghost none = { storage_none };

    ghost set = { storage_set };

    fn empty() -> StorageFields {
        StorageFields {
            cols: Got::Nothing,
            location: Got::Nothing,
            input: Got::Nothing,
            output: Got::Nothing,
            compressed: Got::Nothing,
            buckets: Got::Nothing,
            serde: Got::Nothing,
            bucket_cols: Got::Nothing,
            sort_cols: Got::Nothing,
            params: Got::Nothing,
            skew: Got::Nothing,
            sub_dirs: Got::Nothing,
        }
    }

    fn take<S: Source>(
        &mut self,
        alloc: Global,
        reader: &mut WireReader<'_, S>,
        ty: u8,
        id: i16,
    ) -> Result<(), WireFault> {
        match id {
            1 => self
                .cols
                .take_as::<ListOf<ColumnFields>, S>(alloc, reader, ty),
            2 => self.location.take(alloc, reader, ty),
            3 => self.input.take(alloc, reader, ty),
            4 => self.output.take(alloc, reader, ty),
            5 => self.compressed.take(alloc, reader, ty),
            6 => self.buckets.take(alloc, reader, ty),
            7 => self.serde.take_as::<SerdeFields, S>(alloc, reader, ty),
            8 => self.bucket_cols.take(alloc, reader, ty),
            9 => self
                .sort_cols
                .take_as::<ListOf<OrderFields>, S>(alloc, reader, ty),
            10 => self.params.take(alloc, reader, ty),
            11 => self.skew.take_as::<SkewFields, S>(alloc, reader, ty),
            12 => self.sub_dirs.take(alloc, reader, ty),
            _ => skip_field(reader, ty),
        }
    }
}

impl StructSink for StorageFields {
    type Out = Storage;

    ghost whole = { storage_whole };

    fn finish(self, alloc: Global) -> Option<Storage> {
        if self.has_bad_text() {
            return None;
        }
        Some(self.made(alloc))
    }
}

impl StorageFields {
    // Whether a text that counts isn't UTF-8.
    fn has_bad_text(&self) -> bool
        ensures { result ≡ storage_is_bad self.now }
    {
        self.cols.is_bad()
            || self.location.is_bad()
            || self.input.is_bad()
            || self.output.is_bad()
            || self.serde.is_bad()
            || self.bucket_cols.is_bad()
            || self.sort_cols.is_bad()
            || self.params.is_bad()
            || self.skew.is_bad()
    }

    /// What the fields make, where no text is bad.
    pub(crate) fn made(self, alloc: Global) -> Storage
        ensures { result ≡ storage_from self }
    {
        Storage {
            cols: self.cols.value_or(ListOf::new(alloc)),
            location: self.location.value(),
            input: self.input.value(),
            output: self.output.value(),
            compressed: self.compressed.value_or(false),
            buckets: self.buckets.value_or(0),
            serde: self.serde.value(),
            bucket_cols: self.bucket_cols.value_or(ListOf::new(alloc)),
            sort_cols: self.sort_cols.value_or(ListOf::new(alloc)),
            params: self.params.value_or(MapOf::new(alloc)),
            skew: self.skew.value(),
            sub_dirs: self.sub_dirs.value(),
        }
    }
}

impl FromWire for StorageFields {
    type Value = Storage;

    ghost CODE = { struct_code };

    const CODE: u8 = type_code::STRUCT;

    ghost means = { storage_of };

    #[tactic(auto, unfolding(crate::specs::Storages::storage_of))]
    fn read<S: Source>(
        alloc: Global,
        reader: &mut WireReader<'_, S>,
    ) -> Result<Got<Storage>, WireFault> {
        read_struct::<StorageFields, S>(alloc, reader)
    }
}

impl ToWire for StorageFields {
    type Value = Storage;

    ghost CODE = { struct_code };

    const CODE: u8 = type_code::STRUCT;

    ghost tree = { storage_tree };

    fn write(writer: &mut WireWriter, value: &Storage) -> Result<(), NoMemory> {
        put_field::<ListOf<ColumnFields>>(writer, 1, &value.cols)?;
        put_optional::<Text>(writer, 2, &value.location)?;
        put_optional::<Text>(writer, 3, &value.input)?;
        put_optional::<Text>(writer, 4, &value.output)?;
        put_field::<bool>(writer, 5, &value.compressed)?;
        put_field::<i32>(writer, 6, &value.buckets)?;
        put_optional::<SerdeFields>(writer, 7, &value.serde)?;
        put_field::<Texts>(writer, 8, &value.bucket_cols)?;
        put_field::<ListOf<OrderFields>>(writer, 9, &value.sort_cols)?;
        put_field::<Params>(writer, 10, &value.params)?;
        put_optional::<SkewFields>(writer, 11, &value.skew)?;
        put_optional::<bool>(writer, 12, &value.sub_dirs)?;
        writer.stop()
    }
}

/// Reads a StorageDescriptor. Absent texts and structs and the absent last flag stay absent; the other flag is false, the number 0, and lists and maps are empty.
pub fn read_storage_descriptor<S: Source>(
    alloc: Global,
    reader: &mut WireReader<'_, S>,
) -> Result<Storage, StructFault>
    ensures same_source { reader.new.source.ghost_name ≡ reader.old.source.ghost_name }
    ensures later { S.faults reader.old.source.now ≤ S.faults reader.new.source.now }
    ensures cause { reader.old.progress.fault ≡ None → IsErrOf result (StructFault.Wire WireFault.ReadFault) → Rose (S.faults reader.old.source.now) (S.faults reader.new.source.now) }
    ensures stays { StaysBut (StructFault.Wire WireFault.ReadFault) result (S.faults reader.old.source.now) (S.faults reader.new.source.now) }
    ensures reads { Makes (S.left reader.old.source.now) (S.left reader.new.source.now) reader.old.progress reader.new.progress result storage_made }
{
    read_whole::<StorageFields, S>(alloc, reader)
}

/// A StorageDescriptor with its fields in rising order of their ids. Absent values aren't written.
pub fn write_storage_descriptor(writer: &mut WireWriter, value: &Storage) -> Result<(), NoMemory>
    ensures { Gathers writer.old writer.new result (wire_bytes struct_code (storage_tree value.now)) }
{
    StorageFields::write(writer, value)
}
