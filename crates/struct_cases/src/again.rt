//! Structs that are read and written again.

use crate::faults::told_fault;
use cat_types::{Column, NoMemory, Order, Serde, Skew, Storage};
use hms_outside::{MemSink, MemSource};
use ms_structs::StructFault;
use std::alloc::Global;
use table_cases::{Unable, digits_of};
use table_structs::{
    read_field_schema, read_order, read_ser_de_info, read_skewed_info, read_storage_descriptor,
    write_field_schema, write_order, write_ser_de_info, write_skewed_info,
    write_storage_descriptor,
};
use thrift_binary::{WireReader, WireWriter};

/// A reader of the bytes of a case.
pub type Reader<'a> = WireReader<'a, MemSource>;

/// A struct that is read and written.
pub trait Spelled: Drop {
    /// The struct that stands in front.
    fn read(alloc: Global, reader: &mut Reader<'_>) -> Result<Self, StructFault>;

    /// Gathers the bytes of the struct.
    fn write(&self, writer: &mut WireWriter) -> Result<(), NoMemory>;
}

/// The bytes that are written of the struct that stands in front.
pub fn rewritten<T: Spelled>(alloc: Global, reader: &mut Reader<'_>) -> Result<String, Unable> {
    match T::read(alloc, reader) {
        Ok(value) => written(alloc, &value),
        Err(fault) => told_fault(alloc, fault),
    }
}

// The bytes that are written of a struct.
fn written<T: Spelled>(alloc: Global, value: &T) -> Result<String, Unable> {
    let mut writer = WireWriter::new(alloc);
    value.write(&mut writer)?;
    gathered(alloc, &mut writer)
}

/// The bytes that a writer gathered.
pub fn gathered(alloc: Global, writer: &mut WireWriter) -> Result<String, Unable> {
    let mut sink = MemSink::new(alloc, Vec::new(alloc));
    if writer.send(&mut sink).is_err() {
        return Err(Unable::NoMemory);
    }
    Ok(digits_of(alloc, sink.bytes())?)
}

impl Spelled for Column {
    fn read(alloc: Global, reader: &mut Reader<'_>) -> Result<Column, StructFault> {
        read_field_schema(alloc, reader)
    }

    fn write(&self, writer: &mut WireWriter) -> Result<(), NoMemory> {
        write_field_schema(writer, self)
    }
}

impl Spelled for Serde {
    fn read(alloc: Global, reader: &mut Reader<'_>) -> Result<Serde, StructFault> {
        read_ser_de_info(alloc, reader)
    }

    fn write(&self, writer: &mut WireWriter) -> Result<(), NoMemory> {
        write_ser_de_info(writer, self)
    }
}

impl Spelled for Order {
    fn read(alloc: Global, reader: &mut Reader<'_>) -> Result<Order, StructFault> {
        read_order(alloc, reader)
    }

    fn write(&self, writer: &mut WireWriter) -> Result<(), NoMemory> {
        write_order(writer, self)
    }
}

impl Spelled for Skew {
    fn read(alloc: Global, reader: &mut Reader<'_>) -> Result<Skew, StructFault> {
        read_skewed_info(alloc, reader)
    }

    fn write(&self, writer: &mut WireWriter) -> Result<(), NoMemory> {
        write_skewed_info(writer, self)
    }
}

impl Spelled for Storage {
    fn read(alloc: Global, reader: &mut Reader<'_>) -> Result<Storage, StructFault> {
        read_storage_descriptor(alloc, reader)
    }

    fn write(&self, writer: &mut WireWriter) -> Result<(), NoMemory> {
        write_storage_descriptor(writer, self)
    }
}
