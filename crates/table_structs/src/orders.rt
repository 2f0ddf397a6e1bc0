//! Orders of rows.

ghost use Rattle.std.specs.Prelude.{◌≡◌, ℕ, ℤ, ◌≤◌, None, IsErrOf};
ghost use Rattle.hms_outside.specs.Causes.{Rose, StaysBut};
ghost use Rattle.ms_structs.specs.Getting.{Makes};
ghost use Rattle.table_structs.specs.Orders.{order_made, order_none, order_of, order_set, order_tree, order_whole};
ghost use Rattle.thrift_binary.specs.Codes.{struct_code};
ghost use Rattle.thrift_binary.specs.Sending.{Gathers};
ghost use Rattle.thrift_binary.specs.Strict.{wire_bytes};

use crate::texts::no_text;
use cat_types::{NoMemory, Order, Text};
use hms_outside::Source;
use ms_structs::{
    FieldSink, FromWire, Got, StructFault, StructSink, ToWire, put_field, read_struct, read_whole,
    skip_field,
};
use std::alloc::Global;
use thrift_binary::{WireFault, WireReader, WireWriter, type_code};

/// What the fields of an Order said.
#[derive(Drop)]
pub struct OrderFields {
    pub col: Got<Text>,
    pub dir: Got<i32>,
}

impl FieldSink for OrderFields {
    ghost none = { order_none };

    ghost set = { order_set };

    fn empty() -> OrderFields {
        OrderFields {
            col: Got::Nothing,
            dir: Got::Nothing,
        }
    }

    fn take<S: Source>(
        &mut self,
        alloc: Global,
        reader: &mut WireReader<'_, S>,
        ty: u8,
        id: i16,
    ) -> Result<(), WireFault> {
        match id {
            1 => self.col.take(alloc, reader, ty),
            2 => self.dir.take(alloc, reader, ty),
            _ => skip_field(reader, ty),
        }
    }
}

impl StructSink for OrderFields {
    type Out = Order;

    ghost whole = { order_whole };

    fn finish(self, alloc: Global) -> Option<Order> {
        if self.col.is_bad() {
            return None;
        }
        Some(Order {
            col: self.col.value_or(no_text(alloc)),
            dir: self.dir.value_or(0),
        })
    }
}

impl FromWire for OrderFields {
    type Value = Order;

    ghost CODE = { struct_code };

    const CODE: u8 = type_code::STRUCT;

    ghost means = { order_of };

    #[tactic(auto, unfolding(crate::specs::Orders::order_of))]
    fn read<S: Source>(
        alloc: Global,
        reader: &mut WireReader<'_, S>,
    ) -> Result<Got<Order>, WireFault> {
        read_struct::<OrderFields, S>(alloc, reader)
    }
}

impl ToWire for OrderFields {
    type Value = Order;

    ghost CODE = { struct_code };

    const CODE: u8 = type_code::STRUCT;

    ghost tree = { order_tree };

    fn write(writer: &mut WireWriter, value: &Order) -> Result<(), NoMemory> {
        put_field::<Text>(writer, 1, &value.col)?;
        put_field::<i32>(writer, 2, &value.dir)?;
        writer.stop()
    }
}

/// Reads an Order. An absent column counts as empty, and an absent direction as 0.
pub fn read_order<S: Source>(
    alloc: Global,
    reader: &mut WireReader<'_, S>,
) -> Result<Order, StructFault>
    ensures same_source { reader.new.source.ghost_name ≡ reader.old.source.ghost_name }
    ensures later { S.faults reader.old.source.now ≤ S.faults reader.new.source.now }
    ensures cause { reader.old.progress.fault ≡ None → IsErrOf result (StructFault.Wire WireFault.ReadFault) → Rose (S.faults reader.old.source.now) (S.faults reader.new.source.now) }
    ensures stays { StaysBut (StructFault.Wire WireFault.ReadFault) result (S.faults reader.old.source.now) (S.faults reader.new.source.now) }
    ensures reads { Makes (S.left reader.old.source.now) (S.left reader.new.source.now) reader.old.progress reader.new.progress result order_made }
{
    read_whole::<OrderFields, S>(alloc, reader)
}

/// An Order with its fields in rising order of their ids.
pub fn write_order(writer: &mut WireWriter, value: &Order) -> Result<(), NoMemory>
    ensures { Gathers writer.old writer.new result (wire_bytes struct_code (order_tree value.now)) }
{
    OrderFields::write(writer, value)
}
