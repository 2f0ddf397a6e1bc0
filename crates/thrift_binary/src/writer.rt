//! Gathering one message in memory, and sending it.

ghost use Rattle.std.specs.Prelude.{◌≡◌, ◌<◌, ◌≤◌, ◌^◌, ◌++◌, [], ◌∷◌, ℕ, pos, take, IsErrOf, OnErr, OnOk};
ghost use Rattle.hms_outside.specs.Causes.{Rose, StaysBut};
ghost use Rattle.hms_outside.specs.Told.{Goes, Grew, Sent};
ghost use Rattle.cat_values.specs.Gathering.{Gathers};
ghost use Rattle.thrift_binary.specs.Codes.{stop_code};
ghost use Rattle.thrift_binary.specs.Strict.{field_bytes, flag_bytes, head_bytes, list_bytes, map_bytes};
ghost use Rattle.thrift_binary.specs.Wire.{byte_bytes, int_bytes, long_bytes, short_bytes, text_bytes};

use crate::{Head, SendFault, type_code};
use cat_values::{NoMemory, Text};
use hms_outside::{Outage, Sink, send_all};
use std::alloc::Global;
use std::marker::Model;

/// One message, as far as it is gathered, in the strict spelling of Thrift's binary protocol. After
/// `NoMemory` of a call the gathered bytes begin with what they were.
#[derive(Drop)]
pub struct WireWriter {
    out: Vec<u8>,
}

impl Model for WireWriter {
    ghost use Rattle.std.specs.Prelude.{List, ℕ};

    ghost Value = { List ℕ };

    ghost view = { λ w. w.out.items };
}

impl WireWriter {
    /// A writer that has gathered nothing.
    pub fn new(alloc: Global) -> WireWriter
        ensures { result ≡ [] }
    {
        WireWriter {
            out: Vec::new(alloc),
        }
    }

    fn raw(&mut self, bytes: &[u8]) -> Result<(), NoMemory>
        ensures { Gathers self.old self.new result bytes.now }
    {
        self.out.extend_from_slice(bytes)?;
        Ok(())
    }

    fn code(&mut self, code: u8) -> Result<(), NoMemory>
        ensures { Gathers self.old self.new result (code ∷ []) }
    {
        self.out.push(code)?;
        Ok(())
    }

    fn count(&mut self, count: u32) -> Result<(), NoMemory>
        requires { count < 2 ^ 31 }
        ensures { Gathers self.old self.new result (int_bytes (pos count)) }
    {
        self.int(count as i32)
    }

    /// A bool: the byte 1 is true, 0 is false.
    pub fn flag(&mut self, value: bool) -> Result<(), NoMemory>
        ensures { Gathers self.old self.new result (flag_bytes value) }
    {
        self.code(if value { 1 } else { 0 })
    }

    /// A number of one byte.
    pub fn byte(&mut self, value: i8) -> Result<(), NoMemory>
        ensures { Gathers self.old self.new result (byte_bytes value) }
    {
        self.raw(&value.to_be_bytes())
    }

    /// A number of two bytes.
    pub fn short(&mut self, value: i16) -> Result<(), NoMemory>
        ensures { Gathers self.old self.new result (short_bytes value) }
    {
        self.raw(&value.to_be_bytes())
    }

    /// A number of four bytes.
    pub fn int(&mut self, value: i32) -> Result<(), NoMemory>
        ensures { Gathers self.old self.new result (int_bytes value) }
    {
        self.raw(&value.to_be_bytes())
    }

    /// A number of eight bytes.
    pub fn long(&mut self, value: i64) -> Result<(), NoMemory>
        ensures { Gathers self.old self.new result (long_bytes value) }
    {
        self.raw(&value.to_be_bytes())
    }

    /// The eight bytes of a double, in the order in which they are sent: its sign first.
    pub fn eight(&mut self, value: [u8; 8]) -> Result<(), NoMemory>
        ensures { Gathers self.old self.new result value }
    {
        self.raw(&value)
    }

    /// A text: its length in bytes, and its bytes.
    pub fn text(&mut self, value: &Text) -> Result<(), NoMemory>
        ensures { Gathers self.old self.new result (text_bytes value.now) }
    {
        self.int(value.len() as i32)?;
        self.raw(value.as_str().as_bytes())
    }

    /// The type and the id of a field.
    pub fn field(&mut self, ty: u8, id: i16) -> Result<(), NoMemory>
        ensures { Gathers self.old self.new result (field_bytes ty id) }
    {
        self.code(ty)?;
        self.raw(&id.to_be_bytes())
    }

    /// The end of a struct.
    pub fn stop(&mut self) -> Result<(), NoMemory>
        ensures { Gathers self.old self.new result (stop_code ∷ []) }
    {
        self.code(type_code::STOP)
    }

    /// The strict head of a message.
    pub fn head(&mut self, head: &Head) -> Result<(), NoMemory>
        ensures { Gathers self.old self.new result (head_bytes head.now) }
    {
        self.reply_head(head, head.kind)
    }

    /// The strict head of a message of this kind that answers the one with this head: it has the
    /// same name and sequence id.
    pub fn reply_head(&mut self, head: &Head, kind: u8) -> Result<(), NoMemory>
        ensures { Gathers self.old self.new result (head_bytes (record { name = head.now.name; kind = kind; sequence = head.now.sequence })) }
    {
        self.raw(&[128, 1, 0, kind])?;
        self.text(&head.name)?;
        self.int(head.sequence)
    }

    /// The head of a list or of a set: the type of its elements, and how many they are.
    pub fn list(&mut self, ty: u8, count: u32) -> Result<(), NoMemory>
        requires { count < 2 ^ 31 }
        ensures { Gathers self.old self.new result (list_bytes ty count) }
    {
        self.code(ty)?;
        self.count(count)
    }

    /// The head of a map: the type of its keys, that of its values, and how many pairs there are.
    pub fn map(&mut self, key: u8, value: u8, count: u32) -> Result<(), NoMemory>
        requires { count < 2 ^ 31 }
        ensures { Gathers self.old self.new result (map_bytes key value count) }
    {
        self.code(key)?;
        self.code(value)?;
        self.count(count)
    }

    /// Forgets what is gathered, and keeps its room for the next message.
    pub fn clear(&mut self)
        ensures { self.new ≡ [] }
    {
        self.out.clear();
    }

    /// Writes the gathered message whole, and flushes once. After `Ok` the writer is empty and
    /// keeps its room for the next message; after an `Err` a front of the message was written.
    pub fn send<K: Sink>(&mut self, sink: &mut K) -> Result<(), SendFault>
        ensures ok { OnOk result (Goes (Sent self.old) (K.held sink.old) (K.held sink.new)) }
        ensures emptied { OnOk result (self.new ≡ []) }
        ensures err { OnErr result ((n : ℕ) × Goes (Grew (take n self.old)) (K.held sink.old) (K.held sink.new)) }
        ensures stays { OnErr result (self.new ≡ self.old) }
        ensures later { K.faults sink.old ≤ K.faults sink.new }
        ensures cause { IsErrOf result SendFault.WriteFault → Rose (K.faults sink.old) (K.faults sink.new) }
        ensures sink_stays { StaysBut SendFault.WriteFault result (K.faults sink.old) (K.faults sink.new) }
    {
        match send_all(sink, &self.out) {
            Ok(()) => {
                self.clear();
                Ok(())
            }
            Err(Outage::Failed) => Err(SendFault::WriteFault),
            Err(Outage::NoMemory) => Err(SendFault::NoMemory),
        }
    }
}
