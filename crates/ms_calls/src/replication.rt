//! What the calls of replication ask, and how their arguments are read.

ghost use Rattle.std.specs.Prelude.{◌≡◌, ◌≤◌, ℤ, None, Result, IsErrOf};
ghost use Rattle.hms_outside.specs.Causes.{Rose, StaysBut};
ghost use Rattle.ms_calls.specs.Arguments.{dump_asked, trim_asked};
ghost use Rattle.ms_calls.specs.Asked.{unless_wrong};
ghost use Rattle.ms_calls.specs.declared.request.Asked.{Asked};
ghost use Rattle.ms_structs.specs.Getting.{ReadsTree};
ghost use Rattle.thrift_binary.specs.Codes.{struct_code};
ghost use Rattle.thrift_binary.specs.Tree.{Struct};
ghost use Rattle.thrift_binary.specs.Wire.{IsWire, StopsWire};

use crate::Asked;
use crate::arguments::{needed, optional};
use crate::slots::{Four, One, Shape};
use cat_types::Text;
use hms_outside::Source;
use std::alloc::Global;
use thrift_binary::{WireFault, WireReader};

/// A call of replication.
pub trait AskReplication: Drop {
    /// The slots of the arguments.
    type Slots: Drop;

    /// What the arguments ask, or the least id of a wrong one.
    ghost makes: { Self → Self.Slots → Result Asked ℤ };

    /// What the arguments ask, or the least id of a wrong one.
    fn make(self, slots: Self::Slots) -> Result<Asked, i16>
        ensures { result ≡ makes self slots };
}

/// Reads the arguments of a call of replication, and says what the message asks.
pub fn read_replication<C: AskReplication, S: Source>(
    alloc: Global,
    call: C,
    reader: &mut WireReader<'_, S>,
) -> Result<Asked, WireFault>
where
    C::Slots: Shape,
    ensures same_source { reader.new.source.ghost_name ≡ reader.old.source.ghost_name }
    ensures later { S.faults reader.old.source.now ≤ S.faults reader.new.source.now }
    ensures cause { reader.old.progress.fault ≡ None → IsErrOf result WireFault.ReadFault → Rose (S.faults reader.old.source.now) (S.faults reader.new.source.now) }
    ensures stays { StaysBut WireFault.ReadFault result (S.faults reader.old.source.now) (S.faults reader.new.source.now) }
    ensures reads { ReadsTree (S.left reader.old.source.now) (S.left reader.new.source.now) reader.old.progress reader.new.progress result (λ v. IsWire (Struct v) reader.old.progress.room struct_code) (λ v asked. asked ≡ unless_wrong (C.makes call (C.Slots.says v))) (StopsWire reader.old.progress.room struct_code) }
{
    let slots = C::Slots::read::<S>(alloc, reader)?;
    Ok(unless_wrong(call.make(slots)))
}

// What is asked, unless the argument with this id is wrong.
fn unless_wrong(asked: Result<Asked, i16>) -> Asked
    ensures { result ≡ unless_wrong asked }
{
    match asked {
        Ok(asked) => asked,
        Err(id) => Asked::BadArgument(id),
    }
}

/// `repl_dump`: the database; and after which event, up to which one, and how many numbers at most,
/// each of which may be absent.
#[derive(Clone, Copy)]
pub struct ReplDump;

impl AskReplication for ReplDump {
    type Slots = Four<Text, i64, i64, i32>;

    ghost makes = { λ _ slots. dump_asked slots.first slots.second slots.third slots.fourth };

    fn make(self, slots: Four<Text, i64, i64, i32>) -> Result<Asked, i16> {
        let db = needed(1, slots.first)?;
        let from = optional(2, slots.second)?;
        let to = optional(3, slots.third)?;
        let limit = optional(4, slots.fourth)?;
        Ok(Asked::Dump {
            db,
            from,
            to,
            limit: as_long(limit),
        })
    }
}

// A number of four bytes as one of eight.
fn as_long(number: Option<i32>) -> Option<i64>
    ensures { result ≡ number }
{
    match number {
        Some(number) => Some(number as i64),
        None => None,
    }
}

/// `trim_events`: up to which event.
#[derive(Clone, Copy)]
pub struct TrimEvents;

impl AskReplication for TrimEvents {
    type Slots = One<i64>;

    ghost makes = { λ _ slots. trim_asked slots.first };

    fn make(self, slots: One<i64>) -> Result<Asked, i16> {
        let upto = needed(1, slots.first)?;
        Ok(Asked::Trim(upto))
    }
}
