//! The arguments of calls. A wrong one is told by its id.

ghost use Rattle.std.specs.Prelude.{◌≡◌, ◌≤◌, ℤ, None, Result, IsErrOf};
ghost use Rattle.cat_types.specs.declared.calls.Call.{Call};
ghost use Rattle.hms_outside.specs.Causes.{Rose, StaysBut};
ghost use Rattle.ms_calls.specs.Arguments.{from_four, given, needed, needed_three, needed_two, optional, with_context};
ghost use Rattle.ms_calls.specs.Asked.{client};
ghost use Rattle.ms_structs.specs.Getting.{ReadsTree};
ghost use Rattle.thrift_binary.specs.Codes.{struct_code};
ghost use Rattle.thrift_binary.specs.Tree.{Struct};
ghost use Rattle.thrift_binary.specs.Wire.{IsWire, StopsWire};

use crate::Asked;
use crate::slots::Shape;
use cat_types::Call;
use hms_outside::Source;
use ms_structs::Got;
use std::alloc::Global;
use thrift_binary::{WireFault, WireReader};

/// Calls of the catalogue whose arguments have one shape.
pub trait Ask: Drop {
    /// The slots of the arguments.
    type Slots: Drop;

    /// The call that the arguments make, or the least id of a wrong one.
    ghost makes: { Self → Self.Slots → Result Call ℤ };

    /// The call that the arguments make, or the least id of a wrong one.
    fn make(self, slots: Self::Slots) -> Result<Call, i16>
        ensures { result ≡ makes self slots };
}

/// Reads the arguments of a call of the catalogue, and says what the message asks.
pub fn read_call<C: Ask, S: Source>(
    alloc: Global,
    call: C,
    reader: &mut WireReader<'_, S>,
) -> Result<Asked, WireFault>
where
    C::Slots: Shape,
    ensures same_source { reader.new.source.ghost_name ≡ reader.old.source.ghost_name }
    ensures later { S.faults reader.old.source.now ≤ S.faults reader.new.source.now }
    ensures cause { reader.old.progress.fault ≡ None → IsErrOf result WireFault.ReadFault → Rose (S.faults reader.old.source.now) (S.faults reader.new.source.now) }
    ensures stays { StaysBut WireFault.ReadFault result (S.faults reader.old.source.now) (S.faults reader.new.source.now) }
    ensures reads { ReadsTree (S.left reader.old.source.now) (S.left reader.new.source.now) reader.old.progress reader.new.progress result (λ v. IsWire (Struct v) reader.old.progress.room struct_code) (λ v asked. asked ≡ client (C.makes call (C.Slots.says v))) (StopsWire reader.old.progress.room struct_code) }
{
    let slots = C::Slots::read::<S>(alloc, reader)?;
    Ok(client(call.make(slots)))
}

/// An argument that must be there, with no text in it that isn't UTF-8; or else its id.
pub fn needed<T: Drop>(id: i16, got: Got<T>) -> Result<T, i16>
    ensures { result ≡ needed id got }
{
    match got {
        Got::Is(value) => Ok(value),
        Got::Nothing | Got::BadText => Err(id),
    }
}

/// Two arguments that must be there, with the ids 1 and 2; or else the least id of one that isn't.
pub fn needed_two<A: Drop, B: Drop>(first: Got<A>, second: Got<B>) -> Result<(A, B), i16>
    ensures { result ≡ needed_two first second }
{
    let first = needed(1, first)?;
    let second = needed(2, second)?;
    Ok((first, second))
}

/// Three arguments that must be there, with the ids from 1 to 3; or else the least id of one that
/// isn't.
pub fn needed_three<A: Drop, B: Drop, C: Drop>(
    first: Got<A>,
    second: Got<B>,
    third: Got<C>,
) -> Result<(A, B, C), i16>
    ensures { result ≡ needed_three first second third }
{
    let first = needed(1, first)?;
    let second = needed(2, second)?;
    let third = needed(3, third)?;
    Ok((first, second, third))
}

/// Four arguments that must be there, with the ids from 1 to 4; or else the least id of one that
/// isn't.
pub fn needed_four<A: Drop, B: Drop, C: Drop, D: Drop>(
    first: Got<A>,
    second: Got<B>,
    third: Got<C>,
    fourth: Got<D>,
) -> Result<(A, B, C, D), i16>
    ensures { result ≡ from_four first second third fourth (λ a b c d. (a, b, c, d)) }
{
    let (first, second, third) = needed_three(first, second, third)?;
    let fourth = needed(4, fourth)?;
    Ok((first, second, third, fourth))
}

/// An argument that may be absent, and then has this value; or its id, where a text in it isn't
/// UTF-8.
pub fn given<T: Drop>(id: i16, absent: T, got: Got<T>) -> Result<T, i16>
    ensures { result ≡ given id absent got }
{
    match got {
        Got::Is(value) => Ok(value),
        Got::Nothing => Ok(absent),
        Got::BadText => Err(id),
    }
}

/// An argument that may be absent, and then stays so; or its id, where a text in it isn't UTF-8.
pub fn optional<T: Drop>(id: i16, got: Got<T>) -> Result<Option<T>, i16>
    ensures { result ≡ optional id got }
{
    match got {
        Got::Is(value) => Ok(Some(value)),
        Got::Nothing => Ok(None),
        Got::BadText => Err(id),
    }
}

/// What was made of the other arguments, unless a text in the context that came with them isn't
/// UTF-8; of the context nothing is used.
pub fn with_context<T: Drop>(id: i16, context: Got<()>, made: Result<T, i16>) -> Result<T, i16>
    ensures { result ≡ with_context id context made }
{
    let value = made?;
    given(id, (), context)?;
    Ok(value)
}

// What a message asks that makes a call of the catalogue, or has a wrong argument with this id.
fn client(call: Result<Call, i16>) -> Asked
    ensures { result ≡ client call }
{
    match call {
        Ok(call) => Asked::Client(call),
        Err(id) => Asked::BadArgument(id),
    }
}
