//! What comes off a session's source.

ghost use Rattle.std.specs.Prelude.{◌≡◌, ◌<◌, ◌≤◌, ◌↔◌, None, IfErr, IfNone, IfOk, IfSome, IsErrOf, IsTrue, OnSome};
ghost use Rattle.std.specs.Io.KnownBytes.{IsAtEnd};
ghost use Rattle.hms_outside.specs.Causes.{Rose, StaysBut};
ghost use Rattle.ms_structs.specs.Getting.{ReadsTree};
ghost use Rattle.thrift_binary.specs.Messages.{Asks, StopsMessage};
ghost use Rattle.thrift_binary.specs.Openings.{IsInside};
ghost use Rattle.thrift_binary.specs.Taking.{fresh};
ghost use Rattle.ms_session.specs.Requests.{CameUnderItsName, IsNext, SaysRequest};

use hms_outside::Source;
use ms_calls::{Asked, Method, asked_by, method_named};
use std::alloc::Global;
use thrift_binary::{Head, WireFault, WireReader};

/// A message of a session: its head, the method that its name is, where anybody knows it, and what
/// it asks.
#[derive(Drop)]
pub struct Request {
    pub head: Head,
    pub method: Option<Method>,
    pub asked: Asked,
}

impl Request {
    /// Whether the message ends its session.
    pub fn is_shutdown(&self) -> bool
        ensures { IsTrue result ↔ (self.now.asked ≡ Asked.Shutdown) }
    {
        matches!(self.asked, Asked::Shutdown)
    }
}

/// The next message, or `None` exactly at the end of the input.
pub fn next_request<S: Source>(
    alloc: Global,
    reader: &mut WireReader<'_, S>,
) -> Result<Option<Request>, WireFault>
    ensures same_source { reader.new.source.ghost_name ≡ reader.old.source.ghost_name }
    ensures later { S.faults reader.old.source.now ≤ S.faults reader.new.source.now }
    ensures cause { reader.old.progress.fault ≡ None → IsErrOf result WireFault.ReadFault → Rose (S.faults reader.old.source.now) (S.faults reader.new.source.now) }
    ensures stays { StaysBut WireFault.ReadFault result (S.faults reader.old.source.now) (S.faults reader.new.source.now) }
    ensures reads { ReadsTree (S.left reader.old.source.now) (S.left reader.new.source.now) (fresh reader.old.progress) reader.new.progress result IsNext SaysRequest (StopsMessage Asks) }
    ensures end { IfOk result (λ request. IfNone request (IsAtEnd (S.left reader.new.source.now))) }
    ensures inside { IfErr result (IsInside reader.old.progress) }
    ensures forward { IfOk result (λ request. OnSome request (reader.old.progress.place < reader.new.progress.place)) }
    ensures named { IfOk result (λ request. IfSome request CameUnderItsName) }
{
    let Some(head) = reader.head(alloc)? else {
        return Ok(None);
    };
    let method = method_named(head.name.as_str());
    let asked = asked_by(alloc, method, reader)?;
    Ok(Some(Request {
        head,
        method,
        asked,
    }))
}
