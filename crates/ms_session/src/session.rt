//! One session: messages in, replies out.

ghost use Rattle.std.specs.Prelude.{◌≡◌, ◌≢◌, ◌≤◌, [], ℕ, take, IsErrOf, OnOk};
ghost use Rattle.hms_outside.specs.Causes.{Rose, StaysBut};
ghost use Rattle.desk.specs.Adds.{Adds};
ghost use Rattle.desk.specs.History.{Legal, NoneAbove};
ghost use Rattle.thrift_binary.specs.Taking.{start};
ghost use Rattle.ms_calls.specs.declared.request.Asked.{Asked};
ghost use Rattle.ms_session.specs.Requests.{CameUnderItsName};
ghost use Rattle.ms_session.specs.Session.{Session, end_of_fault};
ghost use Rattle.ms_session.specs.Turns.{Answers, shelf_of};

use crate::carrying::carry_out;
use crate::reply::gather_reply;
use crate::request::next_request;
use crate::{End, Request};
use cat_types::NoMemory;
use desk::Desk;
use hms_outside::{Clock, Folder, Sink, Source};
use ms_calls::is_one_way;
use std::alloc::Global;
use thrift_binary::{SendFault, WireFault, WireReader, WireWriter};

/// Carries out each message of the source at the desk, and answers it on the sink, unless it wants no
/// reply. A call is one step of the desk at the clock's next moment, a trim is one step, and a dump is
/// a walk of steps, which writes its files into the folder; other callers may take any turns before
/// each step. After a message that asks for the end of the session nothing more is taken.
///
/// Where memory is refused after a message was read, its reply says so, and the session goes on.
/// Where it is refused while a message is read, or while that reply is made or written, or where
/// the sink refuses it, the session ends. Nothing is carried out after a reply that could not be
/// written. The folder stays as it is but for dumps; one that fails in the folder is answered by a
/// refusal, and the session goes on.
pub fn serve_session<S: Source, K: Sink, D: Desk, F: Folder, C: Clock>(
    alloc: Global,
    source: &mut S,
    sink: &mut K,
    desk: &mut D,
    folder: &mut F,
    clock: &mut C,
) -> End
    ensures session { Adds D.alone (D.caller desk.old) (D.history desk.old) (D.history desk.new) (λ own.
        Session (record { left = S.left source.old; held = K.held sink.old; clock = C.moments clock.old; shelf = shelf_of (F.files folder.old) (F.faults folder.old) }) (record { left = S.left source.new; held = K.held sink.new; clock = C.moments clock.new; shelf = shelf_of (F.files folder.new) (F.faults folder.new) }) own result) }
    ensures caller { D.caller desk.new ≡ D.caller desk.old }
    ensures start { D.start desk.new ≡ D.start desk.old }
    ensures legal { Legal (D.start desk.old) (D.history desk.old) → Legal (D.start desk.new) (D.history desk.new) }
    ensures counted { NoneAbove (D.faults desk.old) (D.history desk.old) → NoneAbove (D.faults desk.new) (D.history desk.new) }
    ensures source_later { S.faults source.old ≤ S.faults source.new }
    ensures sink_later { K.faults sink.old ≤ K.faults sink.new }
    ensures clock_later { C.faults clock.old ≤ C.faults clock.new }
    ensures read { result ≡ End.ReadFault → Rose (S.faults source.old) (S.faults source.new) }
    ensures write { result ≡ End.WriteFault → Rose (K.faults sink.old) (K.faults sink.new) }
    ensures source_stays { result ≢ End.ReadFault → S.faults source.new ≡ S.faults source.old }
    ensures sink_stays { result ≢ End.WriteFault → K.faults sink.new ≡ K.faults sink.old }
    ensures folder_later { F.faults folder.old ≤ F.faults folder.new }
{
    let mut reader = WireReader::new(source);
    answer_all(alloc, &mut reader, sink, desk, folder, clock)
}

// Answers each message that the reader finds.
fn answer_all<S: Source, K: Sink, D: Desk, F: Folder, C: Clock>(
    alloc: Global,
    reader: &mut WireReader<'_, S>,
    sink: &mut K,
    desk: &mut D,
    folder: &mut F,
    clock: &mut C,
) -> End
    requires { reader.old.progress ≡ start }
    ensures same_source { reader.new.source.ghost_name ≡ reader.old.source.ghost_name }
    ensures session { Adds D.alone (D.caller desk.old) (D.history desk.old) (D.history desk.new) (λ own.
        Session (record { left = S.left reader.old.source.now; held = K.held sink.old; clock = C.moments clock.old; shelf = shelf_of (F.files folder.old) (F.faults folder.old) }) (record { left = S.left reader.new.source.now; held = K.held sink.new; clock = C.moments clock.new; shelf = shelf_of (F.files folder.new) (F.faults folder.new) }) own result) }
    ensures caller { D.caller desk.new ≡ D.caller desk.old }
    ensures start { D.start desk.new ≡ D.start desk.old }
    ensures legal { Legal (D.start desk.old) (D.history desk.old) → Legal (D.start desk.new) (D.history desk.new) }
    ensures counted { NoneAbove (D.faults desk.old) (D.history desk.old) → NoneAbove (D.faults desk.new) (D.history desk.new) }
    ensures source_later { S.faults reader.old.source.now ≤ S.faults reader.new.source.now }
    ensures sink_later { K.faults sink.old ≤ K.faults sink.new }
    ensures clock_later { C.faults clock.old ≤ C.faults clock.new }
    ensures read { result ≡ End.ReadFault → Rose (S.faults reader.old.source.now) (S.faults reader.new.source.now) }
    ensures write { result ≡ End.WriteFault → Rose (K.faults sink.old) (K.faults sink.new) }
    ensures source_stays { result ≢ End.ReadFault → S.faults reader.new.source.now ≡ S.faults reader.old.source.now }
    ensures sink_stays { result ≢ End.WriteFault → K.faults sink.new ≡ K.faults sink.old }
    ensures folder_later { F.faults folder.old ≤ F.faults folder.new }
{
    let mut writer = WireWriter::new(alloc);
    loop {
        let request = match next_request(alloc, reader) {
            Ok(Some(request)) => request,
            Ok(None) => return End::Done,
            Err(fault) => return end_of(fault),
        };
        if request.is_shutdown() {
            drop(request);
            return End::Shutdown;
        }
        match answer(alloc, request, &mut writer, sink, desk, folder, clock) {
            Ok(()) => {}
            Err(SendFault::WriteFault) => return End::WriteFault,
            Err(SendFault::NoMemory) => return End::NoMemory,
        }
    }
}

// The end that a fault of the reader makes.
fn end_of(fault: WireFault) -> End
    ensures { result ≡ end_of_fault fault }
{
    match fault {
        WireFault::Truncated(place) => End::Truncated(place),
        WireFault::BadWire(code, place) => End::BadWire(code, place),
        WireFault::TooLarge(place) => End::TooLarge(place),
        WireFault::ReadFault => End::ReadFault,
        WireFault::NoMemory => End::NoMemory,
    }
}

// Carries out one message that doesn't end the session, and answers it, unless it wants no reply.
fn answer<K: Sink, D: Desk, F: Folder, C: Clock>(
    alloc: Global,
    request: Request,
    writer: &mut WireWriter,
    sink: &mut K,
    desk: &mut D,
    folder: &mut F,
    clock: &mut C,
) -> Result<(), SendFault>
    requires empty { writer.old ≡ [] }
    requires goes_on { request.asked ≡ Asked.Shutdown → ⊥ }
    requires named { CameUnderItsName request }
    ensures emptied { OnOk result (writer.new ≡ []) }
    ensures answers { Adds D.alone (D.caller desk.old) (D.history desk.old) (D.history desk.new) (λ own.
        Answers request own (C.moments clock.old) (C.moments clock.new) (shelf_of (F.files folder.old) (F.faults folder.old)) (shelf_of (F.files folder.new) (F.faults folder.new)) (K.held sink.old) (K.held sink.new) result) }
    ensures caller { D.caller desk.new ≡ D.caller desk.old }
    ensures start { D.start desk.new ≡ D.start desk.old }
    ensures legal { Legal (D.start desk.old) (D.history desk.old) → Legal (D.start desk.new) (D.history desk.new) }
    ensures counted { NoneAbove (D.faults desk.old) (D.history desk.old) → NoneAbove (D.faults desk.new) (D.history desk.new) }
    ensures later { K.faults sink.old ≤ K.faults sink.new }
    ensures clock_later { C.faults clock.old ≤ C.faults clock.new }
    ensures cause { IsErrOf result SendFault.WriteFault → Rose (K.faults sink.old) (K.faults sink.new) }
    ensures sink_stays { StaysBut SendFault.WriteFault result (K.faults sink.old) (K.faults sink.new) }
    ensures folder_later { F.faults folder.old ≤ F.faults folder.new }
{
    let Request {
        head,
        method,
        asked,
    } = request;
    let due = carry_out(alloc, asked, desk, folder, clock);
    if is_one_way(&head) {
        drop(due);
        return Ok(());
    }
    match gather_reply(alloc, &head, method, due, writer) {
        Ok(()) => writer.send(sink),
        Err(NoMemory) => Err(SendFault::NoMemory),
    }
}
