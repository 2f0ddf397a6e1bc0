//! The writer over sinks that fail.

use cat_values::{NoMemory, Text, TextFault};
use hms_outside::MemSink;
use std::alloc::Global;
use std::test::Fail;
use thrift_binary::{Head, SendFault, WireWriter};

// A reply to `x` without fields.
const MESSAGE: &[u8] = b"\x80\x01\x00\x02\x00\x00\x00\x01x\x00\x00\x00\x05\x00";

// It twice.
const TWICE: &[u8] = b"\x80\x01\x00\x02\x00\x00\x00\x01x\x00\x00\x00\x05\x00\
\x80\x01\x00\x02\x00\x00\x00\x01x\x00\x00\x00\x05\x00";

// Why a message wasn't gathered: its name is short, so want of memory.
fn short(_: TextFault) -> NoMemory {
    NoMemory
}

fn gather(alloc: Global, writer: &mut WireWriter) -> Result<(), NoMemory> {
    let name = Text::of(alloc, "x").map_err(short)?;
    writer.head(&Head {
        name,
        kind: 2,
        sequence: 5,
    })?;
    writer.stop()
}

// Two messages are sent from one writer, each by one flush; what was cleared between is not sent.
fn is_sent_twice(alloc: Global) -> Result<bool, NoMemory> {
    let mut writer = WireWriter::new(alloc);
    let mut sink = MemSink::new(alloc, Vec::new(alloc));
    gather(alloc, &mut writer)?;
    let first = writer.send(&mut sink).is_ok();
    writer.long(7)?;
    writer.clear();
    gather(alloc, &mut writer)?;
    let second = writer.send(&mut sink).is_ok();
    let flushed = sink.flushes() == [14, 28].as_slice();
    Ok(first && second && flushed && sink.bytes() == TWICE)
}

#[test]
fn each_message_is_sent_with_one_flush(rt: HostRuntime) -> Result<(), Fail> {
    assert!(rt; is_sent_twice(rt.alloc())?);
    Ok(())
}

// The sink's call with this number fails: it then holds this, nothing was flushed, and the message may be
// sent once more.
fn is_told(alloc: Global, failing: u64, held: &[u8]) -> Result<bool, NoMemory> {
    let mut sink = MemSink::new(alloc, vec![in alloc; failing]?);
    let mut writer = WireWriter::new(alloc);
    gather(alloc, &mut writer)?;
    let answer = writer.send(&mut sink);
    let holds = sink.bytes() == held && sink.flushes().is_empty();
    let again = writer.send(&mut sink).is_ok() && sink.bytes().ends_with(MESSAGE);
    Ok(answer == Err(SendFault::WriteFault) && holds && again)
}

#[test]
fn a_sink_that_fails_holds_a_front(rt: HostRuntime) -> Result<(), Fail> {
    // The first call is a write of the whole message, the second one the flush.
    assert!(rt; is_told(rt.alloc(), 0, b"")?);
    assert!(rt; is_told(rt.alloc(), 1, MESSAGE)?);
    Ok(())
}
