//! Sending bytes whole to a sink.

ghost use Rattle.std.specs.Prelude.{ℕ, take, OnErr, OnOk};
ghost use Rattle.hms_outside.specs.Causes.{HasCause};
ghost use Rattle.hms_outside.specs.Told.{Goes, Grew, Sent};

use crate::{Outage, Sink};

/// Writes all the bytes, and flushes once. After an `Err` a front of them was written.
pub fn send_all<K: Sink>(sink: &mut K, bytes: &[u8]) -> Result<(), Outage>
    ensures ok { OnOk result (Goes (Sent bytes.now) (K.held sink.old) (K.held sink.new)) }
    ensures err { OnErr result ((n : ℕ) × Goes (Grew (take n bytes.now)) (K.held sink.old) (K.held sink.new)) }
    ensures cause { HasCause (K.faults sink.old) (K.faults sink.new) result }
{
    write_all(sink, bytes)?;
    match sink.flush() {
        Ok(()) => Ok(()),
        Err(Outage::Failed) => Err(Outage::Failed),
        Err(Outage::NoMemory) => Err(Outage::NoMemory),
    }
}

// Writes all the bytes.
fn write_all<K: Sink>(sink: &mut K, message: &[u8]) -> Result<(), Outage>
    ensures ok { OnOk result (Goes (Grew message.now) (K.held sink.old) (K.held sink.new)) }
    ensures err { OnErr result ((n : ℕ) × Goes (Grew (take n message.now)) (K.held sink.old) (K.held sink.new)) }
    ensures cause { HasCause (K.faults sink.old) (K.faults sink.new) result }
{
    let mut at = 0;
    while at < message.len() {
        match sink.write(&message[at..]) {
            Ok(count) => at += count,
            Err(Outage::Failed) => return Err(Outage::Failed),
            Err(Outage::NoMemory) => return Err(Outage::NoMemory),
        }
    }
    Ok(())
}
