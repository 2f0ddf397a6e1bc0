//! Whole texts of sessions, decoded plainly.

ghost use Rattle.std.specs.Prelude.{◌≡◌, ◌<◌, ◌≤◌, ◌+◌, ◌-◌, ℕ, length, take, min, IfOk, IsErrOf};
ghost use Rattle.thrift_binary.specs.Messages.{Asks, Ends, IsMessage, Message, StopsMessage};
ghost use Rattle.thrift_plain.specs.Plain.{Decodes, ending_of, flat};
ghost use Rattle.thrift_plain.specs.PlainReading.{Goes, Takes};
ghost use Rattle.thrift_binary.specs.Taking.{room_at};

use crate::plain_reader::{Halt, PlainReader};
use crate::{PlainEnd, PlainMessage, PlainMessages, Tokens};
use cat_values::NoMemory;
use std::alloc::Global;
use thrift_binary::{DEPTH_LIMIT, MESSAGE_LIMIT, SESSION_END, type_code};

/// What stands next in a text.
enum Next {
    /// A message, of so many bytes.
    Message(PlainMessage, usize),
    End(PlainEnd),
}

/// The messages that the text of a session spells, and how it ends. This is slow, and keeps all
/// that it reads: it is what tests hold the reader against, and no second reader.
pub fn plain(alloc: Global, text: &[u8]) -> Result<(PlainMessages, PlainEnd), NoMemory>
    ensures { IfOk result (λ decoded. Decodes text.now decoded.0 decoded.1) }
{
    let mut messages = PlainMessages::new(alloc);
    let mut rest = text;
    let mut start = 0;
    loop {
        match step(alloc, rest, start)? {
            Next::Message(message, size) => {
                messages.push(message)?;
                (_, rest) = rest.split_at(size);
                start += size as u64;
            }
            Next::End(end) => return Ok((messages, end)),
        }
    }
}

// What stands at the front of a text's rest, which begins at this place.
fn step(alloc: Global, rest: &[u8], start: u64) -> Result<Next, NoMemory>
    requires { start + length rest.now ≤ SESSION_END }
    ensures { IfOk result (Goes start rest.now) }
{
    if rest.is_empty() {
        return Ok(Next::End(PlainEnd::Boundary));
    }
    let room = MESSAGE_LIMIT.min(SESSION_END - start);
    let size = room.min(rest.len() as u64) as usize;
    let (window, _) = rest.split_at(size);
    let mut reader = PlainReader {
        alloc,
        rest: window,
    };
    match reader.message() {
        Ok(message) => Ok(Next::Message(message, size - reader.rest.len())),
        Err(Halt::Cut) => {
            if size < rest.len() {
                return Ok(Next::End(PlainEnd::TooLarge(start + room)));
            }
            Ok(Next::End(PlainEnd::Truncated(start + size as u64)))
        }
        Err(Halt::Bad(code, left)) => Ok(Next::End(PlainEnd::BadWire(
            code,
            start + (size - left) as u64,
        ))),
        Err(Halt::Large(left)) => Ok(Next::End(PlainEnd::TooLarge(start + (size - left) as u64))),
        Err(Halt::NoMemory) => Err(NoMemory),
    }
}

impl<'a> PlainReader<'a> {
    // A message: its head and its argument struct.
    fn message(&mut self) -> Result<PlainMessage, Halt>
        ensures { Takes self.old.rest.now self.new.rest.now result (λ m bytes. (t : Message) × (m ≡ flat t) × IsMessage Asks t bytes) (StopsMessage Asks) }
    {
        let (strict, head) = self.head()?;
        let mut arguments = Tokens::new(self.alloc);
        self.value(&mut arguments, type_code::STRUCT, DEPTH_LIMIT)?;
        Ok(PlainMessage {
            strict,
            head,
            arguments,
        })
    }
}
