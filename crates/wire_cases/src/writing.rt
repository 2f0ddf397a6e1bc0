//! What is written. An input is `call` or `reply` and the bytes of a call, in whatever spelling, which the
//! plain decoder takes to pieces.

use crate::sessions::told;
use cat_values::{TEXT_LIMIT, Text};
use hms_outside::MemSink;
use std::alloc::Global;
use table_cases::{Answers, Unable, bytes_of, digits_of};
use thrift_binary::{COUNT_LIMIT, WireWriter};
use thrift_plain::{PlainMessage, Token, plain};

/// The bytes that are written of a message piece by piece, or of a reply with the same pieces; and what
/// is read of them.
pub struct Written;

impl Answers for Written {
    fn answer(&self, alloc: Global, input: &str) -> Result<String, Unable> {
        let (form, digits) = input.split_once(' ').ok_or(Unable::Form)?;
        let bytes = rewritten(alloc, &bytes_of(alloc, digits)?, form == "reply")?;
        let digits = digits_of(alloc, &bytes)?;
        let told = told(alloc, &bytes)?;
        Ok(format!(in alloc; "{digits}; {told}")?)
    }
}

// What is written of the messages that bytes spell.
fn rewritten(alloc: Global, bytes: &[u8], as_replies: bool) -> Result<Vec<u8>, Unable> {
    let mut sink = MemSink::new(alloc, Vec::new(alloc));
    let mut writer = WireWriter::new(alloc);
    let (messages, _) = plain(alloc, bytes)?;
    for message in messages.as_slice() {
        gather(alloc, &mut writer, message, as_replies)?;
        if writer.send(&mut sink).is_err() {
            return Err(Unable::NoMemory);
        }
    }
    Ok(sink.bytes().to_vec(alloc)?)
}

// Gathers a message.
fn gather(
    alloc: Global,
    writer: &mut WireWriter,
    message: &PlainMessage,
    as_reply: bool,
) -> Result<(), Unable> {
    if as_reply {
        writer.reply_head(&message.head, 2)?;
    } else {
        writer.head(&message.head)?;
    }
    for piece in message.arguments.as_slice() {
        gather_piece(alloc, writer, piece)?;
    }
    Ok(())
}

// Gathers a piece of an argument struct.
fn gather_piece(alloc: Global, writer: &mut WireWriter, piece: &Token) -> Result<(), Unable> {
    match piece {
        Token::Field(ty, id) => writer.field(*ty, *id)?,
        Token::Stop => writer.stop()?,
        Token::Flag(value) => writer.flag(*value)?,
        Token::Byte(value) => writer.byte(*value)?,
        Token::Short(value) => writer.short(*value)?,
        Token::Int(value) => writer.int(*value)?,
        Token::Long(value) => writer.long(*value)?,
        Token::Eight(value) => writer.eight(*value)?,
        Token::Text(value) => gather_text(alloc, writer, value.as_slice())?,
        Token::List(ty, count) => writer.list(*ty, (*count).min(COUNT_LIMIT))?,
        Token::Map(key, value, count) => writer.map(*key, *value, (*count).min(COUNT_LIMIT))?,
    }
    Ok(())
}

// Gathers a text.
fn gather_text(alloc: Global, writer: &mut WireWriter, bytes: &[u8]) -> Result<(), Unable> {
    if bytes.len() > TEXT_LIMIT {
        return Err(Unable::Form);
    }
    match Text::from_utf8(bytes.to_vec(alloc)?) {
        Some(text) => Ok(writer.text(&text)?),
        None => Err(Unable::Form),
    }
}
