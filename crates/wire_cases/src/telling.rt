//! Sessions, told in words: of each message its name, kind, sequence id and the pieces of its argument
//! struct, and then how the input ends.

use cat_values::Text;
use std::alloc::Global;
use table_cases::Unable;
use thrift_binary::numbers::long_of;
use thrift_binary::{Head, WireFault};
use thrift_plain::{PlainMessage, Token};

// From how many bytes a text, and from how many pieces an argument struct is told by its size.
const MANY: usize = 60;

/// A message: its form, its head and the pieces of its argument struct.
pub fn told_message(alloc: Global, message: &PlainMessage) -> Result<String, Unable> {
    let form = if message.strict { "strict" } else { "old" };
    let head = &message.head;
    let name = head.name.as_str();
    let name = if name.len() > MANY { "(long)" } else { name };
    let (kind, sequence) = (head.kind, head.sequence);
    let mut words = format!(in alloc; "{form} {name} {kind} {sequence}")?;
    tell_pieces(alloc, message.arguments.as_slice(), &mut words)?;
    words.push_str("; ")?;
    Ok(words)
}

/// The head of a message, however long its name is.
pub fn told_head(alloc: Global, head: &Head) -> Result<String, Unable> {
    let (name, kind, sequence) = (head.name.as_str(), head.kind, head.sequence);
    Ok(format!(in alloc; "{name} {kind} {sequence}")?)
}

// Adds the pieces of an argument struct, or how many they are.
fn tell_pieces(alloc: Global, pieces: &[Token], words: &mut String) -> Result<(), Unable> {
    let count = pieces.len();
    if count > MANY {
        words.push_str(format!(in alloc; " {count} pieces")?.as_str())?;
        return Ok(());
    }
    for piece in pieces {
        words.push_str(told_piece(alloc, piece)?.as_str())?;
    }
    Ok(())
}

fn told_piece(alloc: Global, piece: &Token) -> Result<String, Unable> {
    Ok(match piece {
        Token::Field(ty, id) => format!(in alloc; " {ty}@{id}")?,
        Token::Stop => format!(in alloc; " stop")?,
        Token::Flag(value) => format!(in alloc; " {value}")?,
        Token::Byte(value) => format!(in alloc; " byte {value}")?,
        Token::Short(value) => format!(in alloc; " short {value}")?,
        Token::Int(value) => format!(in alloc; " int {value}")?,
        Token::Long(value) => format!(in alloc; " long {value}")?,
        Token::Eight(value) => told_eight(alloc, value)?,
        Token::Text(value) => told_text(alloc, value.as_slice())?,
        Token::List(ty, count) => format!(in alloc; " list {ty} {count}")?,
        Token::Map(key, value, count) => format!(in alloc; " map {key} {value} {count}")?,
    })
}

// Eight bytes, as the number that they are.
fn told_eight(alloc: Global, bytes: &[u8; 8]) -> Result<String, Unable> {
    let number = long_of(bytes);
    Ok(format!(in alloc; " eight {number}")?)
}

// A text; one that is long or no text by its size.
fn told_text(alloc: Global, bytes: &[u8]) -> Result<String, Unable> {
    let size = bytes.len();
    if size <= MANY
        && let Some(text) = Text::from_utf8(bytes.to_vec(alloc)?)
    {
        let text = text.as_str();
        return Ok(format!(in alloc; " text {text}")?);
    }
    Ok(format!(in alloc; " bytes {size}")?)
}

/// How the input ends.
pub fn told_end(alloc: Global, end: Option<WireFault>) -> Result<String, Unable> {
    Ok(match end {
        None => format!(in alloc; "boundary")?,
        Some(WireFault::Truncated(at)) => format!(in alloc; "truncated at {at}")?,
        Some(WireFault::BadWire(code, at)) => format!(in alloc; "bad {code} at {at}")?,
        Some(WireFault::TooLarge(at)) => format!(in alloc; "too large at {at}")?,
        Some(WireFault::ReadFault) => format!(in alloc; "read fault")?,
        Some(WireFault::NoMemory) => format!(in alloc; "out of memory")?,
    })
}
