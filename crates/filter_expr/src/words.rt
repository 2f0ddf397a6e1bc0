//! The token at the front of a text.

ghost use Rattle.std.specs.Prelude.{◌≡◌, ◌+◌, ◌<◌, ◌≤◌, length, map, IfOk, IfSome, false, true};
ghost use Rattle.std.specs.Char.{is_ascii_digit, to_ascii_lowercase};
ghost use Rattle.std.specs.List.{list_all, prefix_len};
ghost use Rattle.std.specs.Str.{IsAscii};
ghost use Rattle.cat_values.specs.declared.text.TheConstants.{TEXT_LIMIT};
ghost use Rattle.filter_expr.specs.Tokens.{behind_quote, is_last, is_operator_byte, is_word_byte, is_word_start, keyword, mark, number_len, number_token, operator, operator_token, quoted_token, token_at, word_token};

use crate::integers::integer_of;
use crate::token::{Literal, Mark, Operator, Token};
use cat_values::{Bytes, NoMemory, Text};
use std::alloc::Global;

/// The token at the front of a text that begins with no space, and how many bytes it takes. The
/// longest token counts; the end of the text and `Bad`, where no token is, take none.
pub fn token_at(alloc: Global, text: &[u8]) -> Result<(Token, usize), NoMemory>
    requires { length text.now ≤ TEXT_LIMIT }
    ensures found { IfOk result (λ found. found ≡ token_at text.now) }
    ensures within { IfOk result (λ found. found.1 ≤ length text.now) }
    ensures some { IfOk result (λ found. is_last found.0 ≡ false → 0 < found.1) }
{
    let [first, rest @ ..] = text else {
        return Ok((Token::End, 0));
    };
    if let Some(mark) = mark_of(*first) {
        return Ok((Token::Marked(mark), 1));
    }
    if is_operator_byte(*first) {
        return Ok(operator_token(*first, rest));
    }
    if *first == b'\'' || *first == b'"' {
        return quoted_token(alloc, *first, rest);
    }
    if *first == b'-' || first.is_ascii_digit() {
        return Ok(number_token(text));
    }
    if is_word_start(*first) {
        return word_token(alloc, text);
    }
    Ok((Token::Bad, 0))
}

// The mark that a byte is by itself.
fn mark_of(byte: u8) -> Option<Mark>
    ensures { result ≡ mark byte }
{
    match byte {
        b'(' => Some(Mark::Open),
        b')' => Some(Mark::Close),
        b',' => Some(Mark::Comma),
        _ => None,
    }
}

fn is_operator_byte(byte: u8) -> bool
    ensures { result ≡ is_operator_byte byte }
{
    byte == b'=' || byte == b'!' || byte == b'<' || byte == b'>'
}

fn operator_token(first: u8, rest: &[u8]) -> (Token, usize)
    ensures found { result ≡ operator_token first rest.now }
    ensures within { result.1 ≤ length rest.now + 1 }
    ensures some { is_last result.0 ≡ false → 0 < result.1 }
{
    let second = match rest {
        [second, ..] => *second,
        [] => 0,
    };
    match operator_of(first, second) {
        Some((operator, len)) => (Token::Compare(operator), len),
        None => (Token::Bad, 0),
    }
}

// The operator that begins with two bytes, and how many of them it takes.
fn operator_of(first: u8, second: u8) -> Option<(Operator, usize)>
    ensures found { result ≡ operator first second }
    ensures some { IfSome result (λ found. 0 < found.1) }
    ensures short { IfSome result (λ found. (found.1 ≤ 2) × (second ≡ 0 → found.1 ≤ 1)) }
{
    match (first, second) {
        (b'=', _) => Some((Operator::Equals, 1)),
        (b'!', b'=') => Some((Operator::Differs, 2)),
        (b'<', b'=') => Some((Operator::AtMost, 2)),
        (b'<', b'>') => Some((Operator::Differs, 2)),
        (b'<', _) => Some((Operator::Below, 1)),
        (b'>', b'=') => Some((Operator::AtLeast, 2)),
        (b'>', _) => Some((Operator::Above, 1)),
        _ => None,
    }
}

// The text that ends at the next quotation mark.
fn quoted_token(alloc: Global, quote: u8, rest: &[u8]) -> Result<(Token, usize), NoMemory>
    requires { length rest.now ≤ TEXT_LIMIT }
    ensures found { IfOk result (λ found. found ≡ quoted_token quote rest.now) }
    ensures within { IfOk result (λ found. found.1 ≤ length rest.now + 1) }
    ensures some { IfOk result (λ found. is_last found.0 ≡ false → 0 < found.1) }
{
    match behind_quote(alloc, quote, rest)? {
        Some((body, len)) => Ok((Token::Value(Literal::Quoted(body)), len + 1)),
        None => Ok((Token::Bad, 0)),
    }
}

// The unescaped bytes before the next quotation mark, and how many bytes it takes to read them and
// the mark.
fn behind_quote(alloc: Global, quote: u8, rest: &[u8]) -> Result<Option<(Bytes, usize)>, NoMemory>
    requires { length rest.now ≤ TEXT_LIMIT }
    ensures found { IfOk result (λ found. found ≡ behind_quote quote false rest.now) }
    ensures within { IfOk result (λ found. IfSome found (λ read. read.1 ≤ length rest.now)) }
{
    let mut body = Bytes::new(alloc);
    let mut escaped = false;
    for (before, byte) in rest.iter().enumerate() {
        if !escaped && *byte == quote {
            return Ok(Some((body, before + 1)));
        }
        if !escaped && *byte == b'\\' {
            escaped = true;
        } else {
            body.push(*byte)?;
            escaped = false;
        }
    }
    Ok(None)
}

fn number_token(text: &[u8]) -> (Token, usize)
    requires { length text.now ≤ TEXT_LIMIT }
    ensures found { result ≡ number_token text.now }
    ensures within { result.1 ≤ length text.now }
    ensures some { is_last result.0 ≡ false → 0 < result.1 }
{
    let len = number_len(text);
    let (front, _) = text.split_at(len);
    match integer_of(front) {
        Some(number) => (Token::Value(Literal::Number(number)), len),
        None => (Token::Bad, 0),
    }
}

// How many bytes a `-`, if there is one, and the digits behind it are.
fn number_len(text: &[u8]) -> usize
    requires { length text.now ≤ TEXT_LIMIT }
    ensures len { result ≡ number_len text.now }
    ensures within { result ≤ length text.now }
{
    match text {
        [b'-', digits @ ..] => digits_len(digits) + 1,
        digits => digits_len(digits),
    }
}

fn digits_len(text: &[u8]) -> usize
    ensures len { result ≡ prefix_len is_ascii_digit text.now }
    ensures within { result ≤ length text.now }
{
    text.iter().take_while(|byte| byte.is_ascii_digit()).count()
}

#[tactic(auto, using(crate::proofs::Ascii::word_passes))]
fn word_token(alloc: Global, text: &[u8]) -> Result<(Token, usize), NoMemory>
    requires { length text.now ≤ TEXT_LIMIT }
    ensures found { IfOk result (λ found. found ≡ word_token text.now) }
    ensures within { IfOk result (λ found. found.1 ≤ length text.now) }
{
    let len = word_len(text);
    let (word, _) = text.split_at(len);
    match keyword_of(word) {
        Some(mark) => Ok((Token::Marked(mark), len)),
        None => Ok((Token::Key(lowered(alloc, word)?), len)),
    }
}

// The keyword that a word is in lower case.
fn keyword_of(word: &[u8]) -> Option<Mark>
    ensures { result ≡ keyword (map to_ascii_lowercase word.now) }
{
    if word.eq_ignore_ascii_case(b"and") {
        Some(Mark::And)
    } else if word.eq_ignore_ascii_case(b"or") {
        Some(Mark::Or)
    } else if word.eq_ignore_ascii_case(b"not") {
        Some(Mark::Not)
    } else if word.eq_ignore_ascii_case(b"in") {
        Some(Mark::In)
    } else if word.eq_ignore_ascii_case(b"between") {
        Some(Mark::Between)
    } else {
        None
    }
}

// A word in lower case.
#[tactic(auto, using(crate::proofs::Ascii::lower_text))]
fn lowered(alloc: Global, word: &[u8]) -> Result<Text, NoMemory>
    requires short { length word.now ≤ TEXT_LIMIT }
    requires word { list_all is_word_byte word.now ≡ true }
    ensures { IfOk result (λ text. text ≡ map to_ascii_lowercase word.now) }
{
    let bytes: Vec<u8> = word
        .iter()
        .map(|byte| byte.to_ascii_lowercase())
        .collect(alloc)?;
    Ok(ascii_text(bytes))
}

// The text with these bytes.
#[tactic(auto, using(crate::proofs::Ascii::utf8_from_ascii))]
fn ascii_text(bytes: Vec<u8>) -> Text
    requires short { length bytes.items ≤ TEXT_LIMIT }
    requires ascii { IsAscii bytes.items }
    ensures { result ≡ bytes.items }
{
    match Text::from_utf8(bytes) {
        Some(text) => text,
        None => unreachable!(),
    }
}

fn word_len(text: &[u8]) -> usize
    ensures len { result ≡ prefix_len is_word_byte text.now }
    ensures within { result ≤ length text.now }
{
    text.iter().take_while(|byte| is_word_byte(**byte)).count()
}

fn is_word_start(byte: u8) -> bool
    ensures { result ≡ is_word_start byte }
{
    byte.is_ascii_alphabetic() || byte == b'_'
}

fn is_word_byte(byte: u8) -> bool
    ensures { result ≡ is_word_byte byte }
{
    byte.is_ascii_alphanumeric() || byte == b'_'
}
