//! The tokens of a text, taken one by one.

ghost use Rattle.std.specs.Prelude.{◌≡◌, ◌+◌, ◌≤◌, false, length, IfOk};
ghost use Rattle.std.specs.Bool.{OnTrue, OnFalse};
ghost use Rattle.cat_values.specs.declared.text.TheConstants.{TEXT_LIMIT};
ghost use Rattle.filter_expr.specs.Tokens.{begins_with_space, is_space, tokens, tokens_behind};
ghost use Rattle.filter_expr.specs.declared.token.Token.TheVariants.{End, Marked, Value};
ghost use Rattle.filter_expr.specs.declared.token.Literal.{Literal};
ghost use Rattle.filter_expr.specs.Grammar.{BeginsWith, IsALiteral, IsEnd, IsKey, IsKeyClosed, IsLiteral, IsMark, IsMarked, IsNotFirst, IsRefused, Parsed, StopsKey, StopsLiteral, StopsMark, TakesMark, TakesOperator};

use crate::FilterFault;
use crate::token::{Literal, Mark, Operator, Token};
use crate::words::token_at;
use cat_values::{NoMemory, Text};
use std::alloc::Global;
use std::marker::Model;
use std::mem;

/// What is left of a text's tokens: one that was read, and the text behind it. Contracts see it as
/// the list of them, each with the offset of its first byte.
#[derive(Drop)]
pub struct Lexer<'a> {
    place: usize,
    token: Token,
    behind: usize,
    rest: &'a [u8],
}

impl<'a> Model for Lexer<'a> {
    ghost use Rattle.std.specs.Prelude.{List, ℕ, ◌≤◌, ◌+◌, length};
    ghost use Rattle.cat_values.specs.declared.text.TheConstants.{TEXT_LIMIT};
    ghost use Rattle.filter_expr.specs.declared.token.Token.{Token};

    ghost Value = { List (ℕ × Token) };

    ghost use Rattle.filter_expr.specs.Tokens.{tokens_left};

    ghost view = { λ l. tokens_left l.place l.token l.behind l.rest.now };

    ghost invariant = { λ l. l.behind + length l.rest.now ≤ TEXT_LIMIT };
}

impl<'a> Lexer<'a> {
    /// The tokens of a text.
    pub fn new(alloc: Global, text: &'a Text) -> Result<Lexer<'a>, NoMemory>
        ensures { IfOk result (λ lexer. lexer ≡ tokens text.now) }
    {
        scan(alloc, text.as_str().as_bytes(), 0)
    }

    /// The refusal of the first token.
    pub fn fault(&self) -> FilterFault
        ensures { IsRefused self.now result }
    {
        FilterFault::Syntax(self.place as u64)
    }

    /// Whether the first token is a mark.
    pub fn is_at(&self, mark: Mark) -> bool
        ensures yes { OnTrue result (BeginsWith (Marked mark) self.now) }
        ensures no { OnFalse result (IsNotFirst (IsMarked mark) self.now) }
    {
        match self.token {
            Token::Marked(found) => found == mark,
            _ => false,
        }
    }

    /// Whether the first token is the text's end.
    pub fn is_at_end(&self) -> bool
        ensures yes { OnTrue result (BeginsWith End self.now) }
        ensures no { OnFalse result (IsNotFirst IsEnd self.now) }
    {
        matches!(self.token, Token::End)
    }

    /// Whether the first token is a literal.
    pub fn is_at_literal(&self) -> bool
        ensures yes { OnTrue result ((literal : Literal) × BeginsWith (Value literal) self.now) }
        ensures no { OnFalse result (IsNotFirst IsALiteral self.now) }
    {
        matches!(self.token, Token::Value(_))
    }

    /// Whether the first two tokens are a key and a closed parenthesis.
    pub fn is_key_closed(&self, alloc: Global) -> Result<bool, NoMemory>
        ensures yes { IfOk result (λ is. OnTrue is (IsKeyClosed self.now)) }
        ensures no { IfOk result (λ is. OnFalse is (IsKeyClosed self.now → ⊥)) }
    {
        match self.token {
            Token::Key(_) => Ok(scan(alloc, self.rest, self.behind)?.is_at(Mark::Close)),
            _ => Ok(false),
        }
    }

    /// Takes the first token if it is a mark, and tells whether it is.
    pub fn take_mark(&mut self, alloc: Global, mark: Mark) -> Result<bool, NoMemory>
        ensures { IfOk result (λ took. TakesMark mark took self.old self.new) }
    {
        if !self.is_at(mark) {
            return Ok(false);
        }
        *self = scan(alloc, self.rest, self.behind)?;
        Ok(true)
    }

    /// Takes a mark.
    pub fn expect(&mut self, alloc: Global, mark: Mark) -> Result<(), FilterFault>
        ensures { Parsed self.old self.new result (λ _. IsMark mark) (StopsMark mark) }
    {
        if self.take_mark(alloc, mark)? {
            Ok(())
        } else {
            Err(self.fault())
        }
    }

    /// Takes the first token if it is an operator.
    pub fn take_operator(&mut self, alloc: Global) -> Result<Option<Operator>, NoMemory>
        ensures { IfOk result (λ found. TakesOperator found self.old self.new) }
    {
        match self.token {
            Token::Compare(operator) => {
                *self = scan(alloc, self.rest, self.behind)?;
                Ok(Some(operator))
            }
            _ => Ok(None),
        }
    }

    /// Takes a key.
    pub fn key(&mut self, alloc: Global) -> Result<Text, FilterFault>
        ensures { Parsed self.old self.new result IsKey StopsKey }
    {
        let next = scan(alloc, self.rest, self.behind)?;
        let Lexer { place, token, .. } = mem::replace(self, next);
        match token {
            Token::Key(key) => Ok(key),
            _ => Err(FilterFault::Syntax(place as u64)),
        }
    }

    /// Takes a literal.
    pub fn literal(&mut self, alloc: Global) -> Result<Literal, FilterFault>
        ensures { Parsed self.old self.new result IsLiteral StopsLiteral }
    {
        let next = scan(alloc, self.rest, self.behind)?;
        let Lexer { place, token, .. } = mem::replace(self, next);
        match token {
            Token::Value(literal) => Ok(literal),
            _ => Err(FilterFault::Syntax(place as u64)),
        }
    }
}

// The tokens of what is left of a text at a place.
#[tactic(auto, using(crate::proofs::Scanning::first_left))]
fn scan<'a>(alloc: Global, text: &'a [u8], place: usize) -> Result<Lexer<'a>, NoMemory>
    requires { place + length text.now ≤ TEXT_LIMIT }
    ensures { IfOk result (λ lexer. lexer ≡ tokens_behind 0 place text.now) }
{
    let (text, place) = behind_spaces(text, place);
    let (token, len) = token_at(alloc, text)?;
    let (_, rest) = text.split_at(len);
    Ok(Lexer {
        place,
        token,
        behind: place + len,
        rest,
    })
}

// What is left of a text behind the spaces at its front, and its place.
fn behind_spaces(text: &[u8], place: usize) -> (&[u8], usize)
    requires { place + length text.now ≤ TEXT_LIMIT }
    ensures tokens { tokens_behind 0 result.1 result.0.now ≡ tokens_behind 0 place text.now }
    ensures end { result.1 + length result.0.now ≡ place + length text.now }
    ensures no_space { begins_with_space result.0.now ≡ false }
{
    let mut left = text;
    let mut at = place;
    while let [byte, rest @ ..] = left {
        if !is_space(*byte) {
            break;
        }
        left = rest;
        at += 1;
    }
    (left, at)
}

fn is_space(byte: u8) -> bool
    ensures { result ≡ is_space byte }
{
    byte == b' ' || byte == b'\t' || byte == b'\n' || byte == b'\r'
}
