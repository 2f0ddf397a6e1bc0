//! Comparisons of a key with literals, read off their tokens.

ghost use Rattle.std.specs.Prelude.{◌≡◌, ◌⊎◌, ◌++◌, List, OnOk};
ghost use Rattle.filter_expr.specs.declared.token.Literal.{Literal};
ghost use Rattle.filter_expr.specs.declared.token.Mark.TheVariants.{Comma};
ghost use Rattle.filter_expr.specs.Grammar.{AreLiterals, AreMore, IsBounds, IsClosedKey, IsKeyClosed, IsKeyFirst, IsListed, IsLiteralFirst, IsMarked, IsMembers, IsMembership, IsNotFirst, IsOpen, IsRange, IsTest, Parsed, StopsBare, StopsBounds, StopsClosedKey, StopsInOrElse, StopsKey, StopsKeyFirst, StopsListed, StopsLiteral, StopsLiteralFirst, StopsLiterals, StopsMembership, StopsMore, StopsOpen, StopsRange, StopsTest, mirrored};

use crate::FilterFault;
use crate::lexer::Lexer;
use crate::token::{Literal, Mark, Operator};
use crate::tree::{Test, Written};
use cat_values::ListOf;
use std::alloc::Global;

/// Takes an open parenthesis, where so many may be opened, and answers how many may be opened
/// inside it.
pub fn open(alloc: Global, lexer: &mut Lexer, depth: usize) -> Result<usize, FilterFault>
    ensures { Parsed lexer.old lexer.new result (IsOpen depth) (StopsOpen depth) }
{
    if depth == 0 && lexer.is_at(Mark::Open) {
        return Err(FilterFault::TooDeep);
    }
    lexer.expect(alloc, Mark::Open)?;
    Ok(depth - 1)
}

// Takes the literals behind the first one of a list.
fn more_literals(
    alloc: Global,
    lexer: &mut Lexer,
    literals: &mut ListOf<Literal>,
) -> Result<(), FilterFault>
    ensures parsed { Parsed lexer.old lexer.new result
        (λ _ xs ys. (more : List Literal) × AreMore more xs ys × (literals.new ≡ literals.old ++ more)) StopsMore }
    ensures end { OnOk result (IsNotFirst (IsMarked Comma) lexer.new) }
{
    while lexer.take_mark(alloc, Mark::Comma)? {
        let literal = lexer.literal(alloc)?;
        literals.push(literal)?;
    }
    Ok(())
}

// Takes one or more literals.
fn literals(alloc: Global, lexer: &mut Lexer) -> Result<ListOf<Literal>, FilterFault>
    ensures parsed { Parsed lexer.old lexer.new result AreLiterals StopsLiterals }
    ensures end { OnOk result (IsNotFirst (IsMarked Comma) lexer.new) }
{
    let first = lexer.literal(alloc)?;
    let mut list = ListOf::new(alloc);
    list.push(first)?;
    more_literals(alloc, lexer, &mut list)?;
    Ok(list)
}

// Takes a list of literals in parentheses.
fn listed(alloc: Global, lexer: &mut Lexer, depth: usize) -> Result<ListOf<Literal>, FilterFault>
    ensures { Parsed lexer.old lexer.new result (IsListed depth) (StopsListed depth) }
{
    open(alloc, lexer, depth)?;
    let list = literals(alloc, lexer)?;
    lexer.expect(alloc, Mark::Close)?;
    Ok(list)
}

// Takes the two bounds of a range.
fn bounds(alloc: Global, lexer: &mut Lexer) -> Result<(Literal, Literal), FilterFault>
    ensures { Parsed lexer.old lexer.new result (λ bounds. IsBounds bounds.0 bounds.1) StopsBounds }
{
    let low = lexer.literal(alloc)?;
    lexer.expect(alloc, Mark::And)?;
    let high = lexer.literal(alloc)?;
    Ok((low, high))
}

// Takes `in` and a list.
fn members(
    alloc: Global,
    lexer: &mut Lexer,
    depth: usize,
    positive: bool,
) -> Result<Test, FilterFault>
    ensures { Parsed lexer.old lexer.new result (IsMembers depth positive) (StopsInOrElse depth) }
{
    lexer.expect(alloc, Mark::In)?;
    let list = listed(alloc, lexer, depth)?;
    Ok(Test::Among(positive, list))
}

// Takes `in` and a list, or `between` and two bounds.
fn range(
    alloc: Global,
    lexer: &mut Lexer,
    depth: usize,
    positive: bool,
) -> Result<Test, FilterFault>
    ensures { Parsed lexer.old lexer.new result (IsRange depth positive) (StopsRange depth) }
{
    if lexer.is_at(Mark::In) {
        return members(alloc, lexer, depth, positive);
    }
    if !lexer.take_mark(alloc, Mark::Between)? {
        return Err(lexer.fault());
    }
    let (low, high) = bounds(alloc, lexer)?;
    Ok(Test::Within(positive, low, high))
}

// Takes what stands behind a key.
fn test(alloc: Global, lexer: &mut Lexer, depth: usize) -> Result<Test, FilterFault>
    ensures { Parsed lexer.old lexer.new result (IsTest depth) (StopsTest depth) }
{
    if let Some(operator) = lexer.take_operator(alloc)? {
        let literal = lexer.literal(alloc)?;
        return Ok(Test::Is(operator, literal));
    }
    if lexer.take_mark(alloc, Mark::Not)? {
        return range(alloc, lexer, depth, false);
    }
    range(alloc, lexer, depth, true)
}

// Takes what stands behind a key in parentheses.
fn membership(alloc: Global, lexer: &mut Lexer, depth: usize) -> Result<Test, FilterFault>
    ensures { Parsed lexer.old lexer.new result (IsMembership depth) (StopsMembership depth) }
{
    if lexer.take_mark(alloc, Mark::Not)? {
        return members(alloc, lexer, depth, false);
    }
    members(alloc, lexer, depth, true)
}

// Takes a key and what stands behind it.
fn key_first(alloc: Global, lexer: &mut Lexer, depth: usize) -> Result<Written, FilterFault>
    ensures { Parsed lexer.old lexer.new result (IsKeyFirst depth) (λ fault xs. StopsKey fault xs ⊎ StopsKeyFirst depth fault xs) }
{
    let key = lexer.key(alloc)?;
    let test = test(alloc, lexer, depth)?;
    Ok(Written { key, test })
}

// Takes a literal, an operator and a key.
fn literal_first(alloc: Global, lexer: &mut Lexer) -> Result<Written, FilterFault>
    ensures { Parsed lexer.old lexer.new result IsLiteralFirst (λ fault xs. StopsLiteral fault xs ⊎ StopsLiteralFirst fault xs) }
{
    let literal = lexer.literal(alloc)?;
    let Some(operator) = lexer.take_operator(alloc)? else {
        return Err(lexer.fault());
    };
    let key = lexer.key(alloc)?;
    Ok(Written {
        key,
        test: Test::Is(mirrored(operator), literal),
    })
}

// What an operator says of its right side.
fn mirrored(operator: Operator) -> Operator
    ensures { result ≡ mirrored operator }
{
    match operator {
        Operator::Equals => Operator::Equals,
        Operator::Differs => Operator::Differs,
        Operator::Below => Operator::Above,
        Operator::AtMost => Operator::AtLeast,
        Operator::Above => Operator::Below,
        Operator::AtLeast => Operator::AtMost,
    }
}

/// Takes a comparison that begins with no parenthesis.
pub fn bare_comparison(
    alloc: Global,
    lexer: &mut Lexer,
    depth: usize,
) -> Result<Written, FilterFault>
    ensures { Parsed lexer.old lexer.new result (λ w xs ys. IsKeyFirst depth w xs ys ⊎ IsLiteralFirst w xs ys) (StopsBare depth) }
{
    if lexer.is_at_literal() {
        literal_first(alloc, lexer)
    } else {
        key_first(alloc, lexer, depth)
    }
}

/// Takes a comparison behind its first parenthesis: a key, the closed parenthesis, and what stands
/// behind it.
pub fn enclosed_comparison(
    alloc: Global,
    lexer: &mut Lexer,
    depth: usize,
) -> Result<Written, FilterFault>
    requires { IsKeyClosed lexer.old }
    ensures { Parsed lexer.old lexer.new result (IsClosedKey depth) (StopsClosedKey depth) }
{
    let key = lexer.key(alloc)?;
    lexer.expect(alloc, Mark::Close)?;
    let test = membership(alloc, lexer, depth)?;
    Ok(Written { key, test })
}
