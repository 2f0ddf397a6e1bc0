//! The keys that a filter names.

ghost use Rattle.std.specs.Prelude.{◌≡◌, IfOk, IfErr, None, map, OnOk};
ghost use Rattle.std.specs.List.{list_all};
ghost use Rattle.std.specs.Option.{option_copied};
ghost use Rattle.filter_expr.specs.Keys.{IsKeyFault, bound_step, first_unknown, first_wrong, fits, is_right, kind_at, kind_of, place_of, suits};
ghost use Rattle.filter_expr.specs.Trees.{checks};

use crate::FilterFault;
use crate::expr::{Comparison, Kind};
use crate::token::Literal;
use crate::tree::{Step, Test, Written};
use cat_values::{Column, NoMemory, Text, TryCopy, TypeKind, find_column, type_kind};
use std::alloc::Global;

/// Whether each comparison names a key that there is, and compares it with literals of its kind.
pub fn check_keys(
    alloc: Global,
    keys: &[Column],
    steps: &[Step<Written>],
) -> Result<(), FilterFault>
    ensures ok { OnOk result (first_unknown keys.now (checks steps.now) ≡ None) }
    ensures right { OnOk result (first_wrong keys.now (checks steps.now) ≡ None) }
    ensures err { IfErr result (IsKeyFault keys.now (checks steps.now)) }
{
    if let Some(key) = first_unknown(keys, steps) {
        return Err(FilterFault::UnknownKey(key.copy(alloc)?));
    }
    if let Some(key) = first_wrong(keys, steps) {
        return Err(FilterFault::WrongType(key.copy(alloc)?));
    }
    Ok(())
}

// The key of the first comparison with a key that there isn't.
fn first_unknown<'a>(keys: &[Column], steps: &'a [Step<Written>]) -> Option<&'a Text>
    ensures { option_copied result ≡ first_unknown keys.now (checks steps.now) }
{
    for step in steps {
        if let Step::Check(written) = step {
            if place_of(keys, &written.key).is_none() {
                return Some(&written.key);
            }
        }
    }
    None
}

// The key of the first comparison with a literal of another kind.
fn first_wrong<'a>(keys: &[Column], steps: &'a [Step<Written>]) -> Option<&'a Text>
    ensures { option_copied result ≡ first_wrong keys.now (checks steps.now) }
{
    for step in steps {
        if let Step::Check(written) = step {
            if !is_right(keys, written) {
                return Some(&written.key);
            }
        }
    }
    None
}

fn is_right(keys: &[Column], written: &Written) -> bool
    ensures { result ≡ is_right keys.now written.now }
{
    match kind_at(keys, &written.key) {
        Some(kind) => suits(kind, &written.test),
        None => false,
    }
}

// The place of the first key with a name.
fn place_of(keys: &[Column], name: &Text) -> Option<usize>
    ensures { result ≡ place_of keys.now name.now }
{
    keys.iter().position(|column| column.name == *name)
}

// The kind of the first key with a name.
fn kind_at(keys: &[Column], name: &Text) -> Option<Kind>
    ensures { result ≡ kind_at keys.now name.now }
{
    match find_column(keys, name) {
        Some(column) => kind_of(&column.ty),
        None => None,
    }
}

/// The steps of a filter, with the places and kinds of its keys.
pub fn bind(
    alloc: Global,
    keys: &[Column],
    steps: Vec<Step<Written>>,
) -> Result<Vec<Step<Comparison>>, NoMemory>
    ensures { IfOk result (λ bound. bound.items ≡ map (bound_step keys.now) steps.items) }
{
    let mut bound = Vec::new(alloc);
    for step in steps {
        bound.push(bound_step(keys, step))?;
    }
    Ok(bound)
}

fn bound_step(keys: &[Column], step: Step<Written>) -> Step<Comparison>
    ensures { result ≡ bound_step keys.now step }
{
    match step {
        Step::Check(Written { key, test }) => Step::Check(Comparison {
            place: place_of(keys, &key).unwrap_or(0),
            kind: kind_at(keys, &key).unwrap_or(Kind::TextKey),
            test,
        }),
        Step::Skip(on, count) => Step::Skip(on, count),
    }
}

// Whether the literals of a test are of a kind.
fn suits(kind: Kind, test: &Test) -> bool
    ensures { result ≡ suits kind test.now }
{
    match test {
        Test::Is(_, literal) => fits(kind, literal),
        Test::Among(_, literals) => all_fit(kind, literals.as_slice()),
        Test::Within(_, low, high) => fits(kind, low) && fits(kind, high),
    }
}

fn all_fit(kind: Kind, literals: &[Literal]) -> bool
    ensures { result ≡ list_all (fits kind) literals.now }
{
    for literal in literals {
        if !fits(kind, literal) {
            return false;
        }
    }
    true
}

fn fits(kind: Kind, literal: &Literal) -> bool
    ensures { result ≡ fits kind literal.now }
{
    match (kind, literal) {
        (Kind::TextKey, Literal::Quoted(_)) => true,
        (Kind::IntegerKey, Literal::Number(_)) => true,
        (Kind::TextKey, Literal::Number(_)) | (Kind::IntegerKey, Literal::Quoted(_)) => false,
    }
}

// How keys of a type are compared.
fn kind_of(ty: &Text) -> Option<Kind>
    ensures { result ≡ kind_of ty.now }
{
    match type_kind(ty) {
        TypeKind::Text | TypeKind::Date => Some(Kind::TextKey),
        TypeKind::Integer => Some(Kind::IntegerKey),
        TypeKind::Boolean | TypeKind::Other => None,
    }
}
