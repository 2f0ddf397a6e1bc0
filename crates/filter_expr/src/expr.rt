//! Filters that were read, and which values they hold for.

ghost use Rattle.std.specs.Prelude.{◌≡◌, Option, IfErr, IfOk};
ghost use Rattle.filter_expr.specs.declared.expr.Comparison.{Comparison};
ghost use Rattle.filter_expr.specs.Reading.{IsFault, IsTreeOf, Reads};
ghost use Rattle.filter_expr.specs.Trees.{Any};
ghost use Rattle.filter_expr.specs.Truth.{after, comparison_holds, holds};

use crate::FilterFault;
use crate::keys::{bind, check_keys};
use crate::parsing::read_filter;
use crate::tree::{Step, Test};
use crate::truth::comparison_holds;
use cat_values::{Columns, Text, Texts};
use std::alloc::Global;

/// What a key's type says of how it is compared.
#[derive(Clone, Copy, Debug, PartialEq, Eq)]
pub enum Kind {
    /// By the bytes of its UTF-8 text.
    TextKey,
    /// As a whole number.
    IntegerKey,
}

/// A comparison with the key's place among the keys, the first of equal names.
#[derive(Drop)]
pub struct Comparison {
    pub place: usize,
    pub kind: Kind,
    pub test: Test,
}

/// A filter that was read against some keys.
#[derive(Drop)]
pub struct Expr {
    steps: Vec<Step<Comparison>>,
}

/// The filter that a text spells, against the partition keys of a table.
///
/// `Syntax` and `TooDeep` come first, and of them the one that stands first in the text. Then
/// `UnknownKey` names the first key of the text that is none of the table's, and then `WrongType`
/// the key of the first comparison with a literal that isn't of the key's kind.
pub fn parse(alloc: Global, text: &Text, keys: &Columns) -> Result<Expr, FilterFault>
    ensures read { IfOk result (λ expr. (tree : Option (Any Comparison)) × IsTreeOf tree expr × Reads text.now keys.now tree) }
    ensures refused { IfErr result (IsFault text.now keys.now) }
{
    let written = read_filter(alloc, text)?;
    check_keys(alloc, keys.as_slice(), written.as_slice())?;
    let steps = bind(alloc, keys.as_slice(), written)?;
    Ok(Expr { steps })
}

/// Whether a filter holds for the values of a partition, in the order of the keys that it was read
/// against; a value that there isn't meets no comparison. It takes no memory.
pub fn holds(expr: &Expr, values: &Texts) -> bool
    ensures { (tree : Option (Any Comparison)) → IsTreeOf tree expr.now → result ≡ holds tree values.now }
{
    let mut found = true;
    let mut left_out: usize = 0;
    for step in &expr.steps {
        if left_out > 0 {
            left_out -= 1;
        } else {
            (found, left_out) = after_step(found, step, values.as_slice());
        }
    }
    found
}

// What is found behind a step, and how many steps behind it are left out.
fn after_step(found: bool, step: &Step<Comparison>, values: &[Text]) -> (bool, usize)
    ensures { result ≡ after (comparison_holds values.now) found step.now }
{
    match step {
        Step::Check(comparison) => (comparison_holds(comparison, values), 0),
        Step::Skip(on, count) => (found, if found == *on { *count } else { 0 }),
    }
}
