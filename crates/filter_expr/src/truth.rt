//! Which values a comparison holds for.

ghost use Rattle.std.specs.Prelude.{◌≡◌};
ghost use Rattle.std.specs.Option.{option_copied};
ghost use Rattle.filter_expr.specs.Seen.{seen, seen_if};
ghost use Rattle.filter_expr.specs.Truth.{agrees, allows, compared_as, comparison_holds, is_between, is_member, meets, order, test_holds};

use crate::expr::{Comparison, Kind};
use crate::integers::integer_of;
use crate::token::{Literal, Operator};
use crate::tree::Test;
use cat_values::Text;
use std::cmp::Ordering;

// What a value is compared as.
#[derive(Clone, Copy)]
enum Compared<'a> {
    Text(&'a [u8]),
    Integer(i64),
}

/// Whether a comparison holds for some values.
pub fn comparison_holds(comparison: &Comparison, values: &[Text]) -> bool
    ensures { result ≡ comparison_holds values.now comparison.now }
{
    let Some(value) = values.get(comparison.place) else {
        return false;
    };
    match compared_as(comparison.kind, value) {
        Some(value) => test_holds(&comparison.test, value),
        None => false,
    }
}

// What a value of a key of some kind is compared as.
fn compared_as(kind: Kind, value: &Text) -> Option<Compared<'_>>
    ensures { seen_if result ≡ compared_as kind value.now }
{
    match kind {
        Kind::TextKey => Some(Compared::Text(value.as_str().as_bytes())),
        Kind::IntegerKey => match integer_of(value.as_str().as_bytes()) {
            Some(number) => Some(Compared::Integer(number)),
            None => None,
        },
    }
}

fn test_holds(test: &Test, value: Compared<'_>) -> bool
    ensures { result ≡ test_holds test.now (seen value.entry) }
{
    match test {
        Test::Is(operator, literal) => allows(*operator, order(value, literal)),
        Test::Among(positive, literals) => agrees(*positive, is_member(value, literals.as_slice())),
        Test::Within(positive, low, high) => agrees(*positive, is_between(value, low, high)),
    }
}

fn is_between(value: Compared<'_>, low: &Literal, high: &Literal) -> bool
    ensures { result ≡ is_between (seen value.entry) low.now high.now }
{
    allows(Operator::AtLeast, order(value, low)) && allows(Operator::AtMost, order(value, high))
}

fn is_member(value: Compared<'_>, literals: &[Literal]) -> bool
    ensures { result ≡ is_member (seen value.entry) literals.now }
{
    for literal in literals {
        if allows(Operator::Equals, order(value, literal)) {
            return true;
        }
    }
    false
}

fn agrees(positive: bool, found: bool) -> bool
    ensures { result ≡ agrees positive found }
{
    if positive { found } else { !found }
}

// How a value stands to a literal of its kind.
fn order(value: Compared<'_>, literal: &Literal) -> Option<Ordering>
    ensures { result ≡ order (seen value.entry) literal.now }
{
    match (value, literal) {
        (Compared::Text(bytes), Literal::Quoted(text)) => Some(bytes.cmp(text.as_slice())),
        (Compared::Integer(number), Literal::Number(other)) => Some(number.cmp(other)),
        (Compared::Text(_), Literal::Number(_)) | (Compared::Integer(_), Literal::Quoted(_)) =>
            None,
    }
}

fn allows(operator: Operator, order: Option<Ordering>) -> bool
    ensures { result ≡ allows operator order }
{
    match order {
        Some(order) => meets(operator, order),
        None => false,
    }
}

fn meets(operator: Operator, order: Ordering) -> bool
    ensures { result ≡ meets operator order }
{
    match operator {
        Operator::Equals => order.is_eq(),
        Operator::Differs => order.is_ne(),
        Operator::Below => order.is_lt(),
        Operator::AtMost => order.is_le(),
        Operator::Above => order.is_gt(),
        Operator::AtLeast => order.is_ge(),
    }
}
