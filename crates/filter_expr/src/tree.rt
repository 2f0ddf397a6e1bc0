//! What a filter is made of.

use crate::token::{Literal, Operator};
use cat_values::{ListOf, Text};

/// What a key is compared with, and how.
#[derive(Drop)]
pub enum Test {
    Is(Operator, Literal),
    /// Whether the key is to be one of the literals (`in`), or none of them (`not in`).
    Among(bool, ListOf<Literal>),
    /// Whether the key is to be from the first literal to the second, both included (`between`), or
    /// not (`not between`).
    Within(bool, Literal, Literal),
}

/// A comparison as it is written.
#[derive(Drop)]
pub struct Written {
    pub key: Text,
    pub test: Test,
}

/// Comparisons stand in the order of the text, and between two operands of `and` or `or` a `Skip`.
#[derive(Drop)]
pub enum Step<C> {
    Check(C),
    /// Where so far this is found, so many steps behind are left out: the operand behind can't
    /// change what is found.
    Skip(bool, usize),
}
