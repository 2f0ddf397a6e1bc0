//! The tokens of filters.

use cat_values::{Bytes, Text};

/// A token that is always spelled the same, but for the case of its letters.
#[derive(Clone, Copy, Debug, PartialEq, Eq)]
pub enum Mark {
    Open,
    Close,
    Comma,
    And,
    Or,
    Not,
    In,
    Between,
}

/// What a key is to be to a literal.
#[derive(Clone, Copy, Debug, PartialEq, Eq)]
pub enum Operator {
    Equals,
    Differs,
    Below,
    AtMost,
    Above,
    AtLeast,
}

/// What a key is compared with.
#[derive(Drop)]
pub enum Literal {
    /// The text between quotation marks, unescaped, as its bytes.
    Quoted(Bytes),
    Number(i64),
}

#[derive(Drop)]
pub enum Token {
    Marked(Mark),
    Compare(Operator),
    /// A key in lower case.
    Key(Text),
    Value(Literal),
    /// No token: a character that begins none, a text without its end, or an integer out of range.
    Bad,
    /// The end of the text.
    End,
}
