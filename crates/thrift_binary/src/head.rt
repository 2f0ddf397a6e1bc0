//! The head of a message.

use cat_values::Text;

/// The head of a message: the name of its call, its kind (1 a call, 2 a reply, 3 an exception) and
/// the number by which its sender knows it.
#[derive(Debug, Drop)]
pub struct Head {
    pub name: Text,
    pub kind: u8,
    pub sequence: i32,
}

/// Which messages are read: those that ask, of the kinds 1 and 4, or those that reply, of the kinds
/// 2 and 3.
#[derive(Clone, Copy, Debug, PartialEq, Eq)]
pub enum Direction {
    Requests,
    Replies,
}
