//! Laws of the strict spelling, each the contract of a function that does nothing.

ghost use Rattle.thrift_binary.specs.Messages.{Asks, Replies};
ghost use Rattle.thrift_binary.specs.Spelling.{MessagesAreSpelled, ValuesAreSpelled};

/// The strict spelling of a value within the limits is read as that value.
pub fn values_are_spelled()
    ensures { ValuesAreSpelled }
{}

/// The strict spelling of a message within the limits is read as that message, by a server that
/// takes calls and by a client that takes replies.
pub fn messages_are_spelled()
    ensures asks { MessagesAreSpelled Asks }
    ensures replies { MessagesAreSpelled Replies }
{}
