//! Laws of the wire, each the contract of a function that does nothing. They hold of messages that
//! ask and of those that answer, from whatever place of a session they are read.

ghost use Rattle.thrift_binary.specs.Laws.{
  OfBothKinds,
  NoSpellingBeginsAnother,
  NoMessageBeginsAnother,
  ReadsOneWay,
  GoesOn,
  IsCutAnywhere,
  StaysSo,
  HasAnEnding,
};

/// No spelling of a value begins another of its type, and no message begins another; none spells two.
pub fn no_spelling_begins_another()
    ensures values { NoSpellingBeginsAnother }
    ensures messages { OfBothKinds NoMessageBeginsAnother }
{}

/// A text spells at most one list of messages, and ends in one way.
pub fn a_text_reads_one_way()
    ensures { OfBothKinds ReadsOneWay }
{}

/// A text that is cut anywhere, and goes on from what was left over behind its whole messages, reads as
/// the uncut one, and the other way round; and what can't stand there, or is too large, ends it the same
/// whatever follows.
pub fn cutting_changes_nothing()
    ensures goes_on { OfBothKinds GoesOn }
    ensures cut { OfBothKinds IsCutAnywhere }
    ensures stays { OfBothKinds StaysSo }
{}

/// Every text of bytes, from whatever place it is read, spells some messages and has an ending.
pub fn every_text_has_an_ending()
    ensures { OfBothKinds HasAnEnding }
{}
