//! Laws of sessions, each the contract of a function that does nothing.

ghost use Rattle.ms_session.specs.DumpLaws.{FolderFaultsAreCounted, OnlyDumpsChangeFiles, StepsAreOpened};
ghost use Rattle.ms_session.specs.Laws.{AloneListsDefault, WholeTextsAreServed};

/// Each whole message of a text is answered, up to one that asks for the end of the session, and the
/// session ends as the text does, unless something outside fails or memory is refused.
pub fn whole_texts_are_served()
    ensures { WholeTextsAreServed }
{}

/// A caller alone at a new store who makes no database is told of `default` alone, at each listing, and
/// by a pattern of `default` where it matches.
pub fn alone_lists_default()
    ensures { AloneListsDefault }
{}

/// Each step on a dump that a session took is of a dump which it opened and has not ended, whatever
/// others did in between; so none is answered that the dump isn't open. A session leaves no dump open.
pub fn steps_are_opened()
    ensures { StepsAreOpened }
{}

/// A message that asks for no dump leaves the folder as it was, with its count of faults.
pub fn only_dumps_change_files()
    ensures { OnlyDumpsChangeFiles }
{}

/// The folder's count of faults rose for each dump that is answered by a fault of the folder, up to the
/// last value that it can have.
pub fn folder_faults_are_counted()
    ensures { FolderFaultsAreCounted }
{}
