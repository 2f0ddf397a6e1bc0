//! Laws on the files of journals.

ghost use Rattle.ms_journal.specs.Laws.{
  BrokenAtOnePlace,
  BrokenIsNotForeign,
  CrashesKeepTheLog,
  CrashesLeaveWhatOpens,
  FilesOpen,
  FilesOpenOneWay,
};

/// A file opens to one list of payloads, and is neither foreign nor broken then; it is broken at one
/// place, and not foreign then.
pub fn files_open_one_way()
    ensures one_way { FilesOpenOneWay }
    ensures opens { FilesOpen }
    ensures one_place { BrokenAtOnePlace }
    ensures not_foreign { BrokenIsNotForeign }
{}

/// Opening what a crash leaves of a journal gives its log, with or without the payload that is in
/// doubt, or an outage.
pub fn crashes_keep_the_log()
    ensures log { CrashesKeepTheLog }
    ensures opens { CrashesLeaveWhatOpens }
{}
