//! Laws over look-ups, each the contract of a function that does nothing.

ghost use Rattle.replicas.specs.Laws.{
  BootstrapsGoLive,
  EventKeeps,
  EventsThenLive,
  FolderGoesLive,
  FolderMayStop,
  FolderStaysLive,
  IncrementsStayLive,
  LiveEventKeeps,
  LiveFolderMayStop,
  LivesAreSources,
  MarksNeverFall,
  MarksTellChanges,
  NewerPartsStay,
  RepeatedReplaysDoNothing,
  ReplayNeverGoesBack,
  StandingIsRooted,
};

/// The next event of a database keeps what a half-loaded replica stands for.
pub fn an_event_keeps()
    ensures { EventKeeps }
{}

/// So it does for a live replica, moves among its operations.
pub fn a_live_event_keeps()
    ensures { LiveEventKeeps }
{}

/// Behind its last event a half-loaded replica is live at the end.
pub fn events_end_live()
    ensures { EventsThenLive }
{}

/// The rest of a bootstrap folder leads to a live replica.
pub fn a_folder_goes_live()
    ensures { FolderGoesLive }
{}

/// A folder moves a live replica to its end.
pub fn a_folder_stays_live()
    ensures { FolderStaysLive }
{}

/// From the event that made it on, a database with a born is a source.
pub fn a_life_is_a_source()
    ensures { LivesAreSources }
{}

/// The events of a bootstrap folder lead from its items to a live replica.
pub fn bootstraps_go_live()
    ensures { BootstrapsGoLive }
{}

/// An incremental folder leads a live replica to its end.
pub fn increments_stay_live()
    ensures { IncrementsStayLive }
{}

/// A load of a bootstrap folder may stop behind any of its events, and go on from there.
pub fn a_folder_may_stop()
    ensures { FolderMayStop }
{}

/// So may a load into a live replica.
pub fn a_live_folder_may_stop()
    ensures { LiveFolderMayStop }
{}

/// Events with numbers up to k leave each object with a mark of k or above as it is, a partition where its
/// table has such a mark too.
pub fn replay_never_goes_back()
    ensures { ReplayNeverGoesBack }
{}

/// An event that was just replayed has no effect when it is replayed again.
pub fn repeated_replays_do_nothing()
    ensures { RepeatedReplaysDoNothing }
{}

/// No object that is there before and behind an event has a lower mark behind it, where each partition
/// stands under a table, as on each replica that stands.
pub fn marks_never_fall()
    ensures grow { MarksNeverFall }
    ensures rooted { StandingIsRooted }
{}

/// Behind event e, what isn't as it was has the mark e, but for partitions that moved along with their
/// table.
pub fn marks_tell_changes()
    ensures { MarksTellChanges }
{}

/// An event leaves each partition of a half-loaded replica that has its mark or a greater one.
pub fn newer_parts_stay()
    ensures { NewerPartsStay }
{}
