//! Laws of histories, each the contract of a function that does nothing.

ghost use Rattle.desk.specs.Laws.{
  AllUnsettledAreFound,
  ChangesAndEventsStandTogether,
  DueStepsAreTaken,
  NamesGoOnRising,
  NamesOfNewStoresRise,
  OnlyUnsettledAreFound,
  OpenedIsDurable,
  OpeningsEndDumps,
  OpeningsGiveTheDisks,
  PartValuesGoOnRising,
  PartValuesOfNewStoresRise,
  PollsWriteNothing,
  TableNamesGoOnRising,
  TableNamesOfNewStoresRise,
  WalksLeadOneWay,
  WritesWhereTheDisksChange,
};

/// After every history, with openings and trims among its transitions, the catalogue is what the history's
/// events make of the start's, and the state keeps exactly those of these events that no trim took off,
/// numbered one after the other up to its newest number.
pub fn changes_and_events_stand_together()
    ensures { ChangesAndEventsStandTogether }
{}

/// An opening may find done exactly the writing steps that were answered by want of memory or a fault of
/// the store, with no accepted writing step and no opening after them; and then the state is what was
/// due at the step's own point of the history, with its event.
pub fn openings_find_refused_steps()
    ensures only { OnlyUnsettledAreFound }
    ensures all { AllUnsettledAreFound }
{}

/// A step writes exactly where the due state after it has something else on the disks; a poll never
/// writes.
pub fn steps_write_where_the_disks_change()
    ensures disks { WritesWhereTheDisksChange }
    ensures polls { PollsWriteNothing }
{}

/// An opening that finds no step done gives what is on the disks, and after any opening all of the state
/// is on them, and no dump is open.
pub fn openings_give_the_disks()
    ensures nothing_found { OpeningsGiveTheDisks }
    ensures durable { OpenedIsDurable }
    ensures no_dumps { OpeningsEndDumps }
{}

/// No due answer tells that a step wasn't taken.
pub fn due_steps_are_taken()
    ensures { DueStepsAreTaken }
{}

/// The entries of a dump lead from each place of its walk to one other alone.
pub fn walks_lead_one_way()
    ensures { WalksLeadOneWay }
{}

/// The names of the databases rise strictly after every history of a new store, and of any start at which
/// they rise.
pub fn names_rise()
    ensures go_on { NamesGoOnRising }
    ensures new_stores { NamesOfNewStoresRise }
{}

/// The names of the tables of each database rise strictly after every history of a new store, and of any
/// start at which they rise.
pub fn table_names_rise()
    ensures go_on { TableNamesGoOnRising }
    ensures new_stores { TableNamesOfNewStoresRise }
{}

/// The value lists of the partitions of each table rise strictly after every history of a new store, and
/// of any start at which they rise.
pub fn part_values_rise()
    ensures go_on { PartValuesGoOnRising }
    ensures new_stores { PartValuesOfNewStoresRise }
{}
