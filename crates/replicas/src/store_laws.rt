//! Laws over the catalogues of a source and of a replica's store, each the contract of a function that
//! does nothing.

ghost use Rattle.replicas.specs.StoreLaws.{
  ActsWhereItTakesEffect,
  CallsAreApart,
  ChangesAreLives,
  DoneOnCatalogues,
  DropsNeverAct,
  DueEventsAreChanges,
  DueEventsAreNumbered,
  DueEventsGrow,
  FittingActs,
  HistoriesAreLawful,
  HistoriesStayInOrder,
  LiveReplicasAreEqual,
  NewStoresAreNew,
  ReplaysAreDone,
  RisingIsInOrder,
  StoreEventKeeps,
  StoreEventsThenLive,
  StoreLiveEventKeeps,
  StoresGoLive,
  StoresReplay,
  StoresStayLive,
  UnmovedRanges,
};

/// An operation acts on a replica exactly where it is lawful, finds what it needs, and what it changes has
/// a lower mark; a drop of the database never does. What a catalogue can take acts on its objects, but for
/// marks.
pub fn operations_act_where_they_take_effect()
    ensures acts { ActsWhereItTakesEffect }
    ensures drops { DropsNeverAct }
    ensures fitting { FittingActs }
{}

/// An operation that fits is done on a catalogue as it is on objects, and a replay is the function's.
pub fn operations_are_done_on_catalogues()
    ensures done { DoneOnCatalogues }
    ensures replayed { ReplaysAreDone }
{}

/// The changes of a history are a life of each database, each of their operations is lawful after those
/// before it, and names stay in order; a new store begins a history, what a call changes is apart, and
/// entries that rise are in order.
pub fn histories_are_lives()
    ensures lives { ChangesAreLives }
    ensures lawful { HistoriesAreLawful }
    ensures order { HistoriesStayInOrder }
    ensures new_stores { NewStoresAreNew }
    ensures calls { CallsAreApart }
    ensures rising { RisingIsInOrder }
{}

/// Events each of which is due on what those before it make are a history by their numbers, also with one
/// more that is due behind them; each range of them is numbered, and moves nothing where no change does.
pub fn due_events_are_histories()
    ensures changes { DueEventsAreChanges }
    ensures grow { DueEventsGrow }
    ensures ranges { DueEventsAreNumbered }
    ensures unmoved { UnmovedRanges }
{}

/// What is replayed in a store is replayed on its replica: so the laws of marks hold of stores too.
pub fn stores_replay()
    ensures { StoresReplay }
{}

/// The next event of the database, replayed in a store, keeps what a half-loaded replica stands for, and
/// what a live one does; behind the last event a half-loaded one is live.
pub fn store_events_keep()
    ensures half_loaded { StoreEventKeeps }
    ensures live { StoreLiveEventKeeps }
    ensures then_live { StoreEventsThenLive }
{}

/// What is left of a bootstrap folder, replayed in a store, makes the replica live at the folder's end.
pub fn stores_go_live()
    ensures { StoresGoLive }
{}

/// An incremental folder, replayed in a store, moves a live replica to the folder's end.
pub fn stores_stay_live()
    ensures { StoresStayLive }
{}

/// A live replica is the database that its source held after that event.
pub fn live_replicas_are_equal()
    ensures { LiveReplicasAreEqual }
{}
