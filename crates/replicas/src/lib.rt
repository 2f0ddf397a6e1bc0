//! Replicas: what their objects are, how events are replayed on them, and what they stand for, as
//! definitions and laws.
#![tactic(auto)]

mod laws;
mod premises;
mod store_laws;

pub use laws::{
    a_folder_goes_live, a_folder_may_stop, a_folder_stays_live, a_life_is_a_source,
    a_live_event_keeps, a_live_folder_may_stop, an_event_keeps, bootstraps_go_live,
    events_end_live, increments_stay_live, marks_never_fall, marks_tell_changes, newer_parts_stay,
    repeated_replays_do_nothing, replay_never_goes_back,
};
pub use premises::premises_can_be_met;
pub use store_laws::{
    due_events_are_histories, histories_are_lives, live_replicas_are_equal,
    operations_act_where_they_take_effect, operations_are_done_on_catalogues, store_events_keep,
    stores_go_live, stores_replay, stores_stay_live,
};
