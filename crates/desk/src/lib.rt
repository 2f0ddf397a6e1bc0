//! Stores by their histories: what one thread would answer to each step, and desks, from which a
//! caller takes steps while others take theirs.
#![tactic(auto)]

mod core_trait;
mod desk_trait;
mod entries;
mod foreign;
mod laws;
mod local;
mod polling;
mod script;

pub use core_trait::Core;
pub use desk_trait::Desk;
pub use entries::{CallerStep, Outcome};
pub use foreign::Foreign;
pub use laws::{
    changes_and_events_stand_together, due_steps_are_taken, names_rise, openings_find_refused_steps,
    openings_give_the_disks, part_values_rise, steps_write_where_the_disks_change,
    table_names_rise, walks_lead_one_way,
};
pub use local::LocalDesk;
pub use polling::{EVENT_LIMIT, reply_to_poll};
pub use script::{Script, ScriptDesk};
