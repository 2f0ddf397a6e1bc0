//! One store that several callers share, each in a thread of its own: a lock round the store, a desk
//! for each caller, whose steps are turns of the lock, and workers who serve one connection after
//! the other at such a desk.
#![tactic(auto)]

mod crew;
mod done;
mod gate;
mod held;
mod post;
mod room;
mod serving;
mod shared_desk;
mod worker;

pub use crew::run_workers;
pub use done::{Crew, Done};
pub use gate::{FreeGate, Gate};
pub use held::{Held, Opening};
pub use post::Post;
pub use room::Room;
pub use serving::work;
pub use shared_desk::SharedDesk;
pub use worker::{Worker, gather, run_one};
