//! One session over any desk: messages in, replies out, one step of the desk for each call and each
//! trim, and a walk of steps for each dump, which writes into a folder.
#![tactic(auto)]

mod carrying;
mod dump_replies;
mod end;
mod laws;
mod reply;
mod request;
mod session;

pub use end::End;
pub use laws::{
    alone_lists_default, folder_faults_are_counted, only_dumps_change_files, steps_are_opened,
    whole_texts_are_served,
};
pub use request::Request;
pub use session::serve_session;
