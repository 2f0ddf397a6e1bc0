//! A dump read back from its folder: the manifest, and each file that the manifest lists, judged
//! before the next one is looked at.
#![tactic(auto)]

mod dump;
mod filed;
mod files;
mod harm;
mod head;
mod laws;

pub use dump::{Dump, read_dump};
pub use harm::{Harm, ReadDumpFault};
pub use laws::a_folder_tells_one_dump;
