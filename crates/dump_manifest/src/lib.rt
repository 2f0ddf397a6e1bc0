//! The manifest of a dump: which dump it is, and which files it has, with the digest of each; and
//! the name of the folder that a dump stands in.
#![tactic(auto)]

mod dirs;
mod files;
mod heads;
mod laws;
mod lines;
mod lists;
mod manifest;
mod reading;
mod values;
mod writing;

pub use dirs::{dir_name, read_dir};
pub use laws::{dirs_differ, manifests_are_read, manifests_differ};
pub use manifest::{FileLine, Files, Manifest, ManifestFault};
pub use reading::read_manifest;
pub use writing::manifest_text;
