//! Where dumps lie in a file system: a folder of files by name, as a directory.
#![tactic(auto)]

mod dir_folder;

pub use dir_folder::DirFolder;
