//! What the program meets outside itself: sources and sinks of bytes, disks, folders and clocks.
//! Each is a trait that counts its faults and may tell its content; each has a form over memory,
//! whose calls fail where a list says so, and all but folders have adapters over std's. A disk also
//! tells what a crash may leave of it.
#![tactic(auto)]

mod byte_moves;
mod clock;
mod disk;
mod failures;
mod file_disk;
mod folder;
mod laws;
mod mem_clock;
mod mem_disk;
mod mem_folder;
mod mem_sink;
mod mem_source;
mod outage;
mod platter;
mod sending;
mod sink;
mod source;
mod stream;
mod system_clock;

pub use clock::Clock;
pub use disk::Disk;
pub use file_disk::FileDisk;
pub use folder::Folder;
pub use laws::crashes_lie_between_calls;
pub use mem_clock::MemClock;
pub use mem_disk::MemDisk;
pub use mem_folder::MemFolder;
pub use mem_sink::MemSink;
pub use mem_source::MemSource;
pub use outage::Outage;
pub use platter::CrashPick;
pub use sending::send_all;
pub use sink::Sink;
pub use source::Source;
pub use stream::{StreamSink, StreamSource};
pub use system_clock::SystemClock;
