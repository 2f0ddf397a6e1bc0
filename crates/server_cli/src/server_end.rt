//! What a server gives back.

/// How a server ended: the program's status; the status of each worker, 0, 10 or 12; how many steps
/// its store took, and how many of them each worker took, modulo 2^64; and the listeners, the disks
/// and the folders that it was given.
#[derive(Drop)]
pub struct ServerEnd<L, D, F> {
    pub status: u8,
    pub ends: Vec<u8>,
    pub steps: u64,
    pub calls: Vec<u64>,
    pub listeners: Vec<L>,
    pub disk_a: D,
    pub disk_b: D,
    pub folders: Vec<F>,
}
