//! What workers give back.

use crate::Post;

/// What a worker gives back: its caller number, the number of its steps modulo 2^64, its status, and
/// what it served with.
#[derive(Drop)]
pub struct Done<L, F, K> {
    pub caller: u32,
    pub calls: u64,
    pub status: u8,
    pub post: Post<L, F, K>,
}

/// What all workers give back, in their order, and the number of all steps modulo 2^64.
#[derive(Drop)]
pub struct Crew<L, F, K> {
    pub done: Vec<Done<L, F, K>>,
    pub steps: u64,
}
