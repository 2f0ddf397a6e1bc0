//! What a worker serves with.

/// A worker's listener, its folder of dumps and its clock.
#[derive(Drop)]
pub struct Post<L, F, K> {
    pub listener: L,
    pub folder: F,
    pub clock: K,
}
