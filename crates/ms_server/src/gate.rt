//! What is told of each turn.

/// Is called after each step of a shared desk, outside the turn, with the number of the desk's worker
/// and of its steps so far, modulo 2^64.
pub trait Gate {
    fn pass(&self, worker: u32, done: u64);
}

/// Does nothing.
pub struct FreeGate;

impl Gate for FreeGate {
    fn pass(&self, _worker: u32, _done: u64) {}
}
