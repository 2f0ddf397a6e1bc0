//! SHA-256 of bytes in memory.

use crate::samples::{Part, bytes_of};
use crate::stop::Stop;
use sha2::{Digest, Sha256};
use std::alloc::Global;

// 32 KiB.
const BLOCK: [Part; 1] = [(1024, b"partitions of a table in a dump.")];

/// Hashes 32 KiB so often, each time with the first byte of the digest before in their front. The sum
/// is of these bytes.
pub fn chain(alloc: Global, count: u32) -> Result<u64, Stop> {
    let mut block = bytes_of(alloc, &BLOCK)?;
    let mut sum: u64 = 0;
    for _ in 0..count {
        let [byte, ..] = Sha256::digest(&block);
        sum = sum.saturating_add(u64::from(byte));
        if let Some(front) = block.first_mut() {
            *front = byte;
        }
    }
    Ok(sum)
}
