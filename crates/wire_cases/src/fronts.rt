//! Fronts of a message.

use crate::sessions::told;
use std::alloc::Global;
use table_cases::{Answers, Unable, bytes_of};

/// Whether each proper front of a message is truncated where it ends.
pub struct Fronts;

impl Answers for Fronts {
    fn answer(&self, alloc: Global, input: &str) -> Result<String, Unable> {
        let bytes = bytes_of(alloc, input)?;
        for size in 1..bytes.len() {
            let (front, _) = bytes.split_at(size);
            let came = told(alloc, front)?;
            let wanted = format!(in alloc; "truncated at {size}")?;
            if came.as_str() != wanted.as_str() {
                return Ok(came);
            }
        }
        Ok(format!(in alloc; "each truncated")?)
    }
}
