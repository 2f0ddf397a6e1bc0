//! Filling a buffer from a source.

ghost use Rattle.std.specs.Prelude.{◌<◌, ◌≤◌, ℕ, length, take, IfOk, OnErr};
ghost use Rattle.std.specs.Io.KnownBytes.{Consumes, IsAtEnd};
ghost use Rattle.hms_outside.specs.Causes.{HasCause};

use hms_outside::{Outage, Source};

/// Fills the buffer as far as the input reaches, and says how far.
pub fn fill<S: Source>(source: &mut S, buf: &mut [u8]) -> Result<usize, Outage>
    ensures bound { IfOk result (λ n. n ≤ length buf.old) }
    ensures bytes { IfOk result (λ n. Consumes (S.left source.old) (S.left source.new) (take n buf.new)) }
    ensures end { IfOk result (λ n. n < length buf.old → IsAtEnd (S.left source.new)) }
    ensures err { OnErr result ((n : ℕ) × (n < length buf.old) × Consumes (S.left source.old) (S.left source.new) (take n buf.new)) }
    ensures cause { HasCause (S.faults source.old) (S.faults source.new) result }
{
    let mut at = 0;
    while at < buf.len() {
        let count = source.read(&mut buf[at..])?;
        if count == 0 {
            return Ok(at);
        }
        at += count;
    }
    Ok(at)
}
