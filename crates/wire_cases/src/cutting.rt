//! Sources that cut what they give.

ghost use Rattle.std.specs.Prelude.{◌≤◌, None};

use hms_outside::{Outage, Source};
use std::alloc::Global;
use table_cases::Unable;

/// How a source cuts what it gives: so many bytes in front, if any, and behind them pieces of at most
/// this size.
#[derive(Clone, Copy, Debug)]
pub struct Cut {
    pub front: usize,
    pub size: usize,
}

/// One piece.
pub const WHOLE: Cut = Cut {
    front: 0,
    size: 1_000_000_000,
};

// Up to how many bytes an input is cut in every way.
const SHORT: usize = 300;

/// The ways in which an input of so many bytes is cut, the first of them not at all: a short one in
/// pieces of every size, single bytes among them, and in any two halves.
pub fn cuts(alloc: Global, size: usize) -> Result<Vec<Cut>, Unable> {
    let mut cuts = Vec::new(alloc);
    cuts.push(WHOLE)?;
    if size > SHORT {
        let long = Cut {
            front: 0,
            size: 1000,
        };
        cuts.push(long)?;
        return Ok(cuts);
    }
    for count in 1..=size {
        let pieces = Cut {
            front: 0,
            size: count,
        };
        let halves = Cut {
            front: count,
            size: SHORT,
        };
        cuts.push(pieces)?;
        cuts.push(halves)?;
    }
    Ok(cuts)
}

/// A source of bytes that stand in memory. It tells nothing of what it has left.
#[derive(Drop)]
pub struct CutSource<'a> {
    left: &'a [u8],
    cut: Cut,
}

impl<'a> CutSource<'a> {
    pub fn new(left: &'a [u8], cut: Cut) -> CutSource<'a> {
        CutSource { left, cut }
    }

    // How many bytes the next read may give where there is room for so many.
    fn room(&self, len: usize) -> usize
        ensures { result ≤ len }
    {
        let Cut { front, size } = self.cut;
        let most = if front > 0 { front } else { size };
        if most < len { most } else { len }
    }
}

impl<'a> Source for CutSource<'a> {
    ghost left = { λ _. None };

    ghost faults = { λ _. 0 };

    fn read(&mut self, buf: &mut [u8]) -> Result<usize, Outage> {
        let count = self.room(buf.len()).min(self.left.len());
        let (front, rest) = self.left.split_at(count);
        buf[..count].copy_from_slice(front);
        self.left = rest;
        self.cut.front = self.cut.front.saturating_sub(count);
        Ok(count)
    }
}
