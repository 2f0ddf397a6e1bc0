//! Copies that may meet want of memory, one value at a time or several parts at once.

ghost use Rattle.std.specs.Prelude.{◌≡◌, IfOk};

use crate::NoMemory;
use std::alloc::Global;

/// A value that can be copied, where memory allows it.
pub trait TryCopy: Drop {
    /// An equal value.
    fn copy(&self, alloc: Global) -> Result<Self, NoMemory>
        ensures { IfOk result (λ made. made ≡ self.now) };
}

impl TryCopy for u8 {
    fn copy(&self, _alloc: Global) -> Result<u8, NoMemory> {
        Ok(*self)
    }
}

impl<T: TryCopy> TryCopy for Option<T> {
    fn copy(&self, alloc: Global) -> Result<Option<T>, NoMemory> {
        match self {
            None => Ok(None),
            Some(value) => Ok(Some(value.copy(alloc)?)),
        }
    }
}

/// References to the parts of a record, alone or in tuples, that are copied together.
pub trait CopyParts: Drop {
    type Made: Drop;

    ghost seen: { Self → Self.Made };

    /// Equal parts.
    fn copy_parts(self, alloc: Global) -> Result<Self::Made, NoMemory>
        ensures { IfOk result (λ made. made ≡ seen self) };
}

impl<'a, T: TryCopy> CopyParts for &'a T {
    type Made = T;

    ghost seen = { λ r. r.now };

    fn copy_parts(self, alloc: Global) -> Result<T, NoMemory> {
        self.copy(alloc)
    }
}

impl<A: CopyParts, B: CopyParts> CopyParts for (A, B) {
    type Made = (A::Made, B::Made);

    ghost seen = { λ p. (A.seen p.0, B.seen p.1) };

    fn copy_parts(self, alloc: Global) -> Result<(A::Made, B::Made), NoMemory> {
        let (a, b) = self;
        let first = a.copy_parts(alloc)?;
        let second = b.copy_parts(alloc)?;
        Ok((first, second))
    }
}

impl<A: CopyParts, B: CopyParts, C: CopyParts> CopyParts for (A, B, C) {
    type Made = (A::Made, B::Made, C::Made);

    ghost seen = { λ p. (A.seen p.0, B.seen p.1, C.seen p.2) };

    fn copy_parts(self, alloc: Global) -> Result<(A::Made, B::Made, C::Made), NoMemory> {
        let (a, b, c) = self;
        let first = a.copy_parts(alloc)?;
        let second = b.copy_parts(alloc)?;
        let third = c.copy_parts(alloc)?;
        Ok((first, second, third))
    }
}

impl<A: CopyParts, B: CopyParts, C: CopyParts, D: CopyParts> CopyParts for (A, B, C, D) {
    type Made = (A::Made, B::Made, C::Made, D::Made);

    ghost seen = { λ p. (A.seen p.0, B.seen p.1, C.seen p.2, D.seen p.3) };

    fn copy_parts(self, alloc: Global) -> Result<(A::Made, B::Made, C::Made, D::Made), NoMemory> {
        let (a, b, c, d) = self;
        let first = a.copy_parts(alloc)?;
        let second = b.copy_parts(alloc)?;
        let third = c.copy_parts(alloc)?;
        let fourth = d.copy_parts(alloc)?;
        Ok((first, second, third, fourth))
    }
}
