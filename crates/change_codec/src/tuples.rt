//! Values one behind the other.

ghost use Rattle.std.specs.Prelude.{◌++◌};
ghost use Rattle.change_codec.specs.Forms.{four_read, then_read, three_read};

use crate::fault::Stop;
use crate::reading::Get;
use crate::version::Version;
use crate::writing::Put;
use cat_types::{Bytes, NoMemory};
use std::alloc::Global;

#[tactic(auto, unfolding(crate::specs::Forms::then_read))]
impl<A: Get, B: Get> Get for (A, B) {
    ghost read = { λ version. then_read (A.read version) (B.read version) };

    fn get(alloc: Global, version: Version, bytes: &[u8]) -> Result<((A, B), &[u8]), Stop> {
        let (a, rest) = A::get(alloc, version, bytes)?;
        let (b, rest) = B::get(alloc, version, rest)?;
        Ok(((a, b), rest))
    }
}

#[tactic(auto, unfolding(crate::specs::Forms::three_read))]
impl<A: Get, B: Get, C: Get> Get for (A, B, C) {
    ghost read = { λ version. three_read (A.read version) (B.read version) (C.read version) };

    fn get(alloc: Global, version: Version, bytes: &[u8]) -> Result<((A, B, C), &[u8]), Stop> {
        let (a, rest) = A::get(alloc, version, bytes)?;
        let (b, rest) = B::get(alloc, version, rest)?;
        let (c, rest) = C::get(alloc, version, rest)?;
        Ok(((a, b, c), rest))
    }
}

#[tactic(auto, unfolding(crate::specs::Forms::four_read))]
impl<A: Get, B: Get, C: Get, D: Get> Get for (A, B, C, D) {
    ghost read = { λ version. four_read (A.read version) (B.read version) (C.read version) (D.read version) };

    fn get(alloc: Global, version: Version, bytes: &[u8]) -> Result<((A, B, C, D), &[u8]), Stop> {
        let (a, rest) = A::get(alloc, version, bytes)?;
        let (b, rest) = B::get(alloc, version, rest)?;
        let (c, rest) = C::get(alloc, version, rest)?;
        let (d, rest) = D::get(alloc, version, rest)?;
        Ok(((a, b, c, d), rest))
    }
}

impl<'a, T: Put> Put for &'a T {
    ghost HasCode = { λ r. T.HasCode r.now };

    ghost code = { λ r. T.code r.now };

    fn put(&self, out: &mut Bytes) -> Result<(), NoMemory> {
        T::put(*self, out)
    }
}

impl<A: Put, B: Put> Put for (A, B) {
    ghost HasCode = { λ p. A.HasCode p.0 × B.HasCode p.1 };

    ghost code = { λ p. A.code p.0 ++ B.code p.1 };

    fn put(&self, out: &mut Bytes) -> Result<(), NoMemory> {
        self.0.put(out)?;
        self.1.put(out)
    }
}

impl<A: Put, B: Put, C: Put> Put for (A, B, C) {
    ghost HasCode = { λ p. A.HasCode p.0 × B.HasCode p.1 × C.HasCode p.2 };

    ghost code = { λ p. A.code p.0 ++ B.code p.1 ++ C.code p.2 };

    fn put(&self, out: &mut Bytes) -> Result<(), NoMemory> {
        self.0.put(out)?;
        self.1.put(out)?;
        self.2.put(out)
    }
}

impl<A: Put, B: Put, C: Put, D: Put> Put for (A, B, C, D) {
    ghost HasCode = { λ p. A.HasCode p.0 × B.HasCode p.1 × C.HasCode p.2 × D.HasCode p.3 };

    ghost code = { λ p. A.code p.0 ++ B.code p.1 ++ C.code p.2 ++ D.code p.3 };

    fn put(&self, out: &mut Bytes) -> Result<(), NoMemory> {
        self.0.put(out)?;
        self.1.put(out)?;
        self.2.put(out)?;
        self.3.put(out)
    }
}
