//! Which lock a desk is of.

use std::marker::Brand;

/// Names one lock. Types that have to agree on the lock are generic in it, since no clause of a
/// function that is generic over desks could carry it.
pub trait Room {
    ghost use Rattle.atomic_table.specs.Seated.{TableId};

    ghost table: { TableId };
}

impl Room for Brand {
    ghost use Rattle.ms_server.specs.Turns.{no_table};

    ghost table = { no_table };
}
