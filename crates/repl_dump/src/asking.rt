//! What a dump asks for.

ghost use Rattle.std.specs.Prelude.{◌≡◌, Some, IfOk};
ghost use Rattle.desk.specs.Walks.{step_at};
ghost use Rattle.repl_dump.specs.Turns.{place_of};

use crate::place::Place;
use cat_types::{CopyParts, NoMemory, Step, TryCopy};
use std::alloc::Global;

/// The one step of a place.
pub fn step_of(alloc: Global, number: u64, place: &Place) -> Result<Step, NoMemory>
    ensures { IfOk result (λ step. step_at number (place_of place.now) ≡ Some step) }
{
    match place {
        Place::Tables(after) => match after.copy(alloc) {
            Ok(after) => Ok(Step::DumpTable {
                dump: number,
                after,
            }),
            Err(NoMemory) => Err(NoMemory),
        },
        Place::Parts { table, born, after } => match (table, after).copy_parts(alloc) {
            Ok((table, after)) => Ok(Step::DumpParts {
                dump: number,
                table,
                born: *born,
                after,
            }),
            Err(NoMemory) => Err(NoMemory),
        },
        Place::Seal => Ok(Step::DumpSeal { dump: number }),
        Place::Events(after) => Ok(Step::DumpEvents {
            dump: number,
            after: *after,
        }),
        Place::End => Ok(Step::DumpEnd { dump: number }),
    }
}
