//! Whether a step of a dump can be taken.

ghost use Rattle.std.specs.Prelude.{◌≡◌, false, true, IfErr, IfOk, OnErr, OnOk};
ghost use Rattle.cat_objects.specs.Changes.{is_born};
ghost use Rattle.cat_objects.specs.Catalogue.{database};
ghost use Rattle.cat_types.specs.declared.steps.Answer.{Answer};
ghost use Rattle.dump_steps.specs.Open.{open_dump, takes_events, takes_objects};
ghost use Rattle.dump_steps.specs.Pieces.{allowed, answered_in, is_taken_in};
ghost use Rattle.dump_steps.specs.declared.open_dumps.OpenDump.{OpenDump};

use crate::{DumpKind, OpenDump, OpenDumps};
use cat_objects::Cat;
use cat_types::{Answer, DumpRefusal};

/// What a step takes from a dump.
#[derive(Clone, Copy, Debug, PartialEq, Eq)]
pub enum Takes {
    /// Its objects, or their seal.
    Objects,
    /// Its events.
    Events,
}

/// The open dump with this number in which this caller can take such a step, or else what the step is
/// answered. It takes no memory.
pub fn dump_for<'a>(
    dumps: &'a OpenDumps,
    caller: u32,
    number: u64,
    takes: Takes,
    cat: &Cat,
) -> Result<&'a OpenDump, Answer>
    ensures found { IfOk result (λ dump. (finds : OpenDump → Answer) → answered_in (open_dump caller number dumps.now.dumps) (allowed takes) cat.now finds ≡ finds dump.now) }
    ensures taken { OnOk result (is_taken_in (open_dump caller number dumps.now.dumps) (allowed takes) cat.now ≡ true) }
    ensures not_taken { OnErr result (is_taken_in (open_dump caller number dumps.now.dumps) (allowed takes) cat.now ≡ false) }
    ensures refused { IfErr result (λ answer. (finds : OpenDump → Answer) → answered_in (open_dump caller number dumps.now.dumps) (allowed takes) cat.now finds ≡ answer) }
{
    let Some(dump) = dumps.find(caller, number) else {
        return Err(Answer::NotOpen);
    };
    if !allowed(takes, dump.kind) {
        return Err(Answer::NotOpen);
    }
    if !is_there(dump, cat) {
        return Err(Answer::DumpRefused(DumpRefusal::DatabaseGone(dump.born)));
    }
    Ok(dump)
}

// Whether such a step can come next in a dump of this kind.
fn allowed(takes: Takes, kind: DumpKind) -> bool
    ensures { result ≡ allowed takes kind }
{
    match takes {
        Takes::Objects => takes_objects(kind),
        Takes::Events => !takes_objects(kind),
    }
}

fn takes_objects(kind: DumpKind) -> bool
    ensures { result ≡ takes_objects kind }
{
    match kind {
        DumpKind::Bootstrap { sealed } => !sealed,
        DumpKind::Incremental => false,
    }
}

// Whether a dump's database is there with the born that it had.
fn is_there(dump: &OpenDump, cat: &Cat) -> bool
    ensures { result ≡ is_born dump.now.born (database cat.now dump.now.db) }
{
    match cat.held_database(&dump.db) {
        Some(held) => held.born == dump.born,
        None => false,
    }
}
