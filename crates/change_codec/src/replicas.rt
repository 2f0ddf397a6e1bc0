//! Rows of replicas, marked operations and the entries of a journal in bytes.

ghost use Rattle.std.specs.Prelude.{◌≡◌, ◌∷◌, OnOk};
ghost use Rattle.std.specs.Int.{w64};
ghost use Rattle.change_codec.specs.Forms.{made_read, number_read};
ghost use Rattle.change_codec.specs.Records.{a_phase, an_entry, entry_code, entry_fits, event, load_step, marked, newest, phase_code, phase_fits, replica_row, two_numbers};
ghost use Rattle.change_codec.specs.Whole.{Gives};

use crate::Entry;
use crate::fault::Stop;
use crate::reading::Get;
use crate::tags::{
    DUMP_ENTRY, EVENT_ENTRY, EVENTS_PHASE, ITEMS_PHASE, LIVE_PHASE, LOAD_ENTRY, TRIM_ENTRY,
};
use crate::version::Version;
use crate::writing::{Put, put_tagged};
use cat_types::{Bytes, Event, Marked, MarkedOps, NoMemory, Op, Phase, ReplicaRow, Text};
use std::alloc::Global;

#[tactic(auto, unfolding(crate::specs::Forms::tagged_read))]
impl Get for Phase {
    ghost read = { λ _. a_phase.read };

    fn get(alloc: Global, version: Version, bytes: &[u8]) -> Result<(Phase, &[u8]), Stop> {
        match bytes {
            [] => Err(Stop::Left(0)),
            [ITEMS_PHASE, rest @ ..] => get_items(alloc, version, rest),
            [EVENTS_PHASE, rest @ ..] => get_events(alloc, version, rest),
            [LIVE_PHASE, rest @ ..] => get_live(alloc, version, rest),
            [_, ..] => Err(Stop::Left(bytes.len())),
        }
    }
}

#[tactic(auto, unfolding(crate::specs::Forms::made_read))]
fn get_items(alloc: Global, version: Version, bytes: &[u8]) -> Result<(Phase, &[u8]), Stop>
    ensures { Gives (λ x. (x.0, x.1.now)) result (made_read (λ p. Phase.Items p.0 p.1) two_numbers.read bytes.now) }
{
    match <(u64, u64)>::get(alloc, version, bytes) {
        Ok(((dump, count), rest)) => Ok((Phase::Items(dump, count), rest)),
        Err(stop) => Err(stop),
    }
}

#[tactic(auto, unfolding(crate::specs::Forms::made_read))]
fn get_events(alloc: Global, version: Version, bytes: &[u8]) -> Result<(Phase, &[u8]), Stop>
    ensures { Gives (λ x. (x.0, x.1.now)) result (made_read (λ p. Phase.Events p.0 p.1) two_numbers.read bytes.now) }
{
    match <(u64, u64)>::get(alloc, version, bytes) {
        Ok(((dump, at), rest)) => Ok((Phase::Events(dump, at), rest)),
        Err(stop) => Err(stop),
    }
}

#[tactic(auto, unfolding(crate::specs::Forms::made_read))]
fn get_live(alloc: Global, version: Version, bytes: &[u8]) -> Result<(Phase, &[u8]), Stop>
    ensures { Gives (λ x. (x.0, x.1.now)) result (made_read (λ n. Phase.Live n) (number_read w64) bytes.now) }
{
    match u64::get(alloc, version, bytes) {
        Ok((at, rest)) => Ok((Phase::Live(at), rest)),
        Err(stop) => Err(stop),
    }
}

impl Put for Phase {
    ghost HasCode = { phase_fits };

    ghost code = { phase_code };

    fn put(&self, out: &mut Bytes) -> Result<(), NoMemory> {
        match self {
            Phase::Items(dump, count) => put_tagged(ITEMS_PHASE, &(dump, count), out),
            Phase::Events(dump, at) => put_tagged(EVENTS_PHASE, &(dump, at), out),
            Phase::Live(at) => put_tagged(LIVE_PHASE, at, out),
        }
    }
}

#[tactic(auto, unfolding(crate::specs::Forms::made_read))]
impl Get for ReplicaRow {
    ghost read = { λ _. replica_row.read };

    fn get(alloc: Global, version: Version, bytes: &[u8]) -> Result<(ReplicaRow, &[u8]), Stop> {
        match <([u8; 16], Text, Phase)>::get(alloc, version, bytes) {
            Ok((parts, rest)) => {
                let (source, source_db, phase) = parts;
                Ok((
                    ReplicaRow {
                        source,
                        source_db,
                        phase,
                    },
                    rest,
                ))
            }
            Err(stop) => Err(stop),
        }
    }
}

impl Put for ReplicaRow {
    ghost HasCode = { replica_row.HasCode };

    ghost code = { replica_row.code };

    fn put(&self, out: &mut Bytes) -> Result<(), NoMemory> {
        (&self.source, &self.source_db, &self.phase).put(out)
    }
}

#[tactic(auto, unfolding(crate::specs::Forms::made_read))]
impl Get for Marked {
    ghost read = { λ version. (marked version).read };

    fn get(alloc: Global, version: Version, bytes: &[u8]) -> Result<(Marked, &[u8]), Stop> {
        match <(u64, u64, Op)>::get(alloc, version, bytes) {
            Ok(((mark, db_born, op), rest)) => Ok((Marked { mark, db_born, op }, rest)),
            Err(stop) => Err(stop),
        }
    }
}

impl Put for Marked {
    ghost HasCode = { (marked newest).HasCode };

    ghost code = { (marked newest).code };

    fn put(&self, out: &mut Bytes) -> Result<(), NoMemory> {
        (&self.mark, &self.db_born, &self.op).put(out)
    }
}

#[tactic(auto, unfolding(crate::specs::Forms::tagged_read))]
impl Get for Entry {
    ghost read = { λ version. (an_entry version).read };

    fn get(alloc: Global, version: Version, bytes: &[u8]) -> Result<(Entry, &[u8]), Stop> {
        match bytes {
            [] => Err(Stop::Left(0)),
            [EVENT_ENTRY, rest @ ..] => get_kept(alloc, version, rest),
            [DUMP_ENTRY, rest @ ..] => get_begun(alloc, version, rest),
            [TRIM_ENTRY, rest @ ..] => get_trimmed(alloc, version, rest),
            [LOAD_ENTRY, rest @ ..] => get_load_step(alloc, version, rest),
            [_, ..] => Err(Stop::Left(bytes.len())),
        }
    }
}

#[tactic(auto, unfolding(crate::specs::Forms::made_read))]
fn get_kept(alloc: Global, version: Version, bytes: &[u8]) -> Result<(Entry, &[u8]), Stop>
    ensures { Gives (λ x. (x.0, x.1.now)) result (made_read (λ e. Entry.Event e) (event version).read bytes.now) }
{
    match Event::get(alloc, version, bytes) {
        Ok((event, rest)) => Ok((Entry::Event(event), rest)),
        Err(stop) => Err(stop),
    }
}

#[tactic(auto, unfolding(crate::specs::Forms::made_read))]
fn get_begun(alloc: Global, version: Version, bytes: &[u8]) -> Result<(Entry, &[u8]), Stop>
    ensures { Gives (λ x. (x.0, x.1.now)) result (made_read (λ n. Entry.DumpBegun n) (number_read w64) bytes.now) }
{
    match u64::get(alloc, version, bytes) {
        Ok((dump, rest)) => Ok((Entry::DumpBegun(dump), rest)),
        Err(stop) => Err(stop),
    }
}

#[tactic(auto, unfolding(crate::specs::Forms::made_read))]
fn get_trimmed(alloc: Global, version: Version, bytes: &[u8]) -> Result<(Entry, &[u8]), Stop>
    ensures { Gives (λ x. (x.0, x.1.now)) result (made_read (λ n. Entry.Trimmed n) (number_read w64) bytes.now) }
{
    match u64::get(alloc, version, bytes) {
        Ok((first, rest)) => Ok((Entry::Trimmed(first), rest)),
        Err(stop) => Err(stop),
    }
}

#[tactic(auto, unfolding(crate::specs::Forms::made_read))]
fn get_load_step(alloc: Global, version: Version, bytes: &[u8]) -> Result<(Entry, &[u8]), Stop>
    ensures { Gives (λ x. (x.0, x.1.now)) result (made_read (λ p. Entry.LoadStep p.0 p.1 p.2 p.3) (load_step version).read bytes.now) }
{
    match <(Text, ReplicaRow, bool, MarkedOps)>::get(alloc, version, bytes) {
        Ok(((target, row, clear, ops), rest)) => Ok((
            Entry::LoadStep {
                target,
                row,
                clear,
                ops,
            },
            rest,
        )),
        Err(stop) => Err(stop),
    }
}

impl Put for Entry {
    ghost HasCode = { entry_fits newest };

    ghost code = { entry_code newest };

    fn put(&self, out: &mut Bytes) -> Result<(), NoMemory> {
        match self {
            Entry::Event(event) => put_tagged(EVENT_ENTRY, event, out),
            Entry::DumpBegun(dump) => put_tagged(DUMP_ENTRY, dump, out),
            Entry::Trimmed(first) => put_tagged(TRIM_ENTRY, first, out),
            Entry::LoadStep {
                target,
                row,
                clear,
                ops,
            } => put_tagged(LOAD_ENTRY, &(target, row, clear, ops), out),
        }
    }
}
