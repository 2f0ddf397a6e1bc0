//! How the payloads of a journal are taken again.

ghost use Rattle.std.specs.Prelude.{◌≡◌, Ok, MatchResult};
ghost use Rattle.engine.specs.Opening.{RefusesReplay, opened, replayed, spelled, taken};
ghost use Rattle.ms_journal.specs.Files.{placed};
ghost use Rattle.ms_journal.specs.Parsed.{pairs_of};

use crate::store::Store;
use change_codec::{CodecFault, get_entry};
use hms_outside::Disk;
use ms_journal::{Journal, OpenFault, Payload, Payloads};
use std::alloc::Global;

// Takes one payload, and lets it go.
fn redo(alloc: Global, store: &mut Store, payload: Payload) -> Result<(), OpenFault>
    ensures { MatchResult result (λ _. taken payload.at (spelled payload.bytes) store.old ≡ Ok store.new) (λ fault. RefusesReplay fault (taken payload.at (spelled payload.bytes) store.old)) }
{
    match get_entry(alloc, payload.bytes.as_slice()) {
        Ok(entry) => store.take(entry, payload.at),
        Err(CodecFault::BadRecord(_)) => Err(OpenFault::Broken(payload.at)),
        Err(CodecFault::NoMemory) => Err(OpenFault::NoMemory),
    }
}

// Takes payloads, one after the other, each of which is let go when it was taken.
fn redo_all(alloc: Global, store: &mut Store, payloads: Payloads) -> Result<(), OpenFault>
    ensures { MatchResult result (λ _. replayed (pairs_of payloads) store.old ≡ Ok store.new) (λ fault. RefusesReplay fault (replayed (pairs_of payloads) store.old)) }
{
    for payload in payloads.into_vec() {
        redo(alloc, store, payload)?;
    }
    Ok(())
}

/// What the payloads of a journal make of a new store.
pub fn replay<D: Disk>(
    alloc: Global,
    journal: &Journal<D>,
    payloads: Payloads,
) -> Result<Store, OpenFault>
    requires { pairs_of payloads ≡ placed 40 journal.now.payloads }
    ensures { MatchResult result (λ store. opened journal.now.head journal.now.payloads ≡ Ok store) (λ fault. RefusesReplay fault (opened journal.now.head journal.now.payloads)) }
{
    let mut store = Store::new(alloc, journal.id(), journal.base())?;
    redo_all(alloc, &mut store, payloads)?;
    Ok(store)
}
