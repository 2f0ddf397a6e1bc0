//! A journal that is open.

ghost use Rattle.std.specs.Prelude.{◌≡◌, ◌⊎◌, ◌<◌, ◌≤◌, ◌++◌, ◌∷◌, [], None, Some, ℕ, ◌^◌, length, take, drop, is_some, IsSome, IfOk, OnOk, OnErr, IsErrOf, IfErr, IfSome, MatchResult};
ghost use Rattle.hms_outside.specs.Causes.{Rose};
ghost use Rattle.hms_outside.specs.Disks.{Lay, Went};
ghost use Rattle.ms_journal.specs.Files.{IsBroken, IsFile, IsForeign, block, base_in, head_of, placed};
ghost use Rattle.ms_journal.specs.Faults.{IsMakingFault, IsOpeningFault};
ghost use Rattle.ms_journal.specs.Found.{AsFound, HeldStays, LeavesAsFound};
ghost use Rattle.ms_journal.specs.Parsed.{pairs_of};
ghost use Rattle.ms_journal.specs.Books.{LeavesOpen, OpensTo};

use crate::format::{ENTRY_BYTES, GATE_SHUT, HEAD_LENGTH};
use crate::gates::{close_gate, open_gate, stage};
use crate::making::begin;
use crate::opening::read_log;
use crate::reading::{Parsed, Payloads, base_of, id_in};
use crate::{OpenFault, StoreFault};
use cat_values::{Bytes, NoMemory};
use hms_outside::Disk;
use http_server::Log;
use std::alloc::Global;
use std::marker::Model;

/// A log of payloads on a disk.
#[derive(Drop)]
pub struct Journal<D: Disk> {
    alloc: Global,
    disk: D,
    head: [u8; HEAD_LENGTH],
    /// Where the gate stands at which reading stops.
    end: u64,
    /// Whether that gate may be open, behind a crash or now.
    is_doubtful: bool,
    payloads: Log<Bytes, ()>,
    doubt: Log<Bytes, ()>,
}

impl<D: Disk> Model for Journal<D> {
    ghost use Rattle.ms_journal.specs.Books.{Book, Keeps, logged, first_logged};

    ghost Value = { Book D };

    ghost view = { λ j. record { disk = j.disk; head = j.head; payloads = logged j.payloads.items; doubt = first_logged j.doubt.items } };

    ghost invariant = { λ j. Keeps (D.lies j.disk) j.head j.end j.is_doubtful (logged j.payloads.items) (first_logged j.doubt.items) };
}

/// What is written behind an entry's gate: the payload's length, the payload, and the next gate, which is closed.
fn block_of(alloc: Global, payload: &[u8]) -> Result<Vec<u8>, NoMemory>
    requires { length payload.now < 2 ^ 32 }
    ensures { IfOk result (λ bytes. bytes.items ≡ block payload.now ++ 0 ∷ []) }
{
    let mut bytes = Vec::with_capacity(alloc, payload.len() + ENTRY_BYTES)?;
    bytes.extend_from_slice(&(payload.len() as u64).to_be_bytes())?;
    bytes.extend_from_slice(payload)?;
    bytes.push(GATE_SHUT)?;
    Ok(bytes)
}

impl<D: Disk> Journal<D> {
    /// Whether the gate that follows the last payload may be open.
    pub fn is_doubtful(&self) -> bool
        ensures doubt { result ≡ is_some self.now.doubt }
        ensures opens { IfSome (D.lies self.now.disk) (LeavesOpen self.now.head self.now.payloads self.now.doubt) }
    {
        self.is_doubtful
    }

    /// Adds a payload. From Ok on each crash leaves a file that has it. After a refusal the log is
    /// as before, and the payload may be in doubt.
    pub fn append(&mut self, payload: &Bytes) -> Result<(), StoreFault>
        requires { self.old.doubt ≡ None }
        ensures head { self.new.head ≡ self.old.head }
        ensures added { OnOk result (self.new.payloads ≡ self.old.payloads ++ payload.now ∷ []) }
        ensures settled { OnOk result (self.new.doubt ≡ None) }
        ensures kept { OnErr result (self.new.payloads ≡ self.old.payloads) }
        ensures doubt { OnErr result ((self.new.doubt ≡ None) ⊎ (self.new.doubt ≡ Some payload.now)) }
        ensures went { Went (D.past self.old.disk) (D.past self.new.disk) (D.lies self.new.disk)
            (LeavesOpen self.new.head self.new.payloads self.new.doubt) (OpensTo self.old.head self.old.payloads (Some payload.now)) }
        ensures later { D.faults self.old.disk ≤ D.faults self.new.disk }
        ensures cause { IsErrOf result StoreFault.DiskFault → Rose (D.faults self.old.disk) (D.faults self.new.disk) }
    {
        let bytes = block_of(self.alloc, payload.as_slice())?;
        stage(&mut self.disk, self.end, &bytes)?;
        match open_gate(&mut self.disk, self.end) {
            Ok(()) => {
                self.end += (payload.len() + ENTRY_BYTES) as u64;
                self.payloads = self.payloads.and(payload, &());
                Ok(())
            }
            Err(outage) => {
                self.is_doubtful = true;
                self.doubt = self.doubt.and(payload, &());
                Err(StoreFault::from(outage))
            }
        }
    }

    /// Shuts the doubtful gate again. After a refusal it is as doubtful as before. It allocates nothing,
    /// so it takes no memory over a disk that takes none for a write within its length.
    pub fn withdraw(&mut self) -> Result<(), StoreFault>
        requires { IsSome self.old.doubt }
        ensures head { self.new.head ≡ self.old.head }
        ensures payloads { self.new.payloads ≡ self.old.payloads }
        ensures settled { OnOk result (self.new.doubt ≡ None) }
        ensures doubt { OnErr result (self.new.doubt ≡ self.old.doubt) }
        ensures went { Went (D.past self.old.disk) (D.past self.new.disk) (D.lies self.new.disk)
            (LeavesOpen self.new.head self.new.payloads self.new.doubt) (OpensTo self.old.head self.old.payloads self.old.doubt) }
        ensures later { D.faults self.old.disk ≤ D.faults self.new.disk }
        ensures cause { IsErrOf result StoreFault.DiskFault → Rose (D.faults self.old.disk) (D.faults self.new.disk) }
    {
        close_gate(&mut self.disk, self.end)?;
        self.is_doubtful = false;
        self.doubt = Log::new();
        Ok(())
    }

    /// Gives the disk back.
    pub fn into_disk(self) -> D
        ensures disk { result ≡ self.disk }
        ensures opens { IfSome (D.lies result) (LeavesOpen self.head self.payloads self.doubt) }
        // So does what a read of it gives.
        ensures held { IfSome (D.lies result) (λ d. OpensTo self.head self.payloads self.doubt d.held) }
    {
        let Journal { disk, .. } = self;
        disk
    }

    /// Makes the journal of a new store on a disk that has no bytes. A refusal hands the disk back.
    pub fn create(
        alloc: Global,
        mut disk: D,
        id: [u8; 16],
        base: u64,
    ) -> Result<Journal<D>, (OpenFault, D)>
        requires { base < 2 ^ 63 }
        ensures head { IfOk result (λ j. j.head ≡ head_of id base) }
        ensures none { IfOk result (λ j. j.payloads ≡ []) }
        ensures settled { IfOk result (λ j. j.doubt ≡ None) }
        ensures empty { OnOk result (IfSome (D.lies disk) (λ d. d.held ≡ [])) }
        ensures opens { IfOk result (λ j. IfSome (D.lies j.disk) (LeavesOpen j.head j.payloads j.doubt)) }
        ensures kind { IfErr result (λ e. IsMakingFault e.0) }
        ensures not_empty { IfErr result (λ e. e.0 ≡ OpenFault.NotEmpty → IfSome (D.lies disk) (λ d. 0 < length d.held)) }
        ensures same { IfErr result (λ e. e.0 ≡ OpenFault.NotEmpty → D.lies e.1 ≡ D.lies disk) }
        ensures later { MatchResult result (λ j. D.faults disk ≤ D.faults j.disk) (λ e. D.faults disk ≤ D.faults e.1) }
        ensures cause { IfErr result (λ e. e.0 ≡ OpenFault.DiskFault → Rose (D.faults disk) (D.faults e.1)) }
    {
        match begin(alloc, &mut disk, &id, base) {
            Ok(head) => Ok(Journal {
                alloc,
                disk,
                head,
                end: HEAD_LENGTH as u64,
                is_doubtful: false,
                payloads: Log::new(),
                doubt: Log::new(),
            }),
            Err(fault) => Err((fault, disk)),
        }
    }

    /// Opens the journal that a disk holds, after a crash or none, and gives its payloads. It syncs
    /// first. A refusal hands the disk back.
    pub fn open_log(alloc: Global, mut disk: D) -> Result<(Journal<D>, Payloads), (OpenFault, D)>
        ensures file { IfOk result (λ r. IfSome (D.lies disk) (λ d. IsFile r.0.head r.0.payloads d.held)) }
        ensures listed { IfOk result (λ r. pairs_of r.1 ≡ placed 40 r.0.payloads) }
        ensures settled { IfOk result (λ r. r.0.doubt ≡ None) }
        ensures opens { IfOk result (λ r. IfSome (D.lies r.0.disk) (LeavesOpen r.0.head r.0.payloads r.0.doubt)) }
        ensures went { MatchResult result
            (λ r. Went (D.past disk) (D.past r.0.disk) (D.lies r.0.disk) (LeavesAsFound (D.lies disk)) (AsFound (D.lies disk)))
            (λ e. Went (D.past disk) (D.past e.1) (D.lies e.1) (LeavesAsFound (D.lies disk)) (AsFound (D.lies disk))) }
        ensures held { MatchResult result (λ r. Lay HeldStays (D.lies disk) (D.lies r.0.disk)) (λ e. Lay HeldStays (D.lies disk) (D.lies e.1)) }
        ensures kind { IfErr result (λ e. IsOpeningFault e.0) }
        ensures foreign { IfErr result (λ e. e.0 ≡ OpenFault.Foreign → IfSome (D.lies disk) (λ d. IsForeign d.held)) }
        ensures broken { IfErr result (λ e. (at : ℕ) → e.0 ≡ OpenFault.Broken at → IfSome (D.lies disk) (λ d. IsBroken at d.held)) }
        ensures later { MatchResult result (λ r. D.faults disk ≤ D.faults r.0.disk) (λ e. D.faults disk ≤ D.faults e.1) }
        ensures cause { IfErr result (λ e. e.0 ≡ OpenFault.DiskFault → Rose (D.faults disk) (D.faults e.1)) }
    {
        match read_log(alloc, &mut disk) {
            Ok(parsed) => {
                let Parsed {
                    head,
                    payloads,
                    log,
                    end,
                } = parsed;
                let journal = Journal {
                    alloc,
                    disk,
                    head,
                    end,
                    is_doubtful: false,
                    payloads: log,
                    doubt: Log::new(),
                };
                Ok((journal, payloads))
            }
            Err(fault) => Err((fault, disk)),
        }
    }

    /// The store's id.
    pub fn id(&self) -> [u8; 16]
        ensures { result ≡ take 16 (drop 8 self.now.head) }
    {
        id_in(&self.head)
    }

    /// The store's base event number.
    pub fn base(&self) -> u64
        ensures value { result ≡ base_in self.now.head }
        ensures bound { result < 2 ^ 63 }
    {
        base_of(&self.head)
    }
}
