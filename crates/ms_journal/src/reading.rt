//! Reading a journal's bytes.

ghost use Rattle.std.specs.Prelude.{◌≡◌, ◌<◌, ◌≤◌, ◌+◌, ◌++◌, ◌∷◌, ◌^◌, [], get_or, length, take, drop, map, true, false, MatchOption, MatchResult, IfOk, IfErr, IfSome, IsErrOf, OnOk};
ghost use Rattle.std.specs.Int.{w64, from_be_bytes};
ghost use Rattle.hms_outside.specs.Causes.{Rose};
ghost use Rattle.ms_journal.specs.Files.{front, AllFit, IsCut, IsFile, placed, base_in, magic, IsForeign};
ghost use Rattle.ms_journal.specs.Parsed.{CutAt, IsEntryAt, IsRead};
ghost use Rattle.ms_journal.specs.Faults.{Refuses};

use crate::OpenFault;
use crate::format::{
    BASE_AT, BASE_END, ENTRY_BYTES, GATE_OPEN, HEAD_LENGTH, ID_AT, LENGTH_BYTES, SIGNATURE,
};
use crate::making::head_in;
use cat_values::{Bytes, ListOf};
use hms_outside::{Disk, Outage};
use http_server::Log;
use std::alloc::Global;

/// A payload, and the place of its gate.
#[derive(Drop)]
pub struct Payload {
    pub at: u64,
    pub bytes: Bytes,
}

/// Payloads in the order of their places.
pub type Payloads = ListOf<Payload>;

/// What was read of a journal.
#[derive(Drop)]
pub struct Parsed {
    pub head: [u8; HEAD_LENGTH],
    pub payloads: Payloads,
    pub log: Log<Bytes, ()>,
    pub end: u64,
}

/// The number that eight bytes spell.
fn number_at(bytes: &[u8]) -> u64
    requires { length bytes.now ≡ 8 }
    ensures { result ≡ from_be_bytes w64 bytes.now }
{
    u64::from_be_bytes([
        bytes[0], bytes[1], bytes[2], bytes[3], bytes[4], bytes[5], bytes[6], bytes[7],
    ])
}

/// The length of the payload behind an open gate, where the bytes behind that gate hold a whole entry and a gate.
fn payload_len(rest: &[u8]) -> Option<usize>
    ensures { MatchOption result (IsCut rest.now) (λ n. (n ≡ from_be_bytes w64 (take 8 rest.now)) × (9 + n ≤ length rest.now)) }
{
    if rest.len() < LENGTH_BYTES {
        return None;
    }
    let len = number_at(part(rest, 0, LENGTH_BYTES));
    if len >= (rest.len() - LENGTH_BYTES) as u64 {
        return None;
    }
    Some(len as usize)
}

/// The bytes from a place on.
fn behind(bytes: &[u8], at: usize) -> &[u8]
    requires { at ≤ length bytes.now }
    ensures { result.now ≡ drop at bytes.now }
{
    bytes.split_at(at).1
}

/// So many bytes from a place on.
fn part(bytes: &[u8], at: usize, len: usize) -> &[u8]
    requires { at + len ≤ length bytes.now }
    ensures { result.now ≡ take len (drop at bytes.now) }
{
    bytes.split_at(at).1.split_at(len).0
}

/// Whether the bytes begin with a head and a gate.
fn is_headed(bytes: &[u8]) -> bool
    ensures yes { result ≡ true → (41 ≤ length bytes.now) × (take 8 bytes.now ≡ magic) × (base_in bytes.now < 2 ^ 63) }
    ensures no_head { result ≡ false → IsForeign bytes.now }
{
    if bytes.len() <= HEAD_LENGTH {
        return false;
    }
    if part(bytes, 0, ID_AT) != SIGNATURE.as_slice() {
        return false;
    }
    number_at(part(bytes, BASE_AT, 8)) < BASE_END
}

/// The id in a head.
pub fn id_in(head: &[u8; HEAD_LENGTH]) -> [u8; 16]
    ensures { result ≡ take 16 (drop 8 head.now) }
{
    let mut id = [0; 16];
    id.copy_from_slice(part(head, ID_AT, 16));
    id
}

/// The base event number in a head.
pub fn base_of(head: &[u8; HEAD_LENGTH]) -> u64
    ensures { result ≡ base_in head.now }
{
    number_at(part(head, BASE_AT, 8))
}

/// The payload behind an open gate, and the place of the next gate; None where the gate isn't open.
fn entry_at(alloc: Global, bytes: &[u8], at: usize) -> Result<Option<(Bytes, usize)>, OpenFault>
    requires { at < length bytes.now }
    ensures { MatchResult result (λ o. MatchOption o (get_or bytes.now at 0 ≡ 1 → ⊥) (λ e. IsEntryAt bytes.now at e.0 e.1)) (CutAt bytes.now at) }
{
    if bytes[at] != GATE_OPEN {
        return Ok(None);
    }
    let rest = behind(bytes, at + 1);
    let Some(len) = payload_len(rest) else {
        return Err(OpenFault::Broken(at as u64));
    };
    let payload = Bytes::from_slice(alloc, part(rest, LENGTH_BYTES, len))?;
    Ok(Some((payload, at + (len + ENTRY_BYTES))))
}

/// Reads all of a journal's bytes.
pub fn parse(alloc: Global, bytes: &[u8]) -> Result<Parsed, OpenFault>
    ensures read { IfOk result (λ p. IsRead bytes.now p.head p.payloads p.log.items p.end) }
    ensures refused { IfErr result (λ fault. Refuses fault bytes.now) }
{
    if !is_headed(bytes) {
        return Err(OpenFault::Foreign);
    }
    let head = head_in(bytes);
    let mut payloads = Payloads::new(alloc);
    let mut log = Log::new();
    let mut at = HEAD_LENGTH;
    while let Some((payload, next)) = entry_at(alloc, bytes, at)? {
        log = log.and(&payload, &());
        payloads.push(Payload {
            at: at as u64,
            bytes: payload,
        })?;
        at = next;
    }
    Ok(Parsed {
        head,
        payloads,
        log,
        end: at as u64,
    })
}
