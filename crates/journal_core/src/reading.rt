//! Reads a log from the octets of a disk.
ghost use Rattle.std.specs.Prelude.{◌≡◌, ◌+◌, ◌<◌, ◌≤◌, ◌^◌, ◌↔◌, true, [], ◌∷◌, ◌++◌, length, take, drop, IsTrue, IfOk, OnOk, IsErrOf, MatchOption};
ghost use Rattle.journal_core.specs.Log.{framed, log_of, is_founded, IsWhole};
ghost use Rattle.journal_core.specs.Mounted.{Reads};

use crate::fault::MountFault;
use cmp_ports::Octets;
use std::alloc::{AllocError, Global};

// The payload that a record begins with, and what stands behind it, where a gate does.
#[tactic(auto, unfolding(crate::specs::Log::framed))]
fn split_record(body: &[u8]) -> Option<(&[u8], &[u8])>
    ensures { MatchOption result (IsWhole body.now → ⊥) (λ r. (body.now ≡ framed r.0.now ++ r.1.now) × (0 < length r.1.now) × (length r.0.now < 2 ^ 32)) }
{
    match body {
        [a, b, c, d, rest @ ..] => {
            let size = u32::from_be_bytes([*a, *b, *c, *d]) as usize;
            if size < rest.len() {
                Some(rest.split_at(size))
            } else {
                None
            }
        }
        _ => None,
    }
}

// Adds a copy of a payload.
fn keep(alloc: Global, payloads: &mut Vec<Octets>, payload: &[u8]) -> Result<(), AllocError>
    ensures { OnOk result (payloads.new.items ≡ payloads.old.items ++ payload.now ∷ []) }
{
    Ok(payloads.push(Octets::copy_of(alloc, payload)?)?)
}

// Whether the disk is founded.
pub(crate) fn has_log(image: &[u8]) -> bool
    ensures { result ≡ is_founded image.now }
{
    match image {
        [gate, ..] => image.len() >= 9 && *gate == 1,
        [] => false,
    }
}

// Whether the seven octets behind the first are these.
fn has_magic(image: &[u8], magic: &[u8; 7]) -> bool
    requires { 9 ≤ length image.now }
    ensures { IsTrue result ↔ (take 7 (drop 1 image.now) ≡ magic.now) }
{
    image.split_at(1).1.split_at(7).0 == magic.as_slice()
}

/// Where the log of an image ends, and its payloads. Never `DiskFault`.
pub(crate) fn read_log(
    alloc: Global,
    image: &[u8],
    magic: &[u8; 7],
) -> Result<(u64, Vec<Octets>), MountFault>
    ensures reads { Reads (λ r. r.1.items) magic.now image.now result }
    ensures end { IfOk result (λ r. r.0 ≡ length (log_of magic.now r.1.items)) }
    ensures fault { IsErrOf result MountFault.DiskFault → ⊥ }
{
    if !has_log(image) {
        return Err(MountFault::NotFounded);
    }
    if !has_magic(image, magic) {
        return Err(MountFault::Damaged { at: 1 });
    }
    read_records(alloc, image, magic)
}

// The same, where the image begins with an octet 1 and the magic.
fn read_records(
    alloc: Global,
    image: &[u8],
    magic: &[u8; 7],
) -> Result<(u64, Vec<Octets>), MountFault>
    requires founded { is_founded image.now ≡ true }
    requires magic { take 7 (drop 1 image.now) ≡ magic.now }
    ensures reads { Reads (λ r. r.1.items) magic.now image.now result }
    ensures end { IfOk result (λ r. r.0 ≡ length (log_of magic.now r.1.items)) }
    ensures fault { IsErrOf result MountFault.DiskFault → ⊥ }
{
    let mut payloads = Vec::new(alloc);
    let mut at = 8u64;
    let mut rest = image.split_at(8).1;
    'records: while rest[0] == 1 {
        let (payload, next) = match split_record(rest.split_at(1).1) {
            Some(parts) => parts,
            None => return Err(MountFault::Damaged { at }),
        };
        match keep(alloc, &mut payloads, payload) {
            Ok(()) => {}
            Err(_) => return Err(MountFault::NoMemory),
        }
        at += 5 + payload.len() as u64;
        rest = next;
    }
    Ok((at, payloads))
}
