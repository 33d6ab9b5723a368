//! The parts of a change, read from the front of a slice. Each reader gives the part and the octets after it.
ghost use Rattle.std.specs.Prelude.{◌≡◌, ◌≤◌, List, length, Option, Some, None, IfOk};
ghost use Rattle.std.specs.Int.{w16, w32, w64};
ghost use Rattle.deal_changes.specs.Reading.{Gives, octet_at, octets_at, number_at, coded_at, short_at, tid_at, key_id_at, blob_at, spki_at, name_at, leaf_at, kind_of, body_of, outcome_of, flags_of, rights_of};

use crate::change::{Body4, Kind};
use crate::fault::ChangeFault;
use crate::spki::{is_ca_name, is_spki};
use cmp_values::{Octets, Short};
use std::alloc::Global;

/// What was read, or the fault on which the reader stops.
macro_rules! read {
    ($read:expr) => {
        match $read {
            Ok(read) => read,
            Err(fault) => return Err(fault),
        }
    };
}

pub(crate) use read;

pub(crate) fn octet_of(bytes: &[u8]) -> Result<(u8, &[u8]), ChangeFault>
    ensures { Gives (λ x. (x.0, x.1.now)) result (octet_at bytes.now) }
{
    match bytes {
        [] => Err(ChangeFault::BadChange),
        [octet, rest @ ..] => Ok((*octet, rest)),
    }
}

pub(crate) fn octets_of(n: usize, bytes: &[u8]) -> Result<(&[u8], &[u8]), ChangeFault>
    ensures { Gives (λ x. (x.0.now, x.1.now)) result (octets_at n bytes.now) }
{
    if bytes.len() < n {
        return Err(ChangeFault::BadChange);
    }
    Ok(bytes.split_at(n))
}

pub(crate) fn u16_of(bytes: &[u8]) -> Result<(u16, &[u8]), ChangeFault>
    ensures { Gives (λ x. (x.0, x.1.now)) result (number_at w16 bytes.now) }
{
    if bytes.len() < 2 {
        return Err(ChangeFault::BadChange);
    }
    let (front, rest) = bytes.split_at(2);
    let number = u16::from_be_bytes([front[0], front[1]]);
    Ok((number, rest))
}

pub(crate) fn u32_of(bytes: &[u8]) -> Result<(u32, &[u8]), ChangeFault>
    ensures { Gives (λ x. (x.0, x.1.now)) result (number_at w32 bytes.now) }
{
    if bytes.len() < 4 {
        return Err(ChangeFault::BadChange);
    }
    let (front, rest) = bytes.split_at(4);
    let number = u32::from_be_bytes([front[0], front[1], front[2], front[3]]);
    Ok((number, rest))
}

pub(crate) fn u64_of(bytes: &[u8]) -> Result<(u64, &[u8]), ChangeFault>
    ensures { Gives (λ x. (x.0, x.1.now)) result (number_at w64 bytes.now) }
{
    if bytes.len() < 8 {
        return Err(ChangeFault::BadChange);
    }
    let (front, rest) = bytes.split_at(8);
    let number = u64::from_be_bytes([
        front[0], front[1], front[2], front[3], front[4], front[5], front[6], front[7],
    ]);
    Ok((number, rest))
}

pub(crate) fn words_of(bytes: &[u8]) -> Result<([u8; 32], &[u8]), ChangeFault>
    ensures { Gives (λ x. (x.0, x.1.now)) result (octets_at 32 bytes.now) }
{
    if bytes.len() < 32 {
        return Err(ChangeFault::BadChange);
    }
    let (front, rest) = bytes.split_at(32);
    let mut words = [0u8; 32];
    words.copy_from_slice(front);
    Ok((words, rest))
}

pub(crate) fn key_of(bytes: &[u8]) -> Result<([u8; 60], &[u8]), ChangeFault>
    ensures { Gives (λ x. (x.0, x.1.now)) result (octets_at 60 bytes.now) }
{
    if bytes.len() < 60 {
        return Err(ChangeFault::BadChange);
    }
    let (front, rest) = bytes.split_at(60);
    let mut key = [0u8; 60];
    key.copy_from_slice(front);
    Ok((key, rest))
}

#[tactic(auto, unfolding(crate::specs::Reading::short_at))]
pub(crate) fn short_of(bytes: &[u8]) -> Result<(Short, &[u8]), ChangeFault>
    ensures { Gives (λ x. (x.0, x.1.now)) result (short_at bytes.now) }
{
    let (n, rest) = octet_of(bytes)?;
    if n > 64 {
        return Err(ChangeFault::BadChange);
    }
    let (octets, rest) = octets_of(n as usize, rest)?;
    match Short::of(octets) {
        Some(short) => Ok((short, rest)),
        None => Err(ChangeFault::BadChange),
    }
}

#[tactic(auto, unfolding(crate::specs::Reading::tid_at))]
pub(crate) fn tid_of(bytes: &[u8]) -> Result<(Short, &[u8]), ChangeFault>
    ensures { Gives (λ x. (x.0, x.1.now)) result (tid_at bytes.now) }
{
    let (tid, rest) = read!(short_of(bytes));
    if tid.is_empty() {
        return Err(ChangeFault::BadChange);
    }
    Ok((tid, rest))
}

#[tactic(auto, unfolding(crate::specs::Reading::key_id_at))]
pub(crate) fn key_id_of(bytes: &[u8]) -> Result<(Short, &[u8]), ChangeFault>
    ensures { Gives (λ x. (x.0, x.1.now)) result (key_id_at bytes.now) }
{
    let (id, rest) = read!(short_of(bytes));
    if id.len() == 20 {
        Ok((id, rest))
    } else {
        Err(ChangeFault::BadChange)
    }
}

#[tactic(auto, unfolding(crate::specs::Reading::blob_at))]
pub(crate) fn blob_of(alloc: Global, bytes: &[u8]) -> Result<(Octets, &[u8]), ChangeFault>
    ensures { Gives (λ x. (x.0, x.1.now)) result (blob_at bytes.now) }
{
    let (n, rest) = u32_of(bytes)?;
    let (octets, rest) = octets_of(n as usize, rest)?;
    let blob = Octets::copy_of(alloc, octets)?;
    Ok((blob, rest))
}

#[tactic(auto, unfolding(crate::specs::Reading::spki_at))]
pub(crate) fn spki_of(alloc: Global, bytes: &[u8]) -> Result<(Octets, &[u8]), ChangeFault>
    ensures { Gives (λ x. (x.0, x.1.now)) result (spki_at bytes.now) }
{
    let (spki, rest) = read!(blob_of(alloc, bytes));
    if is_spki(spki.as_slice()) {
        Ok((spki, rest))
    } else {
        Err(ChangeFault::BadChange)
    }
}

#[tactic(auto, unfolding(crate::specs::Reading::name_at))]
pub(crate) fn name_of(alloc: Global, bytes: &[u8]) -> Result<(Octets, &[u8]), ChangeFault>
    ensures { Gives (λ x. (x.0, x.1.now)) result (name_at bytes.now) }
{
    let (name, rest) = read!(blob_of(alloc, bytes));
    if is_ca_name(name.as_slice()) {
        Ok((name, rest))
    } else {
        Err(ChangeFault::BadChange)
    }
}

#[tactic(auto, unfolding(crate::specs::Reading::leaf_at))]
pub(crate) fn leaf_of(bytes: &[u8]) -> Result<(Option<u32>, &[u8]), ChangeFault>
    ensures { Gives (λ x. (x.0, x.1.now)) result (leaf_at bytes.now) }
{
    match bytes {
        [0, rest @ ..] => Ok((None, rest)),
        [1, rest @ ..] => {
            let (leaf, rest) = u32_of(rest)?;
            Ok((Some(leaf), rest))
        }
        _ => Err(ChangeFault::BadChange),
    }
}

pub(crate) fn kind_of(bytes: &[u8]) -> Result<(Kind, &[u8]), ChangeFault>
    ensures { Gives (λ x. (x.0, x.1.now)) result (coded_at kind_of bytes.now) }
{
    let (code, rest) = octet_of(bytes)?;
    match code {
        1 => Ok((Kind::Mac, rest)),
        2 => Ok((Kind::Lms, rest)),
        _ => Err(ChangeFault::BadChange),
    }
}

pub(crate) fn body_of(bytes: &[u8]) -> Result<(Body4, &[u8]), ChangeFault>
    ensures { Gives (λ x. (x.0, x.1.now)) result (coded_at body_of bytes.now) }
{
    let (code, rest) = octet_of(bytes)?;
    match code {
        0 => Ok((Body4::Ir, rest)),
        2 => Ok((Body4::Cr, rest)),
        4 => Ok((Body4::P10cr, rest)),
        7 => Ok((Body4::Kur, rest)),
        _ => Err(ChangeFault::BadChange),
    }
}

pub(crate) fn outcome_of(bytes: &[u8]) -> Result<(bool, &[u8]), ChangeFault>
    ensures { Gives (λ x. (x.0, x.1.now)) result (coded_at outcome_of bytes.now) }
{
    let (code, rest) = octet_of(bytes)?;
    match code {
        1 => Ok((true, rest)),
        2 => Ok((false, rest)),
        _ => Err(ChangeFault::BadChange),
    }
}

pub(crate) fn flags_of(bytes: &[u8]) -> Result<((bool, bool), &[u8]), ChangeFault>
    ensures { Gives (λ x. (x.0, x.1.now)) result (coded_at flags_of bytes.now) }
{
    let (code, rest) = octet_of(bytes)?;
    match code {
        0 => Ok(((false, false), rest)),
        1 => Ok(((true, false), rest)),
        2 => Ok(((false, true), rest)),
        3 => Ok(((true, true), rest)),
        _ => Err(ChangeFault::BadChange),
    }
}

pub(crate) fn rights_of(bytes: &[u8]) -> Result<(u8, &[u8]), ChangeFault>
    ensures { Gives (λ x. (x.0, x.1.now)) result (coded_at rights_of bytes.now) }
{
    let (rights, rest) = octet_of(bytes)?;
    if rights < 32 {
        Ok((rights, rest))
    } else {
        Err(ChangeFault::BadChange)
    }
}
