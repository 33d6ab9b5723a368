//! Logs that tests/vectors/log_vectors.py lays out with Python's `struct`, and the desks over them.
ghost use Rattle.std.specs.Prelude.{◌≡◌, ◌<◌, ◌≤◌, length, IfOk};
ghost use Rattle.desk.specs.Listings.{AreFit};

use cmp_ports::{MemDisk, Order, Short};
use deal_model::{Change, Credential, CredentialList, Kind};
use desk::{Desk, Lapsed, Listing, Ordered};
use hex::decode;
use std::alloc::{AllocError, Global};
use std::test::Fail;

/// The time of the first changes of these logs.
pub(crate) const NOW: u64 = 1_700_000_000;

/// What stands before the first record.
const FRONT: &str = "01434d504c4f4731";

/// Found.
pub(crate) const FOUNDED: &str =
    "01000000ae01000000006553f1000000001530133111300f06035504030c08466c656574204341000000010000000500000004808182838485868788898a8b8c8d8e8f101112131415161718191a1b1c1d1e1f202122232425262728292a2b2c2d2e2f000000010000000500000004a0a1a2a3a4a5a6a7a8a9aaabacadaeaf303132333435363738393a3b3c3d3e3f404142434445464748494a4b4c4d4e4f0000012c0000012c000003e80000003c0000016d";

/// Enlist of dev-1.
pub(crate) const LISTED: &str =
    "010000001c02000000006553f100000101056465762d31087365637265742d3101";

/// Grant, open until 1,700,000,300.
pub(crate) const GRANTED: &str =
    "010000011e0410000102030405060708090a0b0c0d0e0f0102030405060708090a0b0c0d0e0f101112131415161718191a1b1c1d1e1f2001056465762d3100000017a41530133111300f06035504030c086465766963652d310210505152535455565758595a5b5c5d5e5f8182838485868788898a8b8c8d8e8f909192939495969798999a9b9c9d9e9fa0000000006553f10000000000001530133111300f06035504030c086465766963652d3100000050304e300d060b2a864886f70d0109100311033d00000000010000000500000004404142434445464748494a4b4c4d4e4f505152535455565758595a5b5c5d5e5f606162636465666768696a6b6c6d6e6f00000010300e0603551d0f0101ff04040302078000000000000000000300000002";

/// Enlist of dev-2, whose requests are held.
pub(crate) const HOLDER: &str =
    "010000001c02000000006553f100000101056465762d32087365637265742d3211";

/// Hold of C.
pub(crate) const HELD: &str =
    "01000001030501430405060708090a0b0c0d0e0f101112131415161718191a1b1c1d1e1f2021222301056465762d3200000017a41530133111300f06035504030c086465766963652d310210505152535455565758595a5b5c5d5e5f8485868788898a8b8c8d8e8f909192939495969798999a9b9c9d9e9fa0a1a2a3000000006553f10500040000001530133111300f06035504030c086465766963652d3100000050304e300d060b2a864886f70d0109100311033d0000000001000000050000000442434445464748494a4b4c4d4e4f505152535455565758595a5b5c5d5e5f606162636465666768696a6b6c6d6e6f707100000010300e0603551d0f0101ff04040302078000";

fn add_record(alloc: Global, octets: &mut Vec<u8>, record: &str) -> Result<(), Fail> {
    let more: Vec<u8> = decode(alloc, record)?;
    octets.extend_from_slice(&more)?;
    Ok(())
}

/// A log of these records, without its closed gate.
pub(crate) fn open_log(alloc: Global, records: &[&str]) -> Result<Vec<u8>, Fail> {
    let mut octets: Vec<u8> = decode(alloc, FRONT)?;
    for record in records {
        add_record(alloc, &mut octets, record)?;
    }
    Ok(octets)
}

/// A disk with the log of these records, of which these calls fail.
fn disk_of(alloc: Global, records: &[&str], fails: &[u64]) -> Result<MemDisk, Fail> {
    let mut octets = open_log(alloc, records)?;
    octets.push(0)?;
    Ok(MemDisk::failing(octets, fails.to_vec(alloc)?))
}

pub(crate) fn mounted(alloc: Global, disk: MemDisk) -> Result<Desk<MemDisk>, Fail> {
    match Desk::mount(alloc, disk) {
        Ok(desk) => Ok(desk),
        Err(_) => Err("not mounted")?,
    }
}

/// The desk over a disk with the log of these records, of which these calls fail.
pub(crate) fn desk_of(
    alloc: Global,
    records: &[&str],
    fails: &[u64],
) -> Result<Desk<MemDisk>, Fail> {
    let disk = disk_of(alloc, records, fails)?;
    mounted(alloc, disk)
}

/// One reference of one letter, with the right to enrol.
fn reference(alloc: Global, letter: u8) -> Result<CredentialList, AllocError>
    requires { letter < 128 }
    ensures { IfOk result (λ list. AreFit list × (length list ≡ 1)) }
{
    let Some(kid) = Short::of(&[letter]) else {
        unreachable!()
    };
    let Some(material) = Short::of(b"01234567") else {
        unreachable!()
    };
    Ok(CredentialList::of(vec![in alloc;
        Credential {
            kind: Kind::Mac,
            kid,
            material,
            rights: 1,
        },
    ]?))
}

/// What the desk answers where a reference of this letter is to be listed. None where memory runs out.
pub(crate) fn enlisted(alloc: Global, desk: &mut Desk<MemDisk>, letter: u8) -> Option<Listing>
    requires { letter < 128 }
{
    let Ok(list) = reference(alloc, letter) else {
        return None;
    };
    Some(desk.enlist(&list, NOW))
}

/// What the desk answers where a credential is to be dismissed.
pub(crate) fn dismissed(desk: &mut Desk<MemDisk>, kind: Kind, kid: &Short) -> Listing {
    desk.dismiss(kind, kid, NOW)
}

/// What the desk answers to an order.
pub(crate) fn ordered(desk: &mut Desk<MemDisk>, order: &Order, now: u64) -> Ordered
    requires { now ≤ 250000000000 }
{
    desk.order(order, now)
}

/// What the desk answers where a certificate is to lapse.
pub(crate) fn lapsed(desk: &mut Desk<MemDisk>, now: u64) -> Lapsed
    requires { now ≤ 250000000000 }
{
    desk.lapse(now)
}

/// What stands behind Found.
#[derive(Clone, Copy, PartialEq, Eq)]
pub(crate) enum Behind {
    Nothing,
    /// The list of one reference of this letter.
    Letter(u8),
    /// Anything else.
    Other,
}

/// What stands behind the first change of the desk.
pub(crate) fn found_behind(desk: &Desk<MemDisk>) -> Behind {
    match desk.length() {
        1 => Behind::Nothing,
        2 => listed_in(desk.change_at(2)),
        _ => Behind::Other,
    }
}

fn listed_in(change: &Change) -> Behind {
    match change {
        Change::Enlist { list, .. } => letter_in(list.as_slice()),
        _ => Behind::Other,
    }
}

fn letter_in(list: &[Credential]) -> Behind {
    match list {
        [credential] => match credential.kid.as_slice() {
            [letter] => Behind::Letter(*letter),
            _ => Behind::Other,
        },
        _ => Behind::Other,
    }
}
