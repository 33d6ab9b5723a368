//! Logs that tests/vectors/log_vectors.py lays out with Python's `struct`, and the desks over them.

use cmp_ports::MemDisk;
use desk::Desk;
use hex::decode;
use std::alloc::Global;
use std::test::Fail;

/// The time of the first changes of these logs.
pub(crate) const NOW: u64 = 1_700_000_000;

/// What stands before the first record.
const FRONT: &str = "01434d504c4f4731";

/// Found.
pub(crate) const FOUNDED: &str =
    "01000000ae01000000006553f1000000001530133111300f06035504030c08466c656574204341000000010000000500000004808182838485868788898a8b8c8d8e8f101112131415161718191a1b1c1d1e1f202122232425262728292a2b2c2d2e2f000000010000000500000004a0a1a2a3a4a5a6a7a8a9aaabacadaeaf303132333435363738393a3b3c3d3e3f404142434445464748494a4b4c4d4e4f0000012c0000012c000003e80000003c0000016d";

/// Enlist of dev-1.
pub(crate) const LISTED: &str =
    "010000001c02000000006553f100000101056465762d31087365637265742d3101";

/// Grant to dev-1 over the key that begins with 40, open until 1,700,000,300.
pub(crate) const GRANTED: &str =
    "010000011e0410000102030405060708090a0b0c0d0e0f0102030405060708090a0b0c0d0e0f101112131415161718191a1b1c1d1e1f2001056465762d3100000017a41530133111300f06035504030c086465766963652d310210505152535455565758595a5b5c5d5e5f8182838485868788898a8b8c8d8e8f909192939495969798999a9b9c9d9e9fa0000000006553f10000000000001530133111300f06035504030c086465766963652d3100000050304e300d060b2a864886f70d0109100311033d00000000010000000500000004404142434445464748494a4b4c4d4e4f505152535455565758595a5b5c5d5e5f606162636465666768696a6b6c6d6e6f00000010300e0603551d0f0101ff04040302078000000000000000000300000002";

// The log of these records, closed.
fn log_of(alloc: Global, records: &[&str]) -> Result<Vec<u8>, Fail> {
    let mut octets: Vec<u8> = decode(alloc, FRONT)?;
    for record in records {
        let more: Vec<u8> = decode(alloc, *record)?;
        octets.extend_from_slice(&more)?;
    }
    octets.push(0)?;
    Ok(octets)
}

// A disk with the log of these records.
fn disk_of(alloc: Global, records: &[&str], fails: &[u64]) -> Result<MemDisk, Fail> {
    let octets = log_of(alloc, records)?;
    Ok(MemDisk::failing(octets, fails.to_vec(alloc)?))
}

/// The desk over the log of these records, whose disk fails at the calls with these numbers, from 1 on. Mounting is the first 3.
pub(crate) fn mounted(
    alloc: Global,
    records: &[&str],
    fails: &[u64],
) -> Result<Desk<MemDisk>, Fail> {
    let disk = disk_of(alloc, records, fails)?;
    match Desk::mount(alloc, disk) {
        Ok(desk) => Ok(desk),
        Err(_) => Err("not mounted")?,
    }
}
