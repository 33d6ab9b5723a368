//! Octets of changes that tests/vectors/change_vectors.py laid out with Python's `struct`, one of each kind.

use crate::{Change, ChangeFault, read_change, write_change};
use hex::decode;
use std::alloc::Global;
use std::test::Fail;

/// A change of each kind.
const CHANGES: [&str; 12] = [
    // Found
    "01000000006553f1000000001530133111300f06035504030c08466c656574204341000000010000000500000004808182838485868788898a8b8c8d8e8f101112131415161718191a1b1c1d1e1f202122232425262728292a2b2c2d2e2f000000010000000500000004a0a1a2a3a4a5a6a7a8a9aaabacadaeaf303132333435363738393a3b3c3d3e3f404142434445464748494a4b4c4d4e4f0000012c0000012c000003e80000003c0000016d",
    // Enlist of dev-1 and a signing key with every right
    "02000000006553f100000201056465762d31087365637265742d31010214909192939495969798999a9b9c9d9e9fa0a1a2a33c404142434445464748494a4b4c4d4e4f505152535455565758595a5b5c5d5e5f606162636465666768696a6b6c6d6e6f707172737475767778797a7b1f",
    // Dismiss of a signing key
    "03000000006553f1000214909192939495969798999a9b9c9d9e9fa0a1a2a3",
    // Grant to a certificate, with a Reply leaf, implicit and changed
    "0410000102030405060708090a0b0c0d0e0fc0c1c2c3c4c5c6c7c8c9cacbcccdcecfd0d1d2d3d4d5d6d7d8d9dadbdcdddedf03000000000000000300000017a41530133111300f06035504030c086465766963652d310210505152535455565758595a5b5c5d5e5fe0e1e2e3e4e5e6e7e8e9eaebecedeeeff0f1f2f3f4f5f6f7f8f9fafbfcfdfeff000000006553f1000100000007070000001530133111300f06035504030c086465766963652d3100000050304e300d060b2a864886f70d0109100311033d00404142434445464748494a4b4c4d4e4f505152535455565758595a5b5c5d5e5f606162636465666768696a6b6c6d6e6f707172737475767778797a7b0000000003ffffffffffffffffffffffff",
    // Hold
    "0510000102030405060708090a0b0c0d0e0fc0c1c2c3c4c5c6c7c8c9cacbcccdcecfd0d1d2d3d4d5d6d7d8d9dadbdcdddedf0214909192939495969798999a9b9c9d9e9fa0a1a2a300000017a41530133111300f06035504030c086465766963652d310210505152535455565758595a5b5c5d5e5fe0e1e2e3e4e5e6e7e8e9eaebecedeeeff0f1f2f3f4f5f6f7f8f9fafbfcfdfeff000000006553f1000100000000040000001530133111300f06035504030c086465766963652d3100000050304e300d060b2a864886f70d0109100311033d00404142434445464748494a4b4c4d4e4f505152535455565758595a5b5c5d5e5f606162636465666768696a6b6c6d6e6f707172737475767778797a7b00000010300e0603551d0f0101ff04040302078001",
    // Release
    "06000000006553f1000141",
    // Deny
    "07000000006553f100400102030405060708090a0b0c0d0e0f101112131415161718191a1b1c1d1e1f202122232425262728292a2b2c2d2e2f303132333435363738393a3b3c3d3e3f40",
    // Turned
    "0810000102030405060708090a0b0c0d0e0fc0c1c2c3c4c5c6c7c8c9cacbcccdcecfd0d1d2d3d4d5d6d7d8d9dadbdcdddedf01056465762d3100000017a41530133111300f06035504030c086465766963652d310210505152535455565758595a5b5c5d5e5fe0e1e2e3e4e5e6e7e8e9eaebecedeeeff0f1f2f3f4f5f6f7f8f9fafbfcfdfeff000000006553f100010000001f",
    // Polled
    "090100c0c1c2c3c4c5c6c7c8c9cacbcccdcecfd0d1d2d3d4d5d6d7d8d9dadbdcdddedf01056465762d3100000017a41530133111300f06035504030c086465766963652d310240000102030405060708090a0b0c0d0e0f101112131415161718191a1b1c1d1e1f202122232425262728292a2b2c2d2e2f303132333435363738393a3b3c3d3e3fe0e1e2e3e4e5e6e7e8e9eaebecedeeeff0f1f2f3f4f5f6f7f8f9fafbfcfdfeff0000003a3529440000",
    // Settled, rejected
    "0a10000102030405060708090a0b0c0d0e0fc0c1c2c3c4c5c6c7c8c9cacbcccdcecfd0d1d2d3d4d5d6d7d8d9dadbdcdddedf01056465762d3100000017a41530133111300f06035504030c086465766963652d310210505152535455565758595a5b5c5d5e5fe0e1e2e3e4e5e6e7e8e9eaebecedeeeff0f1f2f3f4f5f6f7f8f9fafbfcfdfeff000000006553f1000002",
    // Revoke
    "0b10000102030405060708090a0b0c0d0e0fc0c1c2c3c4c5c6c7c8c9cacbcccdcecfd0d1d2d3d4d5d6d7d8d9dadbdcdddedf01056465762d3100000004a40230000210505152535455565758595a5b5c5d5e5fe0e1e2e3e4e5e6e7e8e9eaebecedeeeff0f1f2f3f4f5f6f7f8f9fafbfcfdfeff000000006553f10000000000000000000304",
    // Lapse
    "0c000000006553f22c10000102030405060708090a0b0c0d0e0f",
];

/// Whether what these octets spell is written so again, and its copy too.
fn is_written_again(alloc: Global, text: &str) -> Result<bool, Fail> {
    let octets: Vec<u8> = decode(alloc, text)?;
    let change = read_change(alloc, &octets)?;
    let written = write_change(alloc, &change)?;
    let copy = Change::copy_of(alloc, &change)?;
    let is_copied = copy.time() == change.time()
        && copy.stamp().is_some() == change.stamp().is_some();
    Ok(is_copied && written.as_slice() == octets.as_slice())
}

#[test]
fn each_kind_is_read_and_written(rt: HostRuntime) -> Result<(), Fail> {
    for text in &CHANGES {
        assert!(rt; is_written_again(rt.alloc(), text)?, "{text}");
    }
    Ok(())
}

/// Whether these octets spell a change of this time and transaction.
fn says(alloc: Global, text: &str, time: u64, tid: &[u8]) -> Result<bool, Fail> {
    let octets: Vec<u8> = decode(alloc, text)?;
    let change = read_change(alloc, &octets)?;
    Ok(change.time() == time && is_of(&change, tid))
}

fn is_of(change: &Change, tid: &[u8]) -> bool {
    match change.tid() {
        Some(it) => it.as_slice() == tid,
        None => false,
    }
}

/// Whether these octets spell no change.
fn is_bad(alloc: Global, text: &str) -> Result<bool, Fail> {
    let octets: Vec<u8> = decode(alloc, text)?;
    Ok(matches!(read_change(alloc, &octets), Err(ChangeFault::BadChange)))
}

#[test]
fn a_release_says_its_time_and_transaction(rt: HostRuntime) -> Result<(), Fail> {
    assert!(rt; says(rt.alloc(), "06000000006553f1000141", 1_700_000_000, b"A")?);
    assert!(rt; is_bad(rt.alloc(), "06000000006553f10001")?);
    Ok(())
}
