//! `init` over disks that aren't founded and over one that is, and over settings and key files at fault. The identity and the journal
//! are those of tests/vectors/init_vectors.py, which is RFC 8554 over Python's `hashlib`, and `struct`.

use crate::runs::{run, words};
use cmp_ports::{ListClock, ListEntropy, MemDisk, MemSink, MemSource};
use cmpca_tool::{Status, run_tool};
use std::alloc::Global;
use std::process::Abort;
use std::test::Fail;

const SETTINGS: &str = "name = 'Fleet CA'
issue_tree = 5
reply_tree = 5
issue_ots = 1
reply_ots = 2
wait = 300
skew = 300
rounds = 1000
check_after = 60
days = 365
";

/// The seeds 00 to 1f and ff to e0, each with its identifier behind it, 80 to 8f and 7f to 70.
const KEY_FILE: &str =
    "000102030405060708090a0b0c0d0e0f101112131415161718191a1b1c1d1e1f808182838485868788898a8b8c8d8e8ffffefdfcfbfaf9f8f7f6f5f4f3f2f1f0efeeedecebeae9e8e7e6e5e4e3e2e1e07f7e7d7c7b7a79787776757473727170";

const FOUNDED: &str =
    "founded 808182838485868788898a8b8c8d8e8fe9575935c1757bd2d00100cf50af0a5c1579dbbf02a36a249ea580e486125e927f7e7d7c7b7a79787776757473727170844ec84b36e2fbbef94ee8d0ab87222b211273bda3c2d0690d10d686e80c7022\n";

/// What stands on the disk then.
const JOURNAL: &str =
    "01434d504c4f473101000000ae01000000006553f1000000001530133111300f06035504030c08466c656574204341000000010000000500000001808182838485868788898a8b8c8d8e8fe9575935c1757bd2d00100cf50af0a5c1579dbbf02a36a249ea580e486125e920000000100000005000000027f7e7d7c7b7a79787776757473727170844ec84b36e2fbbef94ee8d0ab87222b211273bda3c2d0690d10d686e80c70220000012c0000012c000003e80000003c0000016d00";

/// The first octets of the key file.
fn key_file(alloc: Global, size: usize) -> Result<MemSource, Fail> {
    let file: Vec<u8> = hex::decode(alloc, KEY_FILE)?;
    Ok(MemSource::new(Vec::from_slice(alloc, &file[..size.min(file.len())])?))
}

/// Runs `init` at 1,700,000,000 over settings, a key file and a disk.
fn check_init(
    rt: &impl Abort,
    alloc: Global,
    settings: &str,
    mut key: MemSource,
    disk: &mut MemDisk,
    status: Status,
    text: &str,
) -> Result<(), Fail> {
    let words = words(alloc, &["journal", "key", "init"])?;
    let mut input = MemSource::new(Vec::from_slice(alloc, settings.as_bytes())?);
    let mut clock = ListClock::new(vec![in alloc; 1_700_000_000]?);
    let mut entropy = ListEntropy::new(Vec::new(alloc));
    let mut out = MemSink::new(alloc);
    let ended = run_tool(
        alloc,
        &words,
        &mut key,
        &mut input,
        disk,
        &mut clock,
        &mut entropy,
        &mut out,
    );
    assert_eq!(rt; out.written(), text.as_bytes());
    assert!(rt; ended == status);
    Ok(())
}

/// Shows the history on a disk.
fn check_show(rt: &impl Abort, alloc: Global, disk: &mut MemDisk, text: &str) -> Result<(), Fail> {
    let mut input = MemSource::new(Vec::new(alloc));
    let mut out = MemSink::new(alloc);
    let ended = run(
        alloc,
        &["journal", "key", "show"],
        &mut input,
        disk,
        &mut out,
    )?;
    assert_eq!(rt; out.written(), text.as_bytes());
    assert!(rt; ended == Status::Done);
    Ok(())
}

#[test]
fn a_service_is_founded_once(rt: HostRuntime) -> Result<(), Fail> {
    let alloc = rt.alloc();
    let mut disk = MemDisk::new(Vec::new(alloc));
    let journal: Vec<u8> = hex::decode(alloc, JOURNAL)?;
    let key = key_file(alloc, 96)?;
    check_init(&rt, alloc, SETTINGS, key, &mut disk, Status::Done, FOUNDED)?;
    assert_eq!(rt; disk.octets(), journal.as_slice());
    let lines = "changes 1\nissue 2 of 32\nreply 0 of 32\n";
    check_show(&rt, alloc, &mut disk, lines)?;

    let key = key_file(alloc, 96)?;
    let already = "refused already founded\n";
    check_init(
        &rt,
        alloc,
        SETTINGS,
        key,
        &mut disk,
        Status::Refused,
        already,
    )?;
    assert_eq!(rt; disk.octets(), journal.as_slice());
    Ok(())
}

#[test]
fn faults_are_told_in_their_order(rt: HostRuntime) -> Result<(), Fail> {
    let alloc = rt.alloc();
    let mut disk = MemDisk::failing(Vec::new(alloc), vec![in alloc; 1]?);
    for (settings, size, status, text) in [
        ("name = ", 95, Status::Refused, "refused bad toml\n"),
        (
            "issue_tree = 5",
            95,
            Status::Refused,
            "refused bad setting name\n",
        ),
        (SETTINGS, 95, Status::BadKeyFile, "bad key file\n"),
        (SETTINGS, 96, Status::DiskFault, "disk fault\n"),
    ] {
        let key = key_file(alloc, size)?;
        check_init(&rt, alloc, settings, key, &mut disk, status, text)?;
    }
    Ok(())
}

#[test]
fn a_failing_key_file_is_a_read_fault(rt: HostRuntime) -> Result<(), Fail> {
    let alloc = rt.alloc();
    let mut disk = MemDisk::new(Vec::new(alloc));
    let key = MemSource::failing(Vec::new(alloc), vec![in alloc; 1]?);
    let text = "read fault\n";
    check_init(
        &rt,
        alloc,
        SETTINGS,
        key,
        &mut disk,
        Status::ReadFault,
        text,
    )
}
