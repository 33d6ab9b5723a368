//! The commands that change a history, over journals that tests/vectors/log_vectors.py laid out with Python's `struct`.

use crate::runs::run;
use cmp_ports::{MemDisk, MemSink, MemSource};
use cmpca_tool::Status;
use std::alloc::Global;
use std::process::Abort;
use std::test::Fail;

/// What stands before the first record, and the record of a founding.
const FOUNDED: &str =
    "01434d504c4f473101000000ae01000000006553f1000000001530133111300f06035504030c08466c656574204341000000010000000500000004808182838485868788898a8b8c8d8e8f101112131415161718191a1b1c1d1e1f202122232425262728292a2b2c2d2e2f000000010000000500000004a0a1a2a3a4a5a6a7a8a9aaabacadaeaf303132333435363738393a3b3c3d3e3f404142434445464748494a4b4c4d4e4f0000012c0000012c000003e80000003c0000016d";

/// The record that lists dev-1, at the time of the founding.
const LISTED: &str = "010000001c02000000006553f100000101056465762d31087365637265742d3101";

/// The record that lists dev-2, whose requests are held, and that of its request C.
const HELD: &str =
    "010000001c02000000006553f100000101056465762d32087365637265742d321101000001030501430405060708090a0b0c0d0e0f101112131415161718191a1b1c1d1e1f2021222301056465762d3200000017a41530133111300f06035504030c086465766963652d310210505152535455565758595a5b5c5d5e5f8485868788898a8b8c8d8e8f909192939495969798999a9b9c9d9e9fa0a1a2a3000000006553f10500040000001530133111300f06035504030c086465766963652d3100000050304e300d060b2a864886f70d0109100311033d0000000001000000050000000442434445464748494a4b4c4d4e4f505152535455565758595a5b5c5d5e5f606162636465666768696a6b6c6d6e6f707100000010300e0603551d0f0101ff04040302078000";

/// A device with the secret "secret-1".
const DEVICE: &str =
    "[[credential]]\nkind = 'mac'\nreference = 'dev-1'\nsecret = '7365637265742d31'\nrights = ['enrol']\n";

/// The octets of two parts of a log, and a closed gate.
fn log(alloc: Global, first: &str, second: &str) -> Result<Vec<u8>, Fail> {
    let mut octets: Vec<u8> = hex::decode(alloc, first)?;
    let more: Vec<u8> = hex::decode(alloc, second)?;
    octets.extend_from_slice(&more)?;
    octets.push(0)?;
    Ok(octets)
}

/// Runs the program on the words behind JOURNAL and KEY, over a disk and a file.
fn check_run(
    rt: &impl Abort,
    alloc: Global,
    asked: &[&str],
    file: &str,
    disk: &mut MemDisk,
    status: Status,
    text: &str,
) -> Result<(), Fail> {
    let mut texts = vec![in alloc; "journal", "key"]?;
    texts.extend_from_slice(asked)?;
    let mut input = MemSource::new(Vec::from_slice(alloc, file.as_bytes())?);
    let mut out = MemSink::new(alloc);
    let ended = run(alloc, &texts, &mut input, disk, &mut out)?;
    assert_eq!(rt; out.written(), text.as_bytes());
    assert!(rt; ended == status);
    Ok(())
}

#[test]
fn a_device_is_listed_once(rt: HostRuntime) -> Result<(), Fail> {
    let alloc = rt.alloc();
    let mut disk = MemDisk::new(log(alloc, FOUNDED, "")?);
    let asked = ["enlist"];
    let done = "enlisted 1\n";
    check_run(&rt, alloc, &asked, DEVICE, &mut disk, Status::Done, done)?;
    let listed = log(alloc, FOUNDED, LISTED)?;
    assert_eq!(rt; disk.octets(), listed.as_slice());

    let used = "refused reference in use\n";
    check_run(&rt, alloc, &asked, DEVICE, &mut disk, Status::Refused, used)?;
    assert_eq!(rt; disk.octets(), listed.as_slice());
    Ok(())
}

#[test]
fn a_file_at_fault_is_refused(rt: HostRuntime) -> Result<(), Fail> {
    let alloc = rt.alloc();
    let mut disk = MemDisk::new(log(alloc, FOUNDED, "")?);
    for (file, text) in [
        ("[[credential]", "refused bad toml\n"),
        ("", "refused bad count\n"),
        (
            "[[credential]]\nkind = 'rsa'\n",
            "refused bad credential 0 kind\n",
        ),
    ] {
        check_run(
            &rt,
            alloc,
            &["enlist"],
            file,
            &mut disk,
            Status::Refused,
            text,
        )?;
    }
    Ok(())
}

#[test]
fn a_device_is_dismissed_once(rt: HostRuntime) -> Result<(), Fail> {
    let alloc = rt.alloc();
    let mut disk = MemDisk::new(log(alloc, FOUNDED, LISTED)?);
    for (id, status, text) in [
        ("dev-2", Status::Refused, "refused unknown credential\n"),
        ("dev-1", Status::Done, "dismissed\n"),
        ("dev-1", Status::Refused, "refused already dismissed\n"),
    ] {
        check_run(
            &rt,
            alloc,
            &["dismiss", "mac", id],
            "",
            &mut disk,
            status,
            text,
        )?;
    }
    Ok(())
}

#[test]
fn a_held_request_is_released_once(rt: HostRuntime) -> Result<(), Fail> {
    let alloc = rt.alloc();
    let mut disk = MemDisk::new(log(alloc, FOUNDED, HELD)?);
    for (verb, tid, status, text) in [
        ("deny", "44", Status::Refused, "refused not held\n"),
        ("release", "43", Status::Done, "released\n"),
        ("deny", "43", Status::Refused, "refused not held\n"),
    ] {
        check_run(&rt, alloc, &[verb, tid], "", &mut disk, status, text)?;
    }
    let text = "changes 4\nissue 2 of 32\nreply 0 of 32\nreleased 43\n";
    check_run(&rt, alloc, &["show"], "", &mut disk, Status::Done, text)
}

#[test]
fn the_mount_fails_before_the_input(rt: HostRuntime) -> Result<(), Fail> {
    let alloc = rt.alloc();
    let mut disk = MemDisk::new(Vec::new(alloc));
    let text = "not founded\n";
    check_run(
        &rt,
        alloc,
        &["enlist"],
        "[",
        &mut disk,
        Status::NotFounded,
        text,
    )?;

    // The first write of the record fails: its change is in doubt.
    let mut disk = MemDisk::failing(log(alloc, FOUNDED, LISTED)?, vec![in alloc; 5]?);
    let text = "disk fault\n";
    let asked = ["dismiss", "mac", "dev-1"];
    check_run(&rt, alloc, &asked, "", &mut disk, Status::DiskFault, text)
}
