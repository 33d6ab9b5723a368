//! `take` where a device fails and where the disk is stopped, and the same message again over what that leaves. The keys have w = 1,
//! which grow fast. What is written is held against its SHA-256: of the replies that tests/vectors/java/TakeVectors.java made with
//! Bouncy Castle, and of texts by Python's `hashlib`.

use crate::take::{
    IR, NOW, SYSTEM_FAILURE, check_digest, check_lines, key_file, listed, run, words_from,
};
use cmp_ports::{ListEntropy, MemDisk, MemSink, MemSource};
use cmpca_tool::Status;
use std::alloc::Global;
use std::process::Abort;
use std::test::Fail;

const SETTINGS: &str = "name = 'Fleet CA'
issue_tree = 5
reply_tree = 5
issue_ots = 1
reply_ots = 1
wait = 300
skew = 300
rounds = 1000
check_after = 60
days = 365
";

const FOUNDED: &str =
    "founded 808182838485868788898a8b8c8d8e8ffec72f7efdc3c3d97404b7d93af07cd4bac38186b699a8d5f3f2451a72fc42d4a0a1a2a3a4a5a6a7a8a9aaabacadaeafc2568fb6544aab7d31a64eef71092095d0b3222aad724170baa0a8d25e40f210\n";

/// The lines `disk fault` and `read fault`, and no octets.
const DISK_FAULT: &str = "afe0eb35925287daa0f856cb3a67d52c6bc35eaf11dffe92be03462e557f3781";

const READ_FAULT: &str = "665fdbfca09736f54518fd9f6981e7b746eacf4589c030f73a1880c00e2cbd0c";

const NOTHING: &str = "e3b0c44298fc1c149afbf4c8996fb92427ae41e4649b934ca495991b7852b855";

/// How the history stands where nothing is granted.
const LISTED: &str = "changes 2\nissue 2 of 32\nreply 0 of 32\n";

/// One of the two times that the ir is taken: when the device asks, or a second later, when other words are drawn.
#[derive(Clone, Copy)]
enum Taking {
    First,
    Later,
}

impl Taking {
    /// The time, and the first of the 32 words that are drawn, which count up.
    fn drawn(self) -> (u64, u8) {
        match self {
            Taking::First => (NOW, 0xb0),
            Taking::Later => (NOW.saturating_add(1), 0xc0),
        }
    }

    /// The ip where the certificate is granted then.
    fn reply(self) -> &'static str {
        match self {
            Taking::First => "a996a01359908a2ac24d025b148dca74809f83262213976c63f09028a85097a7",
            Taking::Later => "2a6d68fc4c939b2abd2da0d50544ead7bbfedf34095de73ea00edb28d153e841",
        }
    }

    /// How the history stands then.
    fn lines(self) -> &'static str {
        match self {
            Taking::First => {
                "changes 3\nissue 3 of 32\nreply 0 of 32\ncert 3 open 1700000300 000102030405060708090a0b0c0d0e0f\n"
            }
            Taking::Later => {
                "changes 3\nissue 3 of 32\nreply 0 of 32\ncert 3 open 1700000301 000102030405060708090a0b0c0d0e0f\n"
            }
        }
    }
}

/// The call of each device beside the disk that fails in a run, counted from 1, or 0.
#[derive(Clone, Copy)]
struct Failing {
    key: u64,
    input: u64,
    entropy: u64,
    output: u64,
}

const NONE: Failing = Failing {
    key: 0,
    input: 0,
    entropy: 0,
    output: 0,
};

/// Takes the ir while these calls fail.
fn check_take(
    rt: &impl Abort,
    alloc: Global,
    disk: &mut MemDisk,
    taking: Taking,
    failing: Failing,
    status: Status,
    written: &str,
) -> Result<(), Fail> {
    let (now, first) = taking.drawn();
    let key = MemSource::failing(key_file(alloc)?, vec![in alloc; failing.key]?);
    let input = MemSource::failing(hex::decode(alloc, IR)?, vec![in alloc; failing.input]?);
    let draws = vec![in alloc; words_from(first)]?;
    let entropy = ListEntropy::failing(draws, vec![in alloc; failing.entropy]?);
    let mut out = MemSink::failing(alloc, vec![in alloc; failing.output]?);
    let ended = run(alloc, "take", key, input, disk, now, entropy, &mut out)?;
    assert!(rt; ended == status);
    check_digest(rt, alloc, &out, written)
}

/// Takes the ir later, when nothing fails: its reply is that of the taking that granted, and the history has one certificate.
fn check_again(
    rt: &impl Abort,
    alloc: Global,
    disk: &mut MemDisk,
    granted: Taking,
) -> Result<(), Fail> {
    let later = Taking::Later;
    check_take(rt, alloc, disk, later, NONE, Status::Done, granted.reply())?;
    check_lines(rt, alloc, "show", "", disk, granted.lines())
}

/// Shows twice how the history stands on what a stop after so many calls leaves, by the choice of what the ranges in doubt hold:
/// what stood there (0), what was written (1), octets 0 (2) or octets 1 (3).
fn check_stop(
    rt: &impl Abort,
    alloc: Global,
    disk: &MemDisk,
    calls: u64,
    choice: u8,
    lines: &str,
) -> Result<MemDisk, Fail> {
    assert!(rt; calls <= disk.calls() && choice <= 3);
    let mut stopped = disk.after_stop(calls, choice)?;
    check_lines(rt, alloc, "show", "", &mut stopped, lines)?;
    check_lines(rt, alloc, "show", "", &mut stopped, lines)?;
    Ok(stopped)
}

/// The same for each choice.
fn check_stops(
    rt: &impl Abort,
    alloc: Global,
    disk: &MemDisk,
    calls: u64,
    lines: &str,
) -> Result<(), Fail> {
    for choice in 0..4u8 {
        let _stopped = check_stop(rt, alloc, disk, calls, choice, lines)?;
    }
    Ok(())
}

/// Takes the ir again over what a stop leaves.
fn check_stopped_take(
    rt: &impl Abort,
    alloc: Global,
    disk: &MemDisk,
    calls: u64,
    choice: u8,
    lines: &str,
    granted: Taking,
) -> Result<(), Fail> {
    let mut stopped = check_stop(rt, alloc, disk, calls, choice, lines)?;
    check_again(rt, alloc, &mut stopped, granted)
}

// A mount is three calls of the disk. Then the record is written and synced, and its gate is written and synced: each of the seven
// fails, in one take after the other. Where the last of them fails, the gate is written, and what it grants stands.
#[test]
fn a_failing_disk_leaves_one_certificate(rt: HostRuntime) -> Result<(), Fail> {
    let alloc = rt.alloc();
    let journal = listed(&rt, alloc, SETTINGS, FOUNDED)?;
    let fails = vec![in alloc; 1, 3, 6, 10, 15, 21, 28]?;
    let mut disk = MemDisk::failing(journal.octets().to_vec(alloc)?, fails);
    let first = Taking::First;
    let fault = Status::DiskFault;
    for written in [DISK_FAULT; 3] {
        check_take(&rt, alloc, &mut disk, first, NONE, fault, written)?;
    }
    for written in [SYSTEM_FAILURE; 4] {
        check_take(&rt, alloc, &mut disk, first, NONE, fault, written)?;
    }
    check_again(&rt, alloc, &mut disk, first)
}

// Where the output fails the certificate is granted, and its reply is kept.
#[test]
fn failing_streams_leave_one_certificate(rt: HostRuntime) -> Result<(), Fail> {
    let alloc = rt.alloc();
    let mut disk = listed(&rt, alloc, SETTINGS, FOUNDED)?;
    let fault = Status::ReadFault;
    for (failing, status, written) in [
        (Failing { key: 1, ..NONE }, fault, READ_FAULT),
        (Failing { key: 2, ..NONE }, fault, READ_FAULT),
        (Failing { input: 1, ..NONE }, fault, READ_FAULT),
        (Failing { input: 2, ..NONE }, fault, READ_FAULT),
        (Failing { entropy: 1, ..NONE }, fault, SYSTEM_FAILURE),
        (Failing { output: 1, ..NONE }, Status::WriteFault, NOTHING),
    ] {
        check_take(
            &rt,
            alloc,
            &mut disk,
            Taking::First,
            failing,
            status,
            written,
        )?;
    }
    check_again(&rt, alloc, &mut disk, Taking::First)
}

#[test]
fn a_stop_leaves_one_certificate(rt: HostRuntime) -> Result<(), Fail> {
    let alloc = rt.alloc();
    let journal = listed(&rt, alloc, SETTINGS, FOUNDED)?;
    let mut disk = MemDisk::new(journal.octets().to_vec(alloc)?);
    let first = Taking::First;
    check_take(
        &rt,
        alloc,
        &mut disk,
        first,
        NONE,
        Status::Done,
        first.reply(),
    )?;
    assert_eq!(rt; disk.calls(), 7);
    for calls in 0..6u64 {
        check_stops(&rt, alloc, &disk, calls, LISTED)?;
    }
    check_stops(&rt, alloc, &disk, 7, first.lines())?;
    // Octets 1 in the place of the record, and the gate written, but not synced.
    for (calls, choice, lines, granted) in [
        (4, 3, LISTED, Taking::Later),
        (6, 0, LISTED, Taking::Later),
        (6, 1, first.lines(), first),
        (6, 2, LISTED, Taking::Later),
        (6, 3, first.lines(), first),
    ] {
        check_stopped_take(&rt, alloc, &disk, calls, choice, lines, granted)?;
    }
    Ok(())
}
