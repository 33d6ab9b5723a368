//! The program over objects in memory: one message that verifies and each refusal, the words, and failing streams.
//!
//! The messages are made from X.690, RFC 9810 and RFC 8018 by hand, and their MACs by Python's `hashlib` and `hmac`
//! (`hashlib.pbkdf2_hmac('sha256', b'secret-1', salt, 1)` as the key, and `hmac.new(key, part, 'sha256')`, where part is
//! the SEQUENCE of header and body).

use cmp_ports::{ListClock, ListEntropy, MemDisk, MemSink, MemSource};
use cmpca_tool::{Status, run_tool};
use std::alloc::Global;
use std::process::Abort;
use std::test::Fail;

/// A pkiconf under PBMAC1 with the salt 00 to 07 and one iteration.
const VERIFIED: &str =
    "307f3054020102a4023000a4023000a147304506092a864886f70d01050e3038302806092a864886f70d01050c301b04080001020304050607020101300c06082a864886f70d02090500300c06082a864886f70d02090500b3020500a023032100ff6a9dbf6e6138e94cfcaef5b41c0ce8dd9ad7680cd93ea723645c0f278bbcdb";

/// Its last bit changed.
const WRONG_MAC: &str =
    "307f3054020102a4023000a4023000a147304506092a864886f70d01050e3038302806092a864886f70d01050c301b04080001020304050607020101300c06082a864886f70d02090500300c06082a864886f70d02090500b3020500a023032100ff6a9dbf6e6138e94cfcaef5b41c0ce8dd9ad7680cd93ea723645c0f278bbcda";

/// The lengths of the header and of the message in two octets, where DER has one (X.690, 10.1).
const LOOSE_LENGTHS: &str =
    "308180308154020102a4023000a4023000a147304506092a864886f70d01050e3038302806092a864886f70d01050c301b04080001020304050607020101300c06082a864886f70d02090500300c06082a864886f70d02090500b3020500a023032100ff6a9dbf6e6138e94cfcaef5b41c0ce8dd9ad7680cd93ea723645c0f278bbcdb";

/// A salt of seven octets, no iterations and 200,001 of them.
const SHORT_SALT: &str =
    "307e3053020102a4023000a4023000a146304406092a864886f70d01050e3037302706092a864886f70d01050c301a040700010203040506020101300c06082a864886f70d02090500300c06082a864886f70d02090500b3020500a02303210003dd7fa446584faa0f1c6b8427afd4b231966ec9668a9c2b7995f0840fafa107";

const NO_ROUNDS: &str =
    "307f3054020102a4023000a4023000a147304506092a864886f70d01050e3038302806092a864886f70d01050c301b04080001020304050607020100300c06082a864886f70d02090500300c06082a864886f70d02090500b3020500a023032100cf15267a0cfab13091c4ea182e56de8e550546bf7f6dacf00cf9370b1a27d42b";

const MANY_ROUNDS: &str =
    "3081813056020102a4023000a4023000a149304706092a864886f70d01050e303a302a06092a864886f70d01050c301d040800010203040506070203030d41300c06082a864886f70d02090500300c06082a864886f70d02090500b3020500a0230321008636fbc44b7d2975abb014558b608bf8320a8aa5f9820c672a95e0ba41aabda9";

/// The first message with a messageTime behind the recipient, which its MAC is not over.
const TIME_PUT_IN: &str =
    "3081923067020102a4023000a4023000a011180f32303233313131343232313332305aa147304506092a864886f70d01050e3038302806092a864886f70d01050c301b04080001020304050607020101300c06082a864886f70d02090500300c06082a864886f70d02090500b3020500a023032100ff6a9dbf6e6138e94cfcaef5b41c0ce8dd9ad7680cd93ea723645c0f278bbcdb";

/// The same, with the MAC of its own protected part.
const TIMED: &str =
    "3081923067020102a4023000a4023000a011180f32303233313131343232313332305aa147304506092a864886f70d01050e3038302806092a864886f70d01050c301b04080001020304050607020101300c06082a864886f70d02090500300c06082a864886f70d02090500b3020500a023032100b68cdb4967eb3053176168d807b508156f46f462a8ad96737ea2541dc674b191";

/// No protection, and no protectionAlg.
const NO_PROTECTION: &str =
    "305a3054020102a4023000a4023000a147304506092a864886f70d01050e3038302806092a864886f70d01050c301b04080001020304050607020101300c06082a864886f70d02090500300c06082a864886f70d02090500b3020500";

const NO_ALGORITHM: &str =
    "3036300b020102a4023000a4023000b3020500a023032100ff6a9dbf6e6138e94cfcaef5b41c0ce8dd9ad7680cd93ea723645c0f278bbcdb";

/// The words of the command line.
pub fn words(alloc: Global, texts: &[&str]) -> Result<Vec<String>, Fail> {
    let mut words = Vec::new(alloc);
    for text in texts {
        words.push(String::from_str(alloc, text)?)?;
    }
    Ok(words)
}

/// Runs the program over an input and a disk, with nothing in the key file.
pub fn run(
    alloc: Global,
    texts: &[&str],
    input: &mut MemSource,
    disk: &mut MemDisk,
    out: &mut MemSink,
) -> Result<Status, Fail> {
    let words = words(alloc, texts)?;
    let mut key = MemSource::new(Vec::new(alloc));
    let mut clock = ListClock::new(Vec::new(alloc));
    let mut entropy = ListEntropy::new(Vec::new(alloc));
    Ok(run_tool(
        alloc,
        &words,
        &mut key,
        input,
        disk,
        &mut clock,
        &mut entropy,
        out,
    ))
}

/// Runs the program over a message in hex, with an empty disk.
fn check_run(
    rt: &impl Abort,
    alloc: Global,
    texts: &[&str],
    message: &str,
    status: Status,
    text: &str,
) -> Result<(), Fail> {
    let mut input = MemSource::new(hex::decode(alloc, message)?);
    let mut disk = MemDisk::new(Vec::new(alloc));
    let mut out = MemSink::new(alloc);
    let ended = run(alloc, texts, &mut input, &mut disk, &mut out)?;
    assert_eq!(rt; out.written(), text.as_bytes());
    assert_eq!(rt; ended, status);
    Ok(())
}

#[test]
fn each_message_has_its_verdict(rt: HostRuntime) -> Result<(), Fail> {
    for (message, status, text) in [
        ("", Status::Refused, "refused badDataFormat\n"),
        (VERIFIED, Status::Done, "protection verified\n"),
        (WRONG_MAC, Status::Refused, "refused badMessageCheck\n"),
        (LOOSE_LENGTHS, Status::Refused, "refused badDataFormat\n"),
        (SHORT_SALT, Status::Refused, "refused badAlg\n"),
        (NO_ROUNDS, Status::Refused, "refused badAlg\n"),
        (MANY_ROUNDS, Status::Refused, "refused badAlg\n"),
        (TIME_PUT_IN, Status::Refused, "refused badMessageCheck\n"),
        (TIMED, Status::Done, "protection verified\n"),
        (NO_PROTECTION, Status::Refused, "refused badMessageCheck\n"),
        (NO_ALGORITHM, Status::Refused, "refused badMessageCheck\n"),
    ] {
        check_run(
            &rt,
            rt.alloc(),
            &["verify", "7365637265742d31"],
            message,
            status,
            text,
        )?;
    }
    Ok(())
}

#[test]
fn words_of_no_form_are_usage(rt: HostRuntime) -> Result<(), Fail> {
    let usage = "usage: cmpca verify SECRET | JOURNAL KEY COMMAND\n";
    for texts in [
        ["frob", "7365637265742d31"],
        ["verify", "4a656665"],
        ["verify", "7365637265742d3"],
        ["verify", "7365637265742d3g"],
    ] {
        check_run(&rt, rt.alloc(), &texts, VERIFIED, Status::Usage, usage)?;
    }
    for texts in [["journal", "key", "found"], ["journal", "key", "Show"]] {
        check_run(&rt, rt.alloc(), &texts, VERIFIED, Status::Usage, usage)?;
    }
    for texts in [
        ["journal", "key", "release", "4"],
        ["journal", "key", "deny", ""],
        ["journal", "key", "dismiss", "mac"],
    ] {
        check_run(&rt, rt.alloc(), &texts, VERIFIED, Status::Usage, usage)?;
    }
    for texts in [
        ["journal", "key", "dismiss", "mac", ""],
        ["journal", "key", "dismiss", "lms", "00010203"],
    ] {
        check_run(&rt, rt.alloc(), &texts, VERIFIED, Status::Usage, usage)?;
    }
    Ok(())
}

#[test]
fn failing_streams_have_their_status(rt: HostRuntime) -> Result<(), Fail> {
    let alloc = rt.alloc();
    let asked = ["verify", "7365637265742D31"];
    let message = hex::decode(alloc, VERIFIED)?;
    let mut disk = MemDisk::new(Vec::new(alloc));
    let mut input = MemSource::failing(message.clone()?, vec![in alloc; 2]?);
    let mut out = MemSink::new(alloc);
    let ended = run(alloc, &asked, &mut input, &mut disk, &mut out)?;
    assert_eq!(rt; ended, Status::ReadFault);
    assert_eq!(rt; out.written(), b"read fault\n".as_slice());

    let mut input = MemSource::new(message);
    let mut out = MemSink::failing(alloc, vec![in alloc; 1]?);
    let ended = run(alloc, &asked, &mut input, &mut disk, &mut out)?;
    assert_eq!(rt; ended, Status::WriteFault);
    Ok(())
}
