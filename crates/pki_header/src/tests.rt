//! Headers by Bouncy Castle 1.72 (tests/vectors/java/HeaderVectors.java), read and written again.
ghost use Rattle.std.specs.Prelude.{◌≡◌, ◌≤◌, ◌↔◌, IsTrue, IfSome};
ghost use Rattle.pki_header.specs.Plan.{field_size};

use crate::{Header, HeaderPlan, read_header, write_header};
use cmp_values::Octets;
use der_base::whole;
use std::alloc::{AllocError, Global};
use std::process::Abort;
use std::test::Fail;

/// From CN = device-1 to CN = Fleet CA, with no more fields.
const FEWEST: &[u8] =
    b"\x30\x31\x02\x01\x02\xa4\x15\x30\x13\x31\x11\x30\x0f\x06\x03\x55\x04\x03\x0c\x08\x64\x65\x76\x69\x63\x65\x2d\x31\xa4\x15\x30\x13\x31\x11\x30\x0f\x06\x03\x55\x04\x03\x0c\x08\x46\x6c\x65\x65\x74\x20\x43\x41";

/// Every field.
const EVERY: &[u8] =
    b"\x30\x81\xdc\x02\x01\x03\xa4\x15\x30\x13\x31\x11\x30\x0f\x06\x03\x55\x04\x03\x0c\x08\x64\x65\x76\x69\x63\x65\x2d\x31\xa4\x15\x30\x13\x31\x11\x30\x0f\x06\x03\x55\x04\x03\x0c\x08\x46\x6c\x65\x65\x74\x20\x43\x41\xa0\x11\x18\x0f\x32\x30\x32\x33\x31\x31\x31\x34\x32\x32\x31\x33\x32\x30\x5a\xa1\x0f\x30\x0d\x06\x0b\x2a\x86\x48\x86\xf7\x0d\x01\x09\x10\x03\x11\xa2\x0a\x04\x08\x10\x11\x12\x13\x14\x15\x16\x17\xa3\x0a\x04\x08\x20\x21\x22\x23\x24\x25\x26\x27\xa4\x12\x04\x10\x30\x31\x32\x33\x34\x35\x36\x37\x38\x39\x3a\x3b\x3c\x3d\x3e\x3f\xa5\x12\x04\x10\x40\x41\x42\x43\x44\x45\x46\x47\x48\x49\x4a\x4b\x4c\x4d\x4e\x4f\xa6\x12\x04\x10\x50\x51\x52\x53\x54\x55\x56\x57\x58\x59\x5a\x5b\x5c\x5d\x5e\x5f\xa7\x13\x30\x11\x0c\x06\x64\x65\x6e\x69\x65\x64\x0c\x07\x47\xc3\xa9\x72\xc3\xa4\x74\xa8\x1c\x30\x1a\x30\x0c\x06\x08\x2b\x06\x01\x05\x05\x07\x04\x0d\x05\x00\x30\x0a\x06\x08\x2b\x06\x01\x05\x05\x07\x04\x0f";

/// What is wrong, and the octets, by hand from RFC 9810, 5.1.1.
const NEIGHBOURS: &[(&str, &[u8])] = &[
    (
        "optional fields out of order",
        b"\x30\x15\x02\x01\x02\xa4\x02\x30\x00\xa4\x02\x30\x00\xa5\x03\x04\x01\x02\xa4\x03\x04\x01\x01",
    ),
    (
        "a field twice",
        b"\x30\x15\x02\x01\x02\xa4\x02\x30\x00\xa4\x02\x30\x00\xa4\x03\x04\x01\x01\xa4\x03\x04\x01\x01",
    ),
    (
        "a field of a tag 9",
        b"\x30\x15\x02\x01\x02\xa4\x02\x30\x00\xa4\x02\x30\x00\xa4\x03\x04\x01\x01\xa9\x03\x04\x01\x01",
    ),
    (
        "a UTCTime",
        b"\x30\x1c\x02\x01\x02\xa4\x02\x30\x00\xa4\x02\x30\x00\xa0\x0f\x17\x0d\x32\x33\x31\x31\x31\x34\x32\x32\x31\x33\x32\x30\x5a",
    ),
    (
        "a second 60",
        b"\x30\x1e\x02\x01\x02\xa4\x02\x30\x00\xa4\x02\x30\x00\xa0\x11\x18\x0f\x32\x30\x32\x33\x31\x31\x31\x34\x32\x32\x31\x33\x36\x30\x5a",
    ),
    (
        "a transaction of two elements",
        b"\x30\x13\x02\x01\x02\xa4\x02\x30\x00\xa4\x02\x30\x00\xa4\x06\x04\x01\x01\x04\x01\x01",
    ),
    (
        "no text in freeText",
        b"\x30\x0f\x02\x01\x02\xa4\x02\x30\x00\xa4\x02\x30\x00\xa7\x02\x30\x00",
    ),
    (
        "freeText that is not UTF-8",
        b"\x30\x12\x02\x01\x02\xa4\x02\x30\x00\xa4\x02\x30\x00\xa7\x05\x30\x03\x0c\x01\xff",
    ),
    (
        "no information in generalInfo",
        b"\x30\x0f\x02\x01\x02\xa4\x02\x30\x00\xa4\x02\x30\x00\xa8\x02\x30\x00",
    ),
    (
        "information without an identifier",
        b"\x30\x13\x02\x01\x02\xa4\x02\x30\x00\xa4\x02\x30\x00\xa8\x06\x30\x04\x30\x02\x05\x00",
    ),
    (
        "a pvno with a zero octet in front",
        b"\x30\x0c\x02\x02\x00\x02\xa4\x02\x30\x00\xa4\x02\x30\x00",
    ),
    (
        "a sender that is no general name",
        b"\x30\x09\x02\x01\x02\x30\x00\xa4\x02\x30\x00",
    ),
    (
        "a SET",
        b"\x31\x0b\x02\x01\x02\xa4\x02\x30\x00\xa4\x02\x30\x00",
    ),
];

/// The general names of both.
const DEVICE: &[u8] =
    b"\xa4\x15\x30\x13\x31\x11\x30\x0f\x06\x03\x55\x04\x03\x0c\x08\x64\x65\x76\x69\x63\x65\x2d\x31";

const AUTHORITY: &[u8] =
    b"\xa4\x15\x30\x13\x31\x11\x30\x0f\x06\x03\x55\x04\x03\x0c\x08\x46\x6c\x65\x65\x74\x20\x43\x41";

/// HSS/LMS, as a whole AlgorithmIdentifier.
const HSS_LMS: &[u8] = b"\x30\x0d\x06\x0b\x2a\x86\x48\x86\xf7\x0d\x01\x09\x10\x03\x11";

/// The texts `denied` and a word with letters of two octets.
const TEXTS: &[u8] = b"\x0c\x06denied\x0c\x07G\xc3\xa9r\xc3\xa4t";

/// implicitConfirm with NULL, and origPKIMessage without a value.
const INFO: &[u8] =
    b"\x30\x0c\x06\x08\x2b\x06\x01\x05\x05\x07\x04\x0d\x05\x00\x30\x0a\x06\x08\x2b\x06\x01\x05\x05\x07\x04\x0f";

/// A row of octets from this one on.
fn check_run(rt: &impl Abort, field: Option<&[u8]>, first: u8, count: usize) -> Result<(), Fail> {
    let octets = field.ok_or("a field is absent")?;
    assert_eq!(rt; octets.len(), count);
    assert_eq!(rt; octets.first(), Some(&first));
    Ok(())
}

/// The fields of `EVERY` from the key identifiers on.
fn check_every(rt: &impl Abort, header: &Header) -> Result<(), Fail> {
    check_run(rt, header.sender_kid, 0x10, 8)?;
    check_run(rt, header.recip_kid, 0x20, 8)?;
    check_run(rt, header.tid, 0x30, 16)?;
    check_run(rt, header.sender_nonce, 0x40, 16)?;
    check_run(rt, header.recip_nonce, 0x50, 16)?;
    assert_eq!(rt; header.free_text, Some(TEXTS));
    assert_eq!(rt; header.info, Some(INFO));
    Ok(())
}

#[test]
fn reads_what_others_write(rt: HostRuntime) -> Result<(), Fail> {
    let fewest = read_header(&whole(FEWEST)?)?;
    assert_eq!(rt; fewest.pvno, b"\x02".as_slice());
    assert_eq!(rt; fewest.sender.whole, DEVICE);
    assert_eq!(rt; fewest.recipient.whole, AUTHORITY);
    assert_eq!(rt; fewest.time, None);
    assert_eq!(rt; fewest.info, None);
    let every = read_header(&whole(EVERY)?)?;
    assert_eq!(rt; every.pvno, b"\x03".as_slice());
    assert_eq!(rt; every.time, Some(1_700_000_000));
    assert_eq!(rt; every.alg.ok_or("no algorithm")?.oid, &HSS_LMS[4..]);
    check_every(&rt, &every)
}

/// Octets from this one on.
fn run(alloc: Global, first: u8, count: u8) -> Result<Option<Octets>, AllocError> {
    let mut octets = Octets::empty(alloc);
    for i in 0..count {
        octets.append(&[first.wrapping_add(i)])?;
    }
    Ok(Some(octets))
}

/// The plan of `EVERY`.
fn plan(alloc: Global) -> Result<HeaderPlan, AllocError> {
    Ok(HeaderPlan {
        pvno: 3,
        sender: Octets::copy_of(alloc, DEVICE)?,
        recipient: Octets::copy_of(alloc, AUTHORITY)?,
        time: Some(1_700_000_000),
        alg: Some(Octets::copy_of(alloc, HSS_LMS)?),
        sender_kid: run(alloc, 0x10, 8)?,
        recip_kid: run(alloc, 0x20, 8)?,
        tid: run(alloc, 0x30, 16)?,
        sender_nonce: run(alloc, 0x40, 16)?,
        recip_nonce: run(alloc, 0x50, 16)?,
        free_text: Some(Octets::copy_of(alloc, TEXTS)?),
        info: Some(Octets::copy_of(alloc, INFO)?),
    })
}

/// How many octets a field has.
fn size(field: &Option<Octets>) -> usize
    ensures { result ≡ field_size field.now }
{
    match field {
        None => 0,
        Some(octets) => octets.len(),
    }
}

/// Whether a time has a GeneralizedTime.
fn is_timely(time: Option<u64>) -> bool
    ensures { IsTrue result ↔ IfSome time (λ t. t ≤ 253_402_300_799) }
{
    match time {
        None => true,
        Some(t) => t <= 253_402_300_799,
    }
}

/// What is written of a short plan.
fn written(alloc: Global, plan: &HeaderPlan) -> Result<Octets, Fail> {
    if plan.sender.len() > 99 || plan.recipient.len() > 99 || size(&plan.alg) > 99 {
        return Err(Fail::new("long names"));
    }
    if size(&plan.sender_kid) > 99 || size(&plan.recip_kid) > 99 || size(&plan.tid) > 99 {
        return Err(Fail::new("long identifiers"));
    }
    if size(&plan.sender_nonce) > 99 || size(&plan.recip_nonce) > 99 {
        return Err(Fail::new("long nonces"));
    }
    if size(&plan.free_text) > 99 || size(&plan.info) > 99 || !is_timely(plan.time) {
        return Err(Fail::new("long texts"));
    }
    Ok(write_header(alloc, plan)?)
}

#[test]
fn writes_what_others_write(rt: HostRuntime) -> Result<(), Fail> {
    let alloc = rt.alloc();
    let mut plan = plan(alloc)?;
    let every = written(alloc, &plan)?;
    assert_eq!(rt; every.as_slice(), EVERY);
    plan = HeaderPlan {
        pvno: 2,
        sender: plan.sender,
        recipient: plan.recipient,
        time: None,
        alg: None,
        sender_kid: None,
        recip_kid: None,
        tid: None,
        sender_nonce: None,
        recip_nonce: None,
        free_text: None,
        info: None,
    };
    let fewest = written(alloc, &plan)?;
    assert_eq!(rt; fewest.as_slice(), FEWEST);
    Ok(())
}

/// Whether octets are an element that is no header.
fn is_refused(octets: &[u8]) -> bool {
    match whole(octets) {
        Ok(e) => read_header(&e).is_err(),
        Err(_) => false,
    }
}

#[test]
fn refuses_the_neighbours(rt: HostRuntime) {
    for (what, octets) in NEIGHBOURS {
        assert!(rt; is_refused(octets), "{what}");
    }
}
