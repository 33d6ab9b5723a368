use crate::logs::{
    FOUNDED, GRANTED, HELD, HOLDER, LISTED, desk_of, dismissed, enlisted, lapsed, mounted,
    open_log, ordered,
};
use cmp_ports::{MemDisk, Order, Short};
use deal_model::Kind;
use desk::{Desk, Lapsed, Listing, MountFault, Ordered};
use std::alloc::Global;
use std::test::Fail;

/// Why a disk of these records and these octets behind them isn't mounted.
fn refusal(alloc: Global, records: &[&str], behind: &[u8]) -> Result<Option<MountFault>, Fail> {
    let mut octets = open_log(alloc, records)?;
    octets.extend_from_slice(behind)?;
    match Desk::mount(alloc, MemDisk::new(octets)) {
        Ok(_) => Ok(None),
        Err((_, fault)) => Ok(Some(fault)),
    }
}

// Records, octets behind them, and why a disk of these isn't mounted. The offsets stand in tests/vectors/log_vectors.py.
const DAMAGED: [(&[&str], &[u8], MountFault); 5] = [
    // Eight octets.
    (&[], &[], MountFault::NotFounded),
    // No change.
    (&[], &[0], MountFault::Damaged { at: 8 }),
    // A service is founded once only.
    (&[FOUNDED, FOUNDED], &[0], MountFault::Damaged { at: 187 }),
    // No gate stands behind the last record.
    (&[FOUNDED, LISTED], &[], MountFault::Damaged { at: 187 }),
    // A gate is open whose record isn't whole.
    (
        &[FOUNDED, LISTED],
        &[1, 255, 255, 255, 255],
        MountFault::Damaged { at: 220 },
    ),
];

#[test]
fn a_damaged_log_is_refused_where_the_damage_is(rt: HostRuntime) -> Result<(), Fail> {
    for (records, behind, want) in &DAMAGED {
        assert!(rt;
            refusal(rt.alloc(), records, behind)? == Some(*want),
            "want {want:?}"
        );
    }
    Ok(())
}

// The certificate waits until 1,700,000,300.
fn lapses_once(desk: &mut Desk<MemDisk>, tid: Short) -> bool {
    lapsed(desk, 1_700_000_299) == Lapsed::Nothing
        && lapsed(desk, 1_700_000_300) == Lapsed::Done { place: 4, tid }
        && lapsed(desk, 1_700_000_300) == Lapsed::Nothing
}

// How many changes stand after a mounted certificate lapsed once, where it did.
fn length_after_lapse(alloc: Global, tid: Short) -> Result<Option<u64>, Fail> {
    let mut desk = desk_of(alloc, &[FOUNDED, LISTED, GRANTED], &[])?;
    if !lapses_once(&mut desk, tid) {
        return Ok(None);
    }
    let desk = mounted(alloc, desk.into_disk())?;
    Ok(Some(desk.length()))
}

#[test]
fn a_mounted_certificate_lapses_once(rt: HostRuntime) -> Result<(), Fail> {
    let tid = Short::of(b"\x00\x01\x02\x03\x04\x05\x06\x07\x08\x09\x0a\x0b\x0c\x0d\x0e\x0f").ok_or(
        "too long",
    )?;
    assert!(rt; length_after_lapse(rt.alloc(), tid)? == Some(4));
    Ok(())
}

fn is_released_once(desk: &mut Desk<MemDisk>, tid: Short) -> bool {
    ordered(desk, &Order::Release(tid), 1_700_000_007) == Ordered::Done { place: 4 }
        && ordered(desk, &Order::Deny(tid), 1_700_000_008) == Ordered::NotHeld
}

#[test]
fn a_mounted_request_is_released_once(rt: HostRuntime) -> Result<(), Fail> {
    let tid = Short::of(b"C").ok_or("too long")?;
    let mut desk = desk_of(rt.alloc(), &[FOUNDED, HOLDER, HELD], &[])?;
    assert!(rt; is_released_once(&mut desk, tid));
    Ok(())
}

fn is_listed_once(alloc: Global, desk: &mut Desk<MemDisk>, kid: &Short) -> bool {
    dismissed(desk, Kind::Mac, kid) == Listing::Unknown
        && enlisted(alloc, desk, b'a') == Some(Listing::Done { place: 2 })
        && enlisted(alloc, desk, b'a') == Some(Listing::InUse { index: 0 })
}

fn is_dismissed_once(alloc: Global, desk: &mut Desk<MemDisk>, kid: &Short) -> bool {
    dismissed(desk, Kind::Lms, kid) == Listing::Unknown
        && dismissed(desk, Kind::Mac, kid) == Listing::Done { place: 3 }
        && dismissed(desk, Kind::Mac, kid) == Listing::Already
        && enlisted(alloc, desk, b'a') == Some(Listing::InUse { index: 0 })
}

#[test]
fn a_credential_is_listed_and_dismissed_once(rt: HostRuntime) -> Result<(), Fail> {
    let kid = Short::of(b"a").ok_or("too long")?;
    let mut desk = desk_of(rt.alloc(), &[FOUNDED], &[])?;
    assert!(rt; is_listed_once(rt.alloc(), &mut desk, &kid));
    assert!(rt; is_dismissed_once(rt.alloc(), &mut desk, &kid));
    Ok(())
}
