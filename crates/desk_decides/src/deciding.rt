ghost use Rattle.std.specs.Prelude.{◌≤◌};

use crate::logs::{FOUNDED, GRANTED, LISTED, NOW, mounted};
use crate::messages::{FRESH_KEY, GRANTED_KEY, Told, confirmation, outcome_of, request};
use cmp_ports::{FailInfo, MemDisk, Short};
use deal_model::Kind;
use desk::{Desk, Listing};
use std::alloc::Global;
use std::test::Fail;

// What is decided of two irs in one transaction, by their digests. Both were checked before either is decided.
fn decided_both(
    alloc: Global,
    desk: &mut Desk<MemDisk>,
    first: u8,
    second: u8,
) -> Option<(Told, Told)> {
    let Some(first) = request(alloc, first, FRESH_KEY) else {
        return None;
    };
    let Some(second) = request(alloc, second, FRESH_KEY) else {
        return None;
    };
    let first = outcome_of(desk.decide(&first, NOW, &[7; 32]));
    let second = outcome_of(desk.decide(&second, NOW, &[8; 32]));
    Some((first, second))
}

// The same over a disk that fails at these calls, and how many changes stand then.
fn decided_over(
    alloc: Global,
    fails: &[u64],
    first: u8,
    second: u8,
) -> Result<(Option<(Told, Told)>, u64), Fail> {
    let mut desk = mounted(alloc, &[FOUNDED, LISTED], fails)?;
    let told = decided_both(alloc, &mut desk, first, second);
    Ok((told, desk.length()))
}

#[test]
fn one_request_is_granted_once(rt: HostRuntime) -> Result<(), Fail> {
    let (told, length) = decided_over(rt.alloc(), &[], 1, 1)?;
    assert!(rt; told == Some((Told::Done { place: 3 }, Told::Again { place: 3 })));
    assert!(rt; length == 3);
    Ok(())
}

// RFC 9810, 5.1.1: the transactionID names one transaction.
#[test]
fn two_requests_have_two_transactions(rt: HostRuntime) -> Result<(), Fail> {
    let (told, length) = decided_over(rt.alloc(), &[], 1, 2)?;
    let refused = Told::Refused {
        fail: FailInfo::TransactionIdInUse,
        guarded: true,
    };
    assert!(rt; told == Some((Told::Done { place: 3 }, refused)));
    assert!(rt; length == 3);
    Ok(())
}

// Mounting is the calls 1 to 3, and what decides the next 4.
#[test]
fn a_message_is_decided_after_each_fault(rt: HostRuntime) -> Result<(), Fail> {
    for call in 4u64..=7 {
        let (told, length) = decided_over(rt.alloc(), &[call], 1, 1)?;
        assert!(rt; told == Some((Told::DiskFault, Told::Done { place: 3 })));
        assert!(rt; length == 3);
    }
    Ok(())
}

// What is decided of an ir whose sender is dismissed after it was checked.
fn decided_after_dismissal(
    alloc: Global,
    desk: &mut Desk<MemDisk>,
    kid: &Short,
) -> Option<(Listing, Told)> {
    let Some(checked) = request(alloc, 1, FRESH_KEY) else {
        return None;
    };
    let dismissed = desk.dismiss(Kind::Mac, kid, NOW);
    let told = outcome_of(desk.decide(&checked, NOW, &[7; 32]));
    Some((dismissed, told))
}

// Nothing protects a refusal to one who is dismissed.
#[test]
fn one_who_was_dismissed_meanwhile_is_refused(rt: HostRuntime) -> Result<(), Fail> {
    let alloc = rt.alloc();
    let kid = Short::of(b"dev-1").ok_or("too long")?;
    let mut desk = mounted(alloc, &[FOUNDED, LISTED], &[])?;
    let told = decided_after_dismissal(alloc, &mut desk, &kid);
    let refused = Told::Refused {
        fail: FailInfo::NotAuthorized,
        guarded: false,
    };
    assert!(rt; told == Some((Listing::Done { place: 3 }, refused)));
    assert!(rt; desk.length() == 3);
    Ok(())
}

// What is decided of an ir for this key behind a Grant.
fn decided_behind_a_grant(alloc: Global, key: &str) -> Result<Option<Told>, Fail> {
    let mut desk = mounted(alloc, &[FOUNDED, LISTED, GRANTED], &[])?;
    let Some(checked) = request(alloc, 1, key) else {
        return Ok(None);
    };
    Ok(Some(outcome_of(desk.decide(&checked, NOW, &[7; 32]))))
}

#[test]
fn a_key_is_certified_once(rt: HostRuntime) -> Result<(), Fail> {
    let taken = decided_behind_a_grant(rt.alloc(), GRANTED_KEY)?;
    let fresh = decided_behind_a_grant(rt.alloc(), FRESH_KEY)?;
    let refused = Told::Refused {
        fail: FailInfo::DuplicateCertReq,
        guarded: true,
    };
    assert!(rt; taken == Some(refused));
    assert!(rt; fresh == Some(Told::Done { place: 4 }));
    Ok(())
}

// What is decided at a time of a certConf of the Grant.
fn confirmed_at(alloc: Global, hash_ok: Option<bool>, now: u64) -> Result<Told, Fail>
    requires { now ≤ 250000000000 }
{
    let mut desk = mounted(alloc, &[FOUNDED, LISTED, GRANTED], &[])?;
    Ok(outcome_of(desk.decide(&confirmation(hash_ok), now, &[7; 32])))
}

// The Grant stands at place 3.
#[test]
fn a_hash_that_nobody_compared_is_asked_for(rt: HostRuntime) -> Result<(), Fail> {
    let told = confirmed_at(rt.alloc(), None, NOW)?;
    assert!(rt; told == Told::Stale { place: 3 });
    Ok(())
}

// The Grant is open until 1,700,000,300.
#[test]
fn a_certificate_is_confirmed_before_its_deadline(rt: HostRuntime) -> Result<(), Fail> {
    let late = Told::Refused {
        fail: FailInfo::CertRevoked,
        guarded: true,
    };
    let table: [(u64, Told); 3] = [
        (1_700_000_299, Told::Done { place: 4 }),
        (1_700_000_300, late),
        (1_700_000_301, late),
    ];
    for (now, want) in table {
        assert!(rt;
            confirmed_at(rt.alloc(), Some(true), now)? == want,
            "at {now}"
        );
    }
    Ok(())
}
