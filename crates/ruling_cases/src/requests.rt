//! Messages that begin a transaction: requests for certificates, plain and nested.

use crate::changes::NOW;
use crate::messages::{Sent, asked, checked, plain, short};
use crate::told::{Told, grant_by, refused, refused_outer, rule};
use cmp_values::{FailInfo, Octets};
use deal_model::{Ask, Body4, Job, Kind, Wish};
use hex::{FromHexError, decode};
use std::alloc::Global;
use std::process::Abort;

/// A key that stands nowhere in the history.
const NEW_KEY: &str =
    "304e300d060b2a864886f70d0109100311033d00000000010000000500000004606162636465666768696a6b6c6d6e6f707172737475767778797a7b7c7d7e7f808182838485868788898a8b8c8d8e8f";

/// The key of the request that was held.
const HELD_KEY: &str =
    "304e300d060b2a864886f70d0109100311033d0000000001000000050000000442434445464748494a4b4c4d4e4f505152535455565758595a5b5c5d5e5f606162636465666768696a6b6c6d6e6f7071";

/// A request for a certificate over this key.
fn request(alloc: Global, key: &str) -> Option<Job> {
    let Ok(spki): Result<Vec<u8>, FromHexError> = decode(alloc, key) else {
        return None;
    };
    let wish = Wish {
        subject: Octets::empty(alloc),
        spki: Octets::of(spki),
        exts: Octets::empty(alloc),
        implicit: false,
        mods: false,
    };
    Some(Job::Enrol(Body4::Ir, wish))
}

/// What comes of a request over this key, at the end of the history.
fn rule_request(alloc: Global, ask: Ask, key: &str) -> Option<Told> {
    let Some(job) = request(alloc, key) else {
        return None;
    };
    rule(alloc, 9, &checked(plain(ask, 0), job), 9)
}

/// What a message of dev-2 in the transaction G asks inside a nested message of dev-1.
fn wrapped() -> Ask {
    Ask {
        digest: [0; 32],
        tid: short(b"G"),
        kind: Some(Kind::Mac),
        kid: short(b"dev-2"),
        outer: Some((Kind::Mac, short(b"dev-1"))),
    }
}

/// What comes of a request inside a nested message of the founding's time.
fn rule_nested(alloc: Global, seconds: u16) -> Option<Told> {
    let Some(job) = request(alloc, NEW_KEY) else {
        return None;
    };
    let sent = Sent {
        ask: wrapped(),
        words: 0,
        minus_one: false,
        hash_ok: Some(true),
        outer_time: Some(NOW),
    };
    rule(alloc, 9, &checked(sent, job), seconds)
}

#[test]
fn a_request_is_granted_once(rt: HostRuntime) {
    let alloc = rt.alloc();
    let new = rule_request(alloc, asked(b"dev-1", b"G"), NEW_KEY);
    assert!(rt; new == Some(grant_by(Body4::Ir)));
    let used = rule_request(alloc, asked(b"dev-1", b"A"), NEW_KEY);
    assert!(rt; used == Some(refused(FailInfo::TransactionIdInUse)));
    let known = rule_request(alloc, asked(b"dev-1", b"G"), HELD_KEY);
    assert!(rt; known == Some(refused(FailInfo::DuplicateCertReq)));
}

#[test]
fn who_is_dismissed_or_on_hold_gets_no_certificate(rt: HostRuntime) {
    let alloc = rt.alloc();
    let bare = Told::Refuses {
        fail: FailInfo::NotAuthorized,
        guarded: false,
        outer: false,
    };
    let held = rule_request(alloc, asked(b"dev-2", b"G"), NEW_KEY);
    assert!(rt; held == Some(Told::Holds));
    let dismissed = rule_request(alloc, asked(b"dev-3", b"G"), NEW_KEY);
    assert!(rt; dismissed == Some(bare));
}

// 300 seconds may lie between the clocks.
#[test]
fn who_may_not_wrap_is_told_so_by_the_outer_header(rt: HostRuntime) {
    let alloc = rt.alloc();
    let near = rule_nested(alloc, 300);
    let far = rule_nested(alloc, 301);
    assert!(rt; near == Some(refused_outer(FailInfo::NotAuthorized)));
    assert!(rt; far == Some(refused_outer(FailInfo::BadTime)));
}
