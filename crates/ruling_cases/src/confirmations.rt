//! Messages that go on with a transaction: certConf and pollReq, and one that is repeated.

use crate::messages::{Sent, asked, checked, plain};
use crate::told::{Told, grant_by, refused, rule};
use cmp_values::FailInfo;
use deal_model::{Ask, Body4, Job};
use std::alloc::Global;
use std::process::Abort;

/// What comes of a certConf in the transaction A, whose one status accepts the certificate.
fn rule_confirmation(
    alloc: Global,
    length: usize,
    hash_ok: Option<bool>,
    seconds: u16,
) -> Option<Told> {
    let sent = Sent {
        hash_ok,
        ..plain(asked(b"dev-1", b"A"), 0x81)
    };
    let job = Job::Confirm {
        id_ok: true,
        hash: [0; 32],
        hash_alg_ok: true,
        count: 1,
        status: 0,
    };
    rule(alloc, length, &checked(sent, job), seconds)
}

/// What comes of a pollReq in the transaction C, behind so many changes.
fn rule_poll(alloc: Global, length: usize) -> Option<Told> {
    let sent = Sent {
        minus_one: true,
        ..plain(asked(b"dev-2", b"C"), 0x85)
    };
    rule(alloc, length, &checked(sent, Job::Poll { ids_ok: true }), 9)
}

/// The digest of the message with this number.
fn digest_of(number: u8) -> [u8; 32] {
    let mut digest = [0u8; 32];
    let mut next = number;
    for octet in digest.iter_mut() {
        *octet = next;
        next = next.wrapping_add(1);
    }
    digest
}

// Granted 2 seconds after the founding, to be confirmed within 300.
#[test]
fn a_certificate_is_confirmed_before_its_deadline(rt: HostRuntime) {
    let alloc = rt.alloc();
    let late = refused(FailInfo::CertRevoked);
    assert!(rt; rule_confirmation(alloc, 4, Some(true), 301) == Some(Told::Accepts));
    assert!(rt; rule_confirmation(alloc, 4, Some(true), 302) == Some(late));
    assert!(rt; rule_confirmation(alloc, 4, Some(true), 303) == Some(late));
}

#[test]
fn a_certificate_is_confirmed_in_answer_to_the_last_reply(rt: HostRuntime) {
    let told = rule_confirmation(rt.alloc(), 5, Some(true), 301);
    assert!(rt; told == Some(refused(FailInfo::BadRecipientNonce)));
}

#[test]
fn certificates_are_compared_first(rt: HostRuntime) {
    let told = rule_confirmation(rt.alloc(), 4, None, 9);
    assert!(rt; told == Some(Told::Asks { place: 4 }));
}

// The third message made the Grant of the certificate 4.
#[test]
fn a_repetition_gets_its_reply_again(rt: HostRuntime) {
    let ask = Ask {
        digest: digest_of(3),
        ..asked(b"dev-3", b"A")
    };
    let told = rule(rt.alloc(), 9, &checked(plain(ask, 0), Job::Repeat), 9);
    assert!(rt; told == Some(Told::Repeats { place: 6 }));
}

#[test]
fn a_released_request_is_granted_as_it_was_held(rt: HostRuntime) {
    let alloc = rt.alloc();
    assert!(rt; rule_poll(alloc, 9) == Some(grant_by(Body4::P10cr)));
    assert!(rt; rule_poll(alloc, 8) == Some(Told::Waits));
}
