//! Wishes, written as others write them.
use crate::common::is;
use crate::request_vectors::{ASKED, EXTENSIONS, ISSUER, SPKI, SUBJECT, UPDATE, VOUCHED};
use cmp_values::Octets;
use req_forms::{CrmfWish, Proof, write_crmf, write_p10, write_p10_info, write_request};
use std::alloc::{AllocError, Global};

/// A wish of that subject and key, and of these extensions.
fn wish_of(
    alloc: Global,
    exts: &[u8],
    old: Option<u64>,
    proof: Proof,
) -> Result<CrmfWish, AllocError> {
    Ok(CrmfWish {
        subject: Octets::copy_of(alloc, SUBJECT)?,
        spki: Octets::copy_of(alloc, SPKI)?,
        exts: Octets::copy_of(alloc, exts)?,
        old,
        issuer: Octets::copy_of(alloc, ISSUER)?,
        proof,
    })
}

/// A wish for an update of the certificate 3, signed by the octets 1 and 2.
fn signed_wish(alloc: Global) -> Result<CrmfWish, AllocError> {
    let sig = Octets::copy_of(alloc, b"\x01\x02")?;
    wish_of(alloc, EXTENSIONS, Some(3), Proof::Signature(sig))
}

/// Whether a wish, of at most 999 octets a field, is written as these messages.
#[tactic(auto, using(req_forms::proofs::SizeLemmas::crmf_size))]
fn are_messages_of(alloc: Global, wish: &CrmfWish, octets: &[u8]) -> bool {
    let sig = match &wish.proof {
        Proof::RaVerified => 0,
        Proof::Signature(sig) => sig.len(),
    };
    if wish.subject.len() > 999
        || wish.spki.len() > 999
        || wish.exts.len() > 999
        || wish.issuer.len() > 999
        || sig > 999
    {
        return false;
    }
    is(write_crmf(alloc, wish), octets)
}

/// Whether a wish that was made is.
fn are_messages(alloc: Global, wish: Result<CrmfWish, AllocError>, octets: &[u8]) -> bool {
    match wish {
        Ok(wish) => are_messages_of(alloc, &wish, octets),
        Err(_) => false,
    }
}

/// Whether the request of a wish is written as these octets.
#[tactic(auto, using(req_forms::proofs::SizeLemmas::whole_request_size))]
fn is_certificate_request(alloc: Global, wish: &CrmfWish, octets: &[u8]) -> bool {
    wish.subject.len() <= 999
        && wish.spki.len() <= 999
        && wish.exts.len() <= 999
        && wish.issuer.len() <= 999
        && is(write_request(alloc, wish), octets)
}

/// Whether the request of the signed wish is written as these octets.
fn is_signed_request(alloc: Global, octets: &[u8]) -> bool {
    match signed_wish(alloc) {
        Ok(wish) => is_certificate_request(alloc, &wish, octets),
        Err(_) => false,
    }
}

#[test]
fn writes_a_request_as_others_do(rt: HostRuntime) {
    assert!(rt; is_signed_request(rt.alloc(), &UPDATE[8..271]));
}

/// Whether a wish is written as this info.
#[tactic(auto, using(req_forms::proofs::SizeLemmas::info_size))]
fn is_info(alloc: Global, wish: &CrmfWish, octets: &[u8]) -> bool {
    wish.subject.len() <= 999
        && wish.spki.len() <= 999
        && wish.exts.len() <= 999
        && is(write_p10_info(alloc, wish), octets)
}

/// Whether a request over an info is written as these octets.
#[tactic(auto, using(req_forms::proofs::SizeLemmas::p10_size))]
fn is_request(alloc: Global, info: &[u8], sig: &[u8], octets: &[u8]) -> bool {
    info.len() <= 999 && sig.len() <= 999 && is(write_p10(alloc, info, sig), octets)
}

#[test]
fn writes_a_vouched_message_as_others_do(rt: HostRuntime) {
    let wish = wish_of(rt.alloc(), b"", None, Proof::RaVerified);
    assert!(rt; are_messages(rt.alloc(), wish, VOUCHED));
}

#[test]
fn writes_a_signed_message_as_others_do(rt: HostRuntime) {
    assert!(rt; are_messages(rt.alloc(), signed_wish(rt.alloc()), UPDATE));
}

/// Whether the signed wish is written as this info.
fn is_signed_info(alloc: Global, octets: &[u8]) -> bool {
    match signed_wish(alloc) {
        Ok(wish) => is_info(alloc, &wish, octets),
        Err(_) => false,
    }
}

#[test]
fn writes_a_request_of_pkcs10_as_others_do(rt: HostRuntime) {
    let info = &ASKED[3..234];
    assert!(rt; is_signed_info(rt.alloc(), info));
    assert!(rt; is_request(rt.alloc(), info, b"\x01\x02", ASKED));
}
