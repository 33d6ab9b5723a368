//! Confirmations, by Bouncy Castle 1.72 (tests/vectors/java/BodyVectors.java), and their neighbours by hand.
use crate::common::{ACCEPTED, cut, is};
use asn_types::AlgorithmId;
use der_base::whole;
use pki_parts::{BadForm, CertConfirm, CertStatus, read_confirm, write_confirm};

/// The octets of a hash.
const HASH: &[u8] =
    b"\x40\x41\x42\x43\x44\x45\x46\x47\x48\x49\x4a\x4b\x4c\x4d\x4e\x4f\x50\x51\x52\x53\x54\x55\x56\x57\x58\x59\x5a\x5b\x5c\x5d\x5e\x5f";

/// A confirmation of two certificates: the first one without a status, the second one rejected with a text, both with hashAlg.
const TWO_CONFIRMED: &[u8] =
    b"\x30\x7d\x30\x34\x04\x20\x40\x41\x42\x43\x44\x45\x46\x47\x48\x49\x4a\x4b\x4c\x4d\x4e\x4f\x50\x51\x52\x53\x54\x55\x56\x57\x58\x59\x5a\x5b\x5c\x5d\x5e\x5f\x02\x01\x00\xa0\x0d\x30\x0b\x06\x09\x60\x86\x48\x01\x65\x03\x04\x02\x01\x30\x45\x04\x20\x40\x41\x42\x43\x44\x45\x46\x47\x48\x49\x4a\x4b\x4c\x4d\x4e\x4f\x50\x51\x52\x53\x54\x55\x56\x57\x58\x59\x5a\x5b\x5c\x5d\x5e\x5f\x02\x01\x01\x30\x0f\x02\x01\x02\x30\x0a\x0c\x08\x6e\x6f\x74\x20\x6d\x69\x6e\x65\xa0\x0d\x30\x0b\x06\x09\x60\x86\x48\x01\x65\x03\x04\x02\x01";

/// A confirmation of the request -1, accepted.
const ACCEPTING: &[u8] =
    b"\x30\x2c\x30\x2a\x04\x20\x40\x41\x42\x43\x44\x45\x46\x47\x48\x49\x4a\x4b\x4c\x4d\x4e\x4f\x50\x51\x52\x53\x54\x55\x56\x57\x58\x59\x5a\x5b\x5c\x5d\x5e\x5f\x02\x01\xff\x30\x03\x02\x01\x00";

/// A confirmation of the request 0, without a status.
const BARE: &[u8] =
    b"\x30\x27\x30\x25\x04\x20\x40\x41\x42\x43\x44\x45\x46\x47\x48\x49\x4a\x4b\x4c\x4d\x4e\x4f\x50\x51\x52\x53\x54\x55\x56\x57\x58\x59\x5a\x5b\x5c\x5d\x5e\x5f\x02\x01\x00";

/// Without certReqId; with the hash as a BIT STRING; with the algorithm under an implicit tag; and with the algorithm before the
/// status.
const NO_CONFIRMATIONS: &[&[u8]] = &[
    b"\x30\x05\x30\x03\x04\x01\x07",
    b"\x30\x08\x30\x06\x03\x01\x00\x02\x01\x00",
    b"\x30\x0d\x30\x0b\x04\x01\x07\x02\x01\x00\xa0\x03\x06\x01\x2a",
    b"\x30\x14\x30\x12\x04\x01\x07\x02\x01\x00\xa0\x05\x30\x03\x06\x01\x2a\x30\x03\x02\x01\x00",
];

/// What reading a confirmation gives, where these octets are an element; and where its content is cut.
fn confirmation_in(octets: &[u8]) -> Option<Result<CertConfirm<'_>, BadForm>> {
    match whole(octets) {
        Ok(e) => Some(read_confirm(&e)),
        Err(_) => None,
    }
}

fn cut_confirmation_in(octets: &[u8]) -> Option<Result<CertConfirm<'_>, BadForm>> {
    match whole(octets) {
        Ok(e) => Some(read_confirm(&cut(&e))),
        Err(_) => None,
    }
}

#[test]
fn reads_confirmations(rt: HostRuntime) {
    let digest = AlgorithmId {
        oid: b"\x60\x86\x48\x01\x65\x03\x04\x02\x01",
        params: None,
    };
    let first = CertStatus {
        hash: HASH,
        id: b"\x00",
        status: None,
        hash_alg: Some(digest),
    };
    let two = CertConfirm {
        count: 2,
        first: Some(first),
    };
    assert_eq!(rt; confirmation_in(TWO_CONFIRMED), Some(Ok(two)));
}

#[test]
fn reads_an_acceptance(rt: HostRuntime) {
    let first = CertStatus {
        hash: HASH,
        id: b"\xff",
        status: Some(ACCEPTED),
        hash_alg: None,
    };
    let one = CertConfirm {
        count: 1,
        first: Some(first),
    };
    assert_eq!(rt; confirmation_in(ACCEPTING), Some(Ok(one)));
    let none = CertConfirm {
        count: 0,
        first: None,
    };
    assert_eq!(rt; confirmation_in(b"\x30\x00"), Some(Ok(none)));
}

#[test]
fn refuses_neighbours(rt: HostRuntime) {
    assert!(rt; matches!(cut_confirmation_in(TWO_CONFIRMED), Some(Err(_))));
    for octets in NO_CONFIRMATIONS {
        assert!(rt; matches!(confirmation_in(octets), Some(Err(_))));
    }
}

#[test]
fn writes_confirmations(rt: HostRuntime) {
    assert!(rt; is(write_confirm(rt.alloc(), HASH, -1, Some(0)), ACCEPTING));
    assert!(rt; is(write_confirm(rt.alloc(), HASH, 0, None), BARE));
}
