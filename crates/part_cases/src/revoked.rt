//! Responses to requests to revoke, by Bouncy Castle 1.72 (tests/vectors/java/BodyVectors.java), and their neighbours by hand.
use crate::common::{ACCEPTED, ACCEPTED_OCTETS, cut, is};
use der_base::whole;
use pki_parts::{BadForm, RevRep, read_rev_rep, write_rev_rep};

/// The response for two certificates, which revCerts name: one is revoked, and one was before.
const TWO_REVOKED: &[u8] =
    b"\x30\x5c\x30\x1e\x30\x03\x02\x01\x00\x30\x17\x02\x01\x02\x30\x0d\x0c\x0b\x63\x65\x72\x74\x52\x65\x76\x6f\x6b\x65\x64\x03\x03\x05\x00\x20\xa0\x3a\x30\x38\x30\x1a\xa4\x15\x30\x13\x31\x11\x30\x0f\x06\x03\x55\x04\x03\x0c\x08\x46\x6c\x65\x65\x74\x20\x43\x41\x02\x01\x03\x30\x1a\xa4\x15\x30\x13\x31\x11\x30\x0f\x06\x03\x55\x04\x03\x0c\x08\x46\x6c\x65\x65\x74\x20\x43\x41\x02\x01\x04";

/// Without statuses; with a second status of no number; with revCerts of two elements; with crls before revCerts.
const NO_RESPONSES: &[&[u8]] = &[
    b"\x30\x04\xa0\x02\x30\x00",
    b"\x30\x09\x30\x07\x30\x03\x02\x01\x00\x30\x00",
    b"\x30\x08\x30\x00\xa0\x04\x30\x00\x30\x00",
    b"\x30\x0a\x30\x00\xa1\x02\x30\x00\xa0\x02\x30\x00",
];

/// What reading a response gives, where these octets are an element; and where its content is cut.
fn response_in(octets: &[u8]) -> Option<Result<RevRep<'_>, BadForm>> {
    match whole(octets) {
        Ok(e) => Some(read_rev_rep(&e)),
        Err(_) => None,
    }
}

fn cut_response_in(octets: &[u8]) -> Option<Result<RevRep<'_>, BadForm>> {
    match whole(octets) {
        Ok(e) => Some(read_rev_rep(&cut(&e))),
        Err(_) => None,
    }
}

#[test]
fn reads_responses(rt: HostRuntime) {
    let two = RevRep {
        count: 2,
        first: Some(ACCEPTED),
    };
    assert_eq!(rt; response_in(TWO_REVOKED), Some(Ok(two)));
    let none = RevRep {
        count: 0,
        first: None,
    };
    assert_eq!(rt;
        response_in(b"\x30\x0a\x30\x00\xa0\x02\x30\x00\xa1\x02\x30\x00"),
        Some(Ok(none))
    );
}

#[test]
fn refuses_neighbours(rt: HostRuntime) {
    assert!(rt; matches!(cut_response_in(TWO_REVOKED), Some(Err(_))));
    for octets in NO_RESPONSES {
        assert!(rt; matches!(response_in(octets), Some(Err(_))));
    }
}

#[test]
fn writes_responses(rt: HostRuntime) {
    let response = write_rev_rep(rt.alloc(), ACCEPTED_OCTETS);
    assert!(rt; is(response, b"\x30\x07\x30\x05\x30\x03\x02\x01\x00"));
}
