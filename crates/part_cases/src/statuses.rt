//! Statuses, by Bouncy Castle 1.72 (tests/vectors/java/ReplyVectors.java), and their neighbours by hand.
use crate::common::{
    ACCEPTED, ACCEPTED_OCTETS, DENIED, DENIED_OCTETS, NOT_AUTHORIZED, WAITING_OCTETS, cut, is,
};
use cmp_values::FailInfo;
use der_base::{Bits, whole};
use pki_parts::{BadForm, StatusInfo, first_reason, read_status, write_status};

/// A rejection with badTime and incorrectData, which has no name here.
const TWO_REASONS_OCTETS: &[u8] = b"\x30\x07\x02\x01\x02\x03\x02\x00\x11";

const TIME_AND_DATA: Bits = Bits {
    unused: 0,
    octets: b"\x11",
};

const TWO_REASONS: StatusInfo = StatusInfo {
    status: b"\x02",
    text: None,
    fail: Some(TIME_AND_DATA),
};

/// What is wrong, and the octets, by hand from RFC 9810, 5.2.3.
const NO_STATUS: &[(&str, &[u8])] = &[
    ("a status without a number", b"\x30\x00"),
    (
        "reasons before the text",
        b"\x30\x0e\x02\x01\x02\x03\x03\x06\x00\x40\x30\x04\x0c\x02\x6e\x6f",
    ),
    (
        "a text that is not UTF-8",
        b"\x30\x08\x02\x01\x02\x30\x03\x0c\x01\xff",
    ),
    (
        "a text that is an OCTET STRING",
        b"\x30\x09\x02\x01\x02\x30\x04\x04\x02\x6e\x6f",
    ),
    (
        "reasons with a bit that is not used",
        b"\x30\x07\x02\x01\x02\x03\x02\x06\x41",
    ),
    ("a number more", b"\x30\x06\x02\x01\x02\x02\x01\x02"),
    ("a SET", b"\x31\x03\x02\x01\x02"),
];

/// What reading a status gives, where these octets are an element; and where its content is cut.
fn status_in(octets: &[u8]) -> Option<Result<StatusInfo<'_>, BadForm>> {
    match whole(octets) {
        Ok(e) => Some(read_status(&e)),
        Err(_) => None,
    }
}

fn cut_status_in(octets: &[u8]) -> Option<Result<StatusInfo<'_>, BadForm>> {
    match whole(octets) {
        Ok(e) => Some(read_status(&cut(&e))),
        Err(_) => None,
    }
}

#[test]
fn reads_statuses(rt: HostRuntime) {
    assert_eq!(rt; status_in(DENIED_OCTETS), Some(Ok(DENIED)));
    assert_eq!(rt; status_in(TWO_REASONS_OCTETS), Some(Ok(TWO_REASONS)));
    assert_eq!(rt; status_in(ACCEPTED_OCTETS), Some(Ok(ACCEPTED)));
}

#[test]
fn tells_the_first_reason(rt: HostRuntime) {
    assert_eq!(rt;
        first_reason(&NOT_AUTHORIZED),
        Some(FailInfo::NotAuthorized)
    );
    assert_eq!(rt; first_reason(&TIME_AND_DATA), Some(FailInfo::BadTime));
}

#[test]
fn writes_statuses(rt: HostRuntime) {
    let denied = write_status(
        rt.alloc(),
        2,
        Some(b"denied"),
        Some(FailInfo::NotAuthorized),
    );
    assert!(rt; is(denied, DENIED_OCTETS));
    assert!(rt; is(write_status(rt.alloc(), 3, None, None), WAITING_OCTETS));
}

#[test]
fn refuses_what_is_cut_off(rt: HostRuntime) {
    for octets in [DENIED_OCTETS, TWO_REASONS_OCTETS, ACCEPTED_OCTETS] {
        assert!(rt; matches!(cut_status_in(octets), Some(Err(_))));
    }
}

#[test]
fn refuses_the_neighbours(rt: HostRuntime) {
    for (what, octets) in NO_STATUS {
        assert!(rt; matches!(status_in(octets), Some(Err(_))), "{what}");
    }
}
