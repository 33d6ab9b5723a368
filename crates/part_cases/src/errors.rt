//! Error messages, by Bouncy Castle 1.72 (tests/vectors/java/ReplyVectors.java), and their neighbours by hand.
use crate::common::{cut, is};
use cmp_values::FailInfo;
use der_base::{Bits, whole};
use pki_parts::{BadForm, ErrorMsg, StatusInfo, read_error, write_error, write_status};

/// Error messages: of a rejection with the text badPOP and the reason, and with the code 300 and two texts besides.
const ERROR: &[u8] =
    b"\x30\x14\x30\x12\x02\x01\x02\x30\x08\x0c\x06\x62\x61\x64\x50\x4f\x50\x03\x03\x06\x00\x40";

const ERROR_WITH_ALL: &[u8] =
    b"\x30\x28\x30\x12\x02\x01\x02\x30\x08\x0c\x06\x62\x61\x64\x50\x4f\x50\x03\x03\x06\x00\x40\x02\x02\x01\x2c\x30\x0e\x0c\x03\x6b\x65\x79\x0c\x07\x47\xc3\xa9\x72\xc3\xa4\x74";

/// Their status.
const STATUS: StatusInfo = StatusInfo {
    status: b"\x02",
    text: Some(b"\x0c\x06badPOP"),
    fail: Some(Bits {
        unused: 6,
        octets: b"\x00\x40",
    }),
};

const STATUS_OCTETS: &[u8] =
    b"\x30\x12\x02\x01\x02\x30\x08\x0c\x06\x62\x61\x64\x50\x4f\x50\x03\x03\x06\x00\x40";

/// What is wrong, and the octets, by hand from RFC 9810, 5.3.21.
const NO_ERROR: &[(&str, &[u8])] = &[
    ("no status", b"\x30\x00"),
    (
        "details before the code",
        b"\x30\x0e\x30\x03\x02\x01\x02\x30\x04\x0c\x02\x6e\x6f\x02\x01\x01",
    ),
    (
        "a code that is an OCTET STRING",
        b"\x30\x08\x30\x03\x02\x01\x02\x04\x01\x01",
    ),
    ("a NULL behind it", b"\x30\x07\x30\x03\x02\x01\x02\x05\x00"),
    ("a SET", b"\x31\x05\x30\x03\x02\x01\x02"),
];

/// What reading an error message gives, where these octets are an element; and where its content is cut.
fn error_in(octets: &[u8]) -> Option<Result<ErrorMsg<'_>, BadForm>> {
    match whole(octets) {
        Ok(e) => Some(read_error(&e)),
        Err(_) => None,
    }
}

fn cut_error_in(octets: &[u8]) -> Option<Result<ErrorMsg<'_>, BadForm>> {
    match whole(octets) {
        Ok(e) => Some(read_error(&cut(&e))),
        Err(_) => None,
    }
}

#[test]
fn reads_error_messages(rt: HostRuntime) {
    let error = ErrorMsg {
        status: STATUS,
        code: None,
        text: None,
    };
    assert_eq!(rt; error_in(ERROR), Some(Ok(error)));
    let full = ErrorMsg {
        status: STATUS,
        code: Some(b"\x01\x2c"),
        text: Some(b"\x0c\x03key\x0c\x07G\xc3\xa9r\xc3\xa4t"),
    };
    assert_eq!(rt; error_in(ERROR_WITH_ALL), Some(Ok(full)));
}

#[test]
fn writes_error_messages(rt: HostRuntime) {
    let status = write_status(rt.alloc(), 2, Some(b"badPOP"), Some(FailInfo::BadPop));
    assert!(rt; is(status, STATUS_OCTETS));
    assert!(rt; is(write_error(rt.alloc(), STATUS_OCTETS), ERROR));
}

#[test]
fn refuses_what_is_cut_off(rt: HostRuntime) {
    assert!(rt; matches!(cut_error_in(ERROR), Some(Err(_))));
    assert!(rt; matches!(cut_error_in(ERROR_WITH_ALL), Some(Err(_))));
}

#[test]
fn refuses_the_neighbours(rt: HostRuntime) {
    for (what, octets) in NO_ERROR {
        assert!(rt; matches!(error_in(octets), Some(Err(_))), "{what}");
    }
}
