//! Reasons of refusal, by Bouncy Castle 1.72 (tests/vectors/java/ReplyVectors.java).
use cmp_values::FailInfo;
use der_base::{bits, whole};
use pki_parts::{first_reason, write_status};
use std::alloc::Global;

/// Reasons with the numbers that RFC 9810, 5.2.3, gives their bits, and as Bouncy Castle writes them.
const REASONS: &[(FailInfo, u8, &[u8])] = &[
    (FailInfo::BadAlg, 0, b"\x03\x02\x07\x80"),
    (FailInfo::BadMessageCheck, 1, b"\x03\x02\x06\x40"),
    (FailInfo::BadRequest, 2, b"\x03\x02\x05\x20"),
    (FailInfo::BadTime, 3, b"\x03\x02\x04\x10"),
    (FailInfo::BadCertId, 4, b"\x03\x02\x03\x08"),
    (FailInfo::BadDataFormat, 5, b"\x03\x02\x02\x04"),
    (FailInfo::BadPop, 9, b"\x03\x03\x06\x00\x40"),
    (FailInfo::CertRevoked, 10, b"\x03\x03\x05\x00\x20"),
    (FailInfo::CertConfirmed, 11, b"\x03\x03\x04\x00\x10"),
    (FailInfo::WrongIntegrity, 12, b"\x03\x03\x03\x00\x08"),
    (FailInfo::BadRecipientNonce, 13, b"\x03\x03\x02\x00\x04"),
    (FailInfo::BadSenderNonce, 18, b"\x03\x04\x05\x00\x00\x20"),
    (FailInfo::BadCertTemplate, 19, b"\x03\x04\x04\x00\x00\x10"),
    (FailInfo::SignerNotTrusted, 20, b"\x03\x04\x03\x00\x00\x08"),
    (
        FailInfo::TransactionIdInUse,
        21,
        b"\x03\x04\x02\x00\x00\x04",
    ),
    (
        FailInfo::UnsupportedVersion,
        22,
        b"\x03\x04\x01\x00\x00\x02",
    ),
    (FailInfo::NotAuthorized, 23, b"\x03\x04\x00\x00\x00\x01"),
    (FailInfo::SystemUnavail, 24, b"\x03\x05\x07\x00\x00\x00\x80"),
    (FailInfo::SystemFailure, 25, b"\x03\x05\x06\x00\x00\x00\x40"),
    (
        FailInfo::DuplicateCertReq,
        26,
        b"\x03\x05\x05\x00\x00\x00\x20",
    ),
];

/// The numbers of other bits, by the same list.
const NAMELESS: &[u8] = &[6, 7, 8, 14, 15, 16, 17, 27, 255];

/// Whether a string of bits has this reason first.
fn is_read(octets: &[u8], fail: FailInfo) -> bool {
    let Ok(element) = whole(octets) else {
        return false;
    };
    match bits(&element) {
        Ok(string) => first_reason(&string) == Some(fail),
        Err(_) => false,
    }
}

/// Whether a rejection for this reason ends with these octets.
fn is_written(alloc: Global, fail: FailInfo, octets: &[u8]) -> bool {
    match write_status(alloc, 2, None, Some(fail)) {
        Ok(status) => status.as_slice().ends_with(octets),
        Err(_) => false,
    }
}

#[test]
fn each_reason_is_one_bit(rt: HostRuntime) {
    for (fail, bit, octets) in REASONS {
        assert_eq!(rt; fail.bit(), *bit);
        assert_eq!(rt; FailInfo::of_bit(*bit), Some(*fail));
        assert!(rt; is_read(octets, *fail), "{bit}");
        assert!(rt; is_written(rt.alloc(), *fail, octets), "{bit}");
    }
}

#[test]
fn other_bits_have_no_name(rt: HostRuntime) {
    for bit in NAMELESS {
        assert_eq!(rt; FailInfo::of_bit(*bit), None);
    }
}
