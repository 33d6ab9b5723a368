//! What the tests share: octets that were written, elements that are cut, and statuses.
use cmp_values::Octets;
use der_base::{Bits, Element};
use pki_parts::StatusInfo;
use std::alloc::AllocError;

/// The reason notAuthorized.
pub(crate) const NOT_AUTHORIZED: Bits = Bits {
    unused: 0,
    octets: b"\x00\x00\x01",
};

/// Accepted; waiting; and a rejection with the text denied and the reason notAuthorized.
pub(crate) const ACCEPTED: StatusInfo = StatusInfo {
    status: b"\x00",
    text: None,
    fail: None,
};

pub(crate) const WAITING: StatusInfo = StatusInfo {
    status: b"\x03",
    text: None,
    fail: None,
};

pub(crate) const DENIED: StatusInfo = StatusInfo {
    status: b"\x02",
    text: Some(b"\x0c\x06denied"),
    fail: Some(NOT_AUTHORIZED),
};

/// The octets of these.
pub(crate) const ACCEPTED_OCTETS: &[u8] = b"\x30\x03\x02\x01\x00";

pub(crate) const WAITING_OCTETS: &[u8] = b"\x30\x03\x02\x01\x03";

pub(crate) const DENIED_OCTETS: &[u8] =
    b"\x30\x13\x02\x01\x02\x30\x08\x0c\x06\x64\x65\x6e\x69\x65\x64\x03\x04\x00\x00\x00\x01";

/// Whether these octets were written.
pub(crate) fn is(written: Result<Octets, AllocError>, octets: &[u8]) -> bool {
    match written {
        Ok(written) => written.as_slice() == octets,
        Err(_) => false,
    }
}

/// The same element without the last octet of its content.
pub(crate) fn cut<'a>(e: &Element<'a>) -> Element<'a> {
    let content = match e.content {
        [] => e.content,
        [shorter @ .., _] => shorter,
    };
    Element {
        tag: e.tag,
        content,
        whole: e.whole,
    }
}
