//! Requests to revoke, and their reasons, by Bouncy Castle 1.72 (tests/vectors/java/BodyVectors.java), and neighbours by hand.
use crate::common::{cut, is};
use asn_types::{Extensions, Name, Template};
use der_base::whole;
use pki_parts::{BadForm, RevEntry, RevReq, read_rev_req, revocation_reason, write_rev_req};

/// The name of the common name `Fleet CA`.
const AUTHORITY: &[u8] =
    b"\x30\x13\x31\x11\x30\x0f\x06\x03\x55\x04\x03\x0c\x08\x46\x6c\x65\x65\x74\x20\x43\x41";

/// A request to revoke the authority's certificate 3, for keyCompromise.
const COMPROMISED: &[u8] =
    b"\x30\x2c\x30\x2a\x30\x1a\x81\x01\x03\xa3\x15\x30\x13\x31\x11\x30\x0f\x06\x03\x55\x04\x03\x0c\x08\x46\x6c\x65\x65\x74\x20\x43\x41\x30\x0c\x30\x0a\x06\x03\x55\x1d\x15\x04\x03\x0a\x01\x01";

/// A request to revoke two certificates, the first one for keyCompromise behind an invalidityDate.
const TWO_REVOKED: &[u8] =
    b"\x30\x64\x30\x44\x30\x1a\x81\x01\x03\xa3\x15\x30\x13\x31\x11\x30\x0f\x06\x03\x55\x04\x03\x0c\x08\x46\x6c\x65\x65\x74\x20\x43\x41\x30\x26\x30\x18\x06\x03\x55\x1d\x18\x04\x11\x18\x0f\x32\x30\x32\x33\x31\x31\x31\x34\x32\x32\x31\x33\x32\x30\x5a\x30\x0a\x06\x03\x55\x1d\x15\x04\x03\x0a\x01\x01\x30\x1c\x30\x1a\x81\x01\x03\xa3\x15\x30\x13\x31\x11\x30\x0f\x06\x03\x55\x04\x03\x0c\x08\x46\x6c\x65\x65\x74\x20\x43\x41";

/// The first one's template, and its extensions.
const TEMPLATE: Template = Template {
    version: None,
    serial: Some(b"\x03"),
    alg: None,
    issuer: Some(Name { whole: AUTHORITY }),
    validity: None,
    subject: None,
    key: None,
    issuer_uid: None,
    subject_uid: None,
    exts: None,
};

const EXTENSIONS: Extensions = Extensions {
    content: b"\x30\x18\x06\x03\x55\x1d\x18\x04\x11\x18\x0f\x32\x30\x32\x33\x31\x31\x31\x34\x32\x32\x31\x33\x32\x30\x5a\x30\x0a\x06\x03\x55\x1d\x15\x04\x03\x0a\x01\x01",
};

/// What reading a request to revoke gives, where these octets are an element; and where its content is cut.
fn request_in(octets: &[u8]) -> Option<Result<RevReq<'_>, BadForm>> {
    match whole(octets) {
        Ok(e) => Some(read_rev_req(&e)),
        Err(_) => None,
    }
}

fn cut_request_in(octets: &[u8]) -> Option<Result<RevReq<'_>, BadForm>> {
    match whole(octets) {
        Ok(e) => Some(read_rev_req(&cut(&e))),
        Err(_) => None,
    }
}

#[test]
fn reads_requests_to_revoke(rt: HostRuntime) {
    let entry = RevEntry {
        template: TEMPLATE,
        exts: Some(EXTENSIONS),
    };
    let request = RevReq {
        count: 2,
        first: Some(entry),
    };
    assert_eq!(rt; request_in(TWO_REVOKED), Some(Ok(request)));
}

/// Cut, and with empty extensions in the second entry.
#[test]
fn refuses_neighbours(rt: HostRuntime) {
    assert!(rt; matches!(cut_request_in(TWO_REVOKED), Some(Err(_))));
    let empty = b"\x30\x0a\x30\x02\x30\x00\x30\x04\x30\x00\x30\x00";
    assert!(rt; matches!(request_in(empty), Some(Err(_))));
}

#[test]
fn writes_a_request_to_revoke(rt: HostRuntime) {
    assert!(rt; is(write_rev_req(rt.alloc(), AUTHORITY, 3, 1), COMPROMISED));
}

/// What the extensions whose octets are these give as a reason, where they are an element.
fn reason_of(octets: &[u8]) -> Option<Result<u8, BadForm>> {
    match whole(octets) {
        Ok(e) => Some(revocation_reason(Some(Extensions { content: e.content }))),
        Err(_) => None,
    }
}

/// What one extension of this reason gives.
fn reason_numbered(code: u8) -> Option<Result<u8, BadForm>> {
    reason_of(&[
        0x30, 0x0c, 0x30, 0x0a, 0x06, 0x03, 0x55, 0x1d, 0x15, 0x04, 0x03, 0x0a, 0x01, code,
    ])
}

#[test]
fn each_reason_has_its_number(rt: HostRuntime) {
    for code in [0, 1, 2, 3, 4, 5, 6, 9, 10] {
        assert_eq!(rt; reason_numbered(code), Some(Ok(code)), "{code}");
    }
    for code in [7, 8, 11] {
        assert_eq!(rt; reason_numbered(code), Some(Err(BadForm)), "{code}");
    }
}

/// Without extensions, with an invalidityDate alone, and with keyCompromise behind one.
#[test]
fn tells_reasons(rt: HostRuntime) {
    assert_eq!(rt; revocation_reason(None), Ok(0));
    assert_eq!(rt;
        reason_of(
            b"\x30\x1a\x30\x18\x06\x03\x55\x1d\x18\x04\x11\x18\x0f\x32\x30\x32\x33\x31\x31\x31\x34\x32\x32\x31\x33\x32\x30\x5a"
        ),
        Some(Ok(0))
    );
    assert_eq!(rt; revocation_reason(Some(EXTENSIONS)), Ok(1));
}

/// One that stands twice, and one in an INTEGER.
#[test]
fn refuses_neighbours_of_reasons(rt: HostRuntime) {
    assert_eq!(rt;
        reason_of(
            b"\x30\x32\x30\x0a\x06\x03\x55\x1d\x15\x04\x03\x0a\x01\x01\x30\x18\x06\x03\x55\x1d\x18\x04\x11\x18\x0f\x32\x30\x32\x33\x31\x31\x31\x34\x32\x32\x31\x33\x32\x30\x5a\x30\x0a\x06\x03\x55\x1d\x15\x04\x03\x0a\x01\x01"
        ),
        Some(Err(BadForm))
    );
    assert_eq!(rt;
        reason_of(b"\x30\x0c\x30\x0a\x06\x03\x55\x1d\x15\x04\x03\x02\x01\x01"),
        Some(Err(BadForm))
    );
}
