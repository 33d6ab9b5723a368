//! Requests that others wrote, and their neighbours by hand from RFC 4211 and RFC 2986.
use crate::common::cut;
use crate::request_vectors::{
    ASKED, ATTRIBUTES, EMPTY, EXTENSIONS, INFO, INFO_KEY, KEY, OLD, REQUEST, REQUEST_SIGNATURE,
    SCHEME, SIGNATURE, SIGNED, SIGNED_REQUEST, SUBJECT, TEMPLATE, TWICE, UPDATE,
};
use asn_types::{AlgorithmId, Extensions, HSS_LMS, Name, Spki, Template};
use req_forms::{CrmfList, CrmfReq, OldCert, P10, Popo, read_crmf, read_p10};

#[test]
fn reads_a_signed_message(rt: HostRuntime) {
    let popo = Popo::Signature {
        input: None,
        alg: SCHEME,
        sig: SIGNATURE,
    };
    let message = CrmfReq {
        id: b"\x00",
        request: SIGNED_REQUEST,
        template: TEMPLATE,
        old: Some(OLD),
        popo,
    };
    let list = CrmfList {
        count: 1,
        first: Some(message),
    };
    assert_eq!(rt; read_crmf(SIGNED), Ok(list));
    assert!(rt; read_crmf(cut(SIGNED)).is_err());
}

/// What the first message of a list proves possession by.
fn popo_of(octets: &[u8]) -> Option<Popo<'_>> {
    match read_crmf(octets) {
        Ok(
            CrmfList {
                first: Some(message),
                ..
            },
        ) => Some(message.popo),
        _ => None,
    }
}

/// Requests for nothing, whose proofs differ.
const PROOFS: &[(&[u8], Popo<'_>)] = &[
    (
        b"\x30\x09\x30\x07\x30\x05\x02\x01\x00\x30\x00",
        Popo::Absent,
    ),
    (
        b"\x30\x0b\x30\x09\x30\x05\x02\x01\x00\x30\x00\x80\x00",
        Popo::RaVerified,
    ),
    (
        b"\x30\x0b\x30\x09\x30\x05\x02\x01\x00\x30\x00\xa2\x00",
        Popo::Other(2),
    ),
    (
        b"\x30\x0b\x30\x09\x30\x05\x02\x01\x00\x30\x00\xa3\x00",
        Popo::Other(3),
    ),
];

#[test]
fn reads_each_kind_of_proof(rt: HostRuntime) {
    for (octets, popo) in PROOFS {
        assert_eq!(rt; popo_of(octets), Some(*popo));
    }
}

#[test]
fn a_list_may_be_empty(rt: HostRuntime) {
    let none = CrmfList {
        count: 0,
        first: None,
    };
    assert_eq!(rt; read_crmf(b"\x30\x00"), Ok(none));
}

/// A raVerified with content, a list whose second message is none, and a control oldCertID that is none.
const NO_LISTS: &[&[u8]] = &[
    b"\x30\x0c\x30\x0a\x30\x05\x02\x01\x00\x30\x00\x80\x01\x00",
    b"\x30\x0d\x30\x07\x30\x05\x02\x01\x00\x30\x00\x30\x02\x05\x00",
    b"\x30\x1a\x30\x18\x30\x16\x02\x01\x00\x30\x00\x30\x0f\x30\x0d\x06\x09\x2b\x06\x01\x05\x05\x07\x05\x01\x05\x05\x00",
];

#[test]
fn refuses_neighbours_of_lists(rt: HostRuntime) {
    for octets in NO_LISTS {
        assert!(rt; read_crmf(octets).is_err());
    }
}

#[test]
fn reads_a_request_of_pkcs10(rt: HostRuntime) {
    let spki = Spki {
        alg: SCHEME,
        key: b"\x03\xa1\x07\xbf\xf3\xce\x10\xbe\x1d\x70\xdd\x18\xe7\x4b\xc0\x99\x67\xe4\xd6\x30\x9b\xa5\x0d\x5f\x1d\xdc\x86\x64\x12\x55\x31\xb8",
        content: INFO_KEY,
    };
    let request = P10 {
        info: INFO,
        version: b"\x00",
        subject: Name { whole: SUBJECT },
        spki,
        attributes: ATTRIBUTES,
        exts: Some(Extensions {
            content: &REQUEST[150..199],
        }),
        alg: SCHEME,
        sig: REQUEST_SIGNATURE,
    };
    assert_eq!(rt; read_p10(REQUEST), Ok(request));
}

#[test]
fn refuses_neighbours_of_requests(rt: HostRuntime) {
    assert!(rt; read_p10(cut(REQUEST)).is_err());
    assert!(rt; read_p10(TWICE).is_err());
    assert!(rt; read_p10(EMPTY).is_err());
}

/// What the first message of a list asks for.
fn template_of(octets: &[u8]) -> Option<Template<'_>> {
    match read_crmf(octets) {
        Ok(
            CrmfList {
                first: Some(message),
                ..
            },
        ) => Some(message.template),
        _ => None,
    }
}

/// Which certificate the first message of a list updates.
fn old_of(octets: &[u8]) -> Option<OldCert<'_>> {
    match read_crmf(octets) {
        Ok(
            CrmfList {
                first: Some(message),
                ..
            },
        ) => message.old,
        _ => None,
    }
}

/// What is written is read again.
#[test]
fn reads_the_messages_that_are_written(rt: HostRuntime) {
    let template = Template {
        exts: Some(Extensions {
            content: EXTENSIONS,
        }),
        ..TEMPLATE
    };
    assert_eq!(rt; template_of(UPDATE), Some(template));
    assert_eq!(rt; old_of(UPDATE), Some(OLD));
}

#[test]
fn reads_the_request_that_is_written(rt: HostRuntime) {
    let alg = AlgorithmId {
        oid: HSS_LMS,
        params: None,
    };
    let request = P10 {
        info: &ASKED[3..234],
        version: b"\x00",
        subject: Name { whole: SUBJECT },
        spki: KEY,
        attributes: &ASKED[141..234],
        exts: Some(Extensions {
            content: EXTENSIONS,
        }),
        alg,
        sig: b"\x01\x02",
    };
    assert_eq!(rt; read_p10(ASKED), Ok(request));
}
