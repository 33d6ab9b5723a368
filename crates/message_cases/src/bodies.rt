//! What stands in the bodies of the messages.
use crate::vectors::{
    CERT_CONF, CERTIFICATE, CP, CR, ERROR, GENM, GENP, IP, IR, KUP, KUR, NESTED, P10CR, PKICONF,
    POLL_REP, POLL_REQ, RANN, RP, RR, TAG,
};
use pki_message::{Body, read_message};

/// The body of a message.
fn body_of(octets: &[u8]) -> Option<Body<'_>> {
    match read_message(octets) {
        Ok(message) => Some(message.body),
        Err(_) => None,
    }
}

/// The protection of a message, and its certificates.
fn protection_of(octets: &[u8]) -> Option<&[u8]> {
    match read_message(octets) {
        Ok(message) => message.protection,
        Err(_) => None,
    }
}

fn extra_of(octets: &[u8]) -> Option<&[u8]> {
    match read_message(octets) {
        Ok(message) => message.extra,
        Err(_) => None,
    }
}

#[test]
fn protections_and_certificates_are_read(rt: HostRuntime) {
    assert_eq!(rt; protection_of(IR), Some(TAG));
    assert_eq!(rt; extra_of(PKICONF), Some(CERTIFICATE));
}

#[test]
fn requests_are_read(rt: HostRuntime) {
    assert!(rt; matches!(body_of(IR), Some(Body::Ir(list)) if list.count == 1));
    assert!(rt; matches!(body_of(CR), Some(Body::Cr(list)) if list.count == 1));
}

#[test]
fn updates_are_read(rt: HostRuntime) {
    assert!(rt; matches!(body_of(KUR), Some(Body::Kur(list)) if list.count == 1));
    assert!(rt;
        matches!(body_of(P10CR), Some(Body::P10cr(request)) if request.version == b"\x00".as_slice())
    );
}

/// The first certificate in an ip.
fn certificate_in(octets: &[u8]) -> Option<&[u8]> {
    let Some(Body::Ip(replies)) = body_of(octets) else {
        return None;
    };
    match replies.first {
        Some(reply) => reply.cert,
        None => None,
    }
}

#[test]
fn replies_are_read(rt: HostRuntime) {
    assert_eq!(rt; certificate_in(IP), Some(CERTIFICATE));
    assert!(rt; matches!(body_of(CP), Some(Body::Cp(replies)) if replies.count == 1));
    assert!(rt; matches!(body_of(KUP), Some(Body::Kup(replies)) if replies.count == 1));
}

#[test]
fn revocations_are_read(rt: HostRuntime) {
    assert!(rt; matches!(body_of(RR), Some(Body::Rr(requests)) if requests.count == 1));
    assert!(rt; matches!(body_of(RP), Some(Body::Rp(responses)) if responses.count == 1));
    assert!(rt; matches!(body_of(RANN), Some(Body::Other(17))));
}

/// The messages in a nested one.
fn messages_in(octets: &[u8]) -> &[u8] {
    match body_of(octets) {
        Some(Body::Nested(messages)) => messages,
        _ => &[],
    }
}

#[test]
fn messages_in_a_message_are_read(rt: HostRuntime) {
    assert!(rt; matches!(body_of(PKICONF), Some(Body::PkiConf)));
    assert!(rt; matches!(body_of(messages_in(NESTED)), Some(Body::PkiConf)));
}

#[test]
fn general_messages_are_read(rt: HostRuntime) {
    assert!(rt; matches!(body_of(GENM), Some(Body::Genm(infos)) if infos.len() == 12));
    assert!(rt; matches!(body_of(GENP), Some(Body::Genp(infos)) if infos.len() == 14));
}

#[test]
fn errors_and_confirmations_are_read(rt: HostRuntime) {
    assert!(rt;
        matches!(body_of(ERROR), Some(Body::Error(message)) if message.code == Some(b"\x11".as_slice()))
    );
    assert!(rt;
        matches!(body_of(CERT_CONF), Some(Body::CertConf(statuses)) if statuses.count == 1)
    );
}

#[test]
fn polls_are_read(rt: HostRuntime) {
    assert!(rt;
        matches!(body_of(POLL_REQ), Some(Body::PollReq(polls)) if polls.first == Some(b"\xff".as_slice()))
    );
    assert!(rt; matches!(body_of(POLL_REP), Some(Body::PollRep(answers)) if answers.count == 1));
}
