//! What messages are about, as far as the table of decisions asks. All octets are borrowed from the message.

use asn_types::Spki;
use deal_changes::Body4;

/// A certReqId: 0, -1, which stands for a request in the form of PKCS #10, or another number (RFC 9810, 5.3.4 and 5.3.18).
#[derive(Clone, Copy, Debug, PartialEq, Eq)]
pub(crate) enum ReqId {
    Zero,
    MinusOne,
    Other,
}

/// A certificate by its issuer, where that is a Name, and its serial number, where that is at least 0 and below 2^64.
#[derive(Clone, Copy, Debug)]
pub(crate) struct CertName<'a> {
    pub issuer: Option<&'a [u8]>,
    pub serial: Option<u64>,
}

/// What a certificate is asked to have: the subject, a whole Name, the key, the content of its Extensions, whether it is asked to need
/// no confirmation, and whether something else is asked for that isn't taken over.
#[derive(Clone, Copy, Debug)]
pub(crate) struct Asked<'a> {
    pub subject: Option<&'a [u8]>,
    pub key: Option<Spki<'a>>,
    pub exts: Option<&'a [u8]>,
    pub implicit: bool,
    pub has_more: bool,
}

/// A request for a certificate (RFC 4211, RFC 2986). Where it has no key, or is no request at all, none is asked for.
#[derive(Clone, Copy, Debug)]
pub(crate) struct Enrolling<'a> {
    pub body: Body4,
    /// It is exactly one request, whose certReqId is 0 where it has one.
    pub is_one: bool,
    /// Its subject isn't empty.
    pub has_subject: bool,
    /// Its version isn't that of its form, or it has a field that the authority alone sets.
    pub has_bad_field: bool,
    pub issuer: Option<&'a [u8]>,
    /// An extension stands twice, is out of form, or asks for an authority.
    pub has_bad_extension: bool,
    /// The algorithm of the key or of the proof isn't served.
    pub has_bad_alg: bool,
    /// The certificate that its oldCertID names.
    pub old: Option<CertName<'a>>,
    /// An RA vouches for the possession of the private key.
    pub by_ra: bool,
    pub asked: Asked<'a>,
}

/// A certConf (RFC 9810, 5.3.18).
#[derive(Clone, Copy, Debug)]
pub(crate) struct Confirming<'a> {
    /// 0, 1, or 2 for more.
    pub count: u8,
    pub id: ReqId,
    /// 0 to 2, or 3 for any other; 0 where it is absent.
    pub status: u8,
    /// The hashAlg is absent or SHA-256.
    pub has_known_hash: bool,
    /// The certHash of the first status.
    pub hash: Option<&'a [u8]>,
}

/// A pollReq (RFC 9810, 5.3.22): whether it has exactly one entry, and the certReqId of that.
#[derive(Clone, Copy, Debug)]
pub(crate) struct Polling {
    pub is_one: bool,
    pub id: ReqId,
}

/// An rr (RFC 9810, 5.3.9): whether it has exactly one entry, and of that the reason (RFC 5280, 5.3.1), 0 where it is absent and
/// none where it isn't served, and the certificate.
#[derive(Clone, Copy, Debug)]
pub(crate) struct Withdrawing<'a> {
    pub is_one: bool,
    pub reason: Option<u8>,
    pub certificate: CertName<'a>,
}

/// What the body of a message is about. Of a nested message it is the number of messages in it.
#[derive(Clone, Copy, Debug)]
pub(crate) enum About<'a> {
    Enrols(Enrolling<'a>),
    Confirms(Confirming<'a>),
    Polls(Polling),
    Withdraws(Withdrawing<'a>),
    Nests(u64),
    Other,
}
