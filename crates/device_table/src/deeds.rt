//! What a device does.

use crate::stage::{Out, Phase};
use cmp_values::{FailInfo, Octets};

/// Whether a certificate is accepted.
#[derive(Clone, Copy, Debug, PartialEq, Eq)]
pub enum Verdict {
    Accepts,
    Rejects,
}

/// A message that a device makes. The nonce is the senderNonce of the reply that it follows, which becomes its recipNonce.
#[derive(Debug, Drop)]
pub enum Speech {
    /// The request (RFC 9810, 5.3.1 to 5.3.5).
    Requests,
    /// A pollReq (RFC 9810, 5.3.22).
    Polls(Option<Octets>),
    /// A certConf about this certificate (RFC 9810, 5.3.18).
    Settles {
        verdict: Verdict,
        cert: Octets,
        nonce: Option<Octets>,
    },
}

/// Why an enrolment failed.
#[derive(Clone, Copy, Debug, PartialEq, Eq)]
pub enum Cause {
    /// No reply to one message came, however often it was sent.
    Silent,
    /// A reply is no message of the profile, or its body is none that was asked for.
    BadReply,
    /// The authority answered with an error of this reason.
    Refused(Option<FailInfo>),
    /// The protection of a reply doesn't hold.
    BadProtection,
    /// The request was rejected.
    Denied,
    /// The certificate isn't one that was asked for. The authority knows that it was rejected.
    BadCertificate,
    /// The leaves of the device's key are used up. The table never says so.
    Spent,
    /// The disk of the device's key failed. The table never says so.
    DiskFault,
}

/// What a device does next.
#[derive(Debug, Drop)]
pub enum Deed {
    /// It makes a message and sends it, and is in this phase.
    Says(Speech, Phase),
    /// It sends the message that is out again, and stays in this phase.
    Repeats(Out, Phase),
    /// It waits for so many seconds; the senderNonce of the reply that said so.
    Rests(u32, Option<Octets>),
    /// It does nothing, and stays as it is.
    Keeps,
    /// It ends with this certificate.
    Wins(Octets),
    /// It ends without one.
    Fails(Cause),
}
