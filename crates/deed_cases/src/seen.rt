//! What is seen of a deed.

use crate::given::{ANSWER, CERT, MESSAGE};
use cmp_values::Octets;
use device_table::{Cause, Deed, Out, Phase, Speech, Verdict};

/// What a device does next.
#[derive(Clone, Copy, PartialEq, Eq)]
pub(crate) enum Does {
    Requests,
    Polls,
    Accepts,
    Rejects,
    /// It sends the message again, which was lost so often.
    Repeats(u32),
    Rests(u32),
    Keeps,
    Wins,
    Fails(Cause),
    /// Something that no row has.
    Else,
}

/// Whether it is the senderNonce of the reply.
fn is_answer(nonce: &Option<Octets>) -> bool {
    match nonce {
        Some(nonce) => nonce.as_slice() == ANSWER.as_slice(),
        None => false,
    }
}

/// Whether it is the certificate of the reply.
fn is_certificate(cert: &Octets) -> bool {
    cert.as_slice() == CERT
}

/// What is seen of a certConf.
fn settled(verdict: Verdict, phase: &Phase) -> Does {
    match phase {
        Phase::Confirming(cert) if verdict == Verdict::Accepts && is_certificate(cert) => {
            Does::Accepts
        }
        Phase::Rejecting if verdict == Verdict::Rejects => Does::Rejects,
        _ => Does::Else,
    }
}

/// What is seen of a message.
fn said(speech: &Speech, phase: &Phase) -> Does {
    match speech {
        Speech::Requests if matches!(phase, Phase::Asked) => Does::Requests,
        Speech::Polls(nonce) if matches!(phase, Phase::Polling) && is_answer(nonce) => Does::Polls,
        Speech::Settles {
            verdict,
            cert,
            nonce,
        } if is_certificate(cert) && is_answer(nonce) => settled(*verdict, phase),
        _ => Does::Else,
    }
}

/// What is seen of a message that is sent again.
fn repeated(out: &Out) -> Does {
    if out.octets.as_slice() == MESSAGE {
        Does::Repeats(out.lost)
    } else {
        Does::Else
    }
}

/// What is seen of a deed.
pub(crate) fn seen(deed: &Deed) -> Does {
    match deed {
        Deed::Says(speech, phase) => said(speech, phase),
        Deed::Repeats(out, _) => repeated(out),
        Deed::Rests(seconds, nonce) if is_answer(nonce) => Does::Rests(*seconds),
        Deed::Rests(..) => Does::Else,
        Deed::Keeps => Does::Keeps,
        Deed::Wins(cert) if is_certificate(cert) => Does::Wins,
        Deed::Wins(_) => Does::Else,
        Deed::Fails(cause) => Does::Fails(*cause),
    }
}
