//! What the rows are given: how far a device has come, and what it is told.

use cmp_values::{FailInfo, Octets};
use device_table::{Deal, Event, Heard, Out, Phase, Stage, Word};
use std::alloc::{AllocError, Global};

/// The transactionID, the senderNonces of the first message, of the one that is out and of the reply, and the certificate.
pub(crate) const TID: [u8; 16] = [1; 16];

pub(crate) const FIRST: [u8; 16] = [2; 16];

pub(crate) const LATEST: [u8; 16] = [3; 16];

pub(crate) const ANSWER: [u8; 16] = [4; 16];

pub(crate) const CERT: &[u8] = b"certificate";

pub(crate) const MESSAGE: &[u8] = b"message";

/// How far a device has come.
#[derive(Clone, Copy, PartialEq, Eq)]
pub(crate) enum At {
    Start,
    Asked,
    Polling,
    Confirming,
    Rejecting,
    Waits,
    Ended,
}

/// What it is told.
#[derive(Clone, Copy, PartialEq, Eq)]
pub(crate) enum Told {
    Begin,
    /// Octets that are no message.
    Garbage,
    /// A pkiconf of another transaction, and one that answers no message of this one.
    OtherTransaction,
    NoAnswer,
    /// A certificate in answer to the first message of the transaction.
    ToTheFirst,
    /// An error that nothing protects.
    Error,
    /// A pkiconf whose protection doesn't hold.
    Unproven,
    Delay(u32),
    Denial,
    Certificate,
    CertificateImplicitly,
    OtherCertificate,
    Confirmation,
    OtherBody,
    /// The message that is out is lost, after so many losses.
    LostAfter(u32),
    Wake,
}

/// The first message of the transaction.
pub(crate) fn deal() -> Deal {
    Deal {
        tid: TID,
        nonce: FIRST,
    }
}

/// How often the message that is out was lost.
fn losses(told: Told) -> u32 {
    match told {
        Told::LostAfter(times) => times,
        _ => 3,
    }
}

/// The message that is out.
fn out(alloc: Global, told: Told) -> Result<Out, AllocError> {
    Ok(Out {
        octets: Octets::copy_of(alloc, MESSAGE)?,
        nonce: LATEST,
        lost: losses(told),
    })
}

/// A device that has come so far.
pub(crate) fn stage(alloc: Global, at: At, told: Told) -> Result<Stage, AllocError> {
    let out = out(alloc, told)?;
    Ok(match at {
        At::Start => Stage::Start,
        At::Asked => Stage::Talks(out, Phase::Asked),
        At::Polling => Stage::Talks(out, Phase::Polling),
        At::Confirming => Stage::Talks(out, Phase::Confirming(Octets::copy_of(alloc, CERT)?)),
        At::Rejecting => Stage::Talks(out, Phase::Rejecting),
        At::Waits => Stage::Waits(Some(Octets::copy_of(alloc, &ANSWER)?)),
        At::Ended => Stage::Ended,
    })
}

/// What the body of a reply says.
fn word(alloc: Global, told: Told) -> Result<Word, AllocError> {
    Ok(match told {
        Told::Error => Word::Errs(Some(FailInfo::BadPop)),
        Told::Delay(seconds) => Word::Delays(seconds),
        Told::Denial => Word::Denies,
        Told::ToTheFirst | Told::Certificate | Told::CertificateImplicitly => Word::Issues {
            cert: Octets::copy_of(alloc, CERT)?,
            is_asked_for: true,
        },
        Told::OtherCertificate => Word::Issues {
            cert: Octets::copy_of(alloc, CERT)?,
            is_asked_for: false,
        },
        Told::OtherBody => Word::SaysOther,
        _ => Word::Confirms,
    })
}

/// What a reply says.
fn heard(alloc: Global, told: Told) -> Result<Heard, AllocError> {
    let tid = match told {
        Told::OtherTransaction => [9; 16],
        _ => TID,
    };
    let answers = match told {
        Told::NoAnswer => [9; 16],
        Told::ToTheFirst => FIRST,
        _ => LATEST,
    };
    Ok(Heard {
        is_message: told != Told::Garbage,
        tid: Some(Octets::copy_of(alloc, &tid)?),
        nonce: Some(Octets::copy_of(alloc, &ANSWER)?),
        answers: Some(Octets::copy_of(alloc, &answers)?),
        verifies: told != Told::Unproven && told != Told::Error,
        is_implicit: told == Told::CertificateImplicitly,
        word: word(alloc, told)?,
    })
}

/// What happens to a device.
pub(crate) fn event(alloc: Global, told: Told) -> Result<Event, AllocError> {
    Ok(match told {
        Told::Begin => Event::Begin,
        Told::LostAfter(_) => Event::Lost,
        Told::Wake => Event::Wake,
        _ => Event::Hears(heard(alloc, told)?),
    })
}
