//! The table, computed.
ghost use Rattle.std.specs.Prelude.{◌≡◌, ℕ, ◌+◌, ◌<◌, List, Option, IfOk, if◌then◌else◌};
ghost use Rattle.device_table.specs.Table.{is_some_of, is_answer, issued_deed, asked_deed, settled_deed, trusted_deed, worded_deed, heard_deed, lost_deed, talking_deed, starting_deed, waiting_deed, deed};
ghost use Rattle.device_table.specs.declared.deeds.Deed.{Deed};
ghost use Rattle.device_table.specs.declared.deeds.Deed.TheVariants.{Wins, Fails};

use crate::deeds::{Cause, Deed, Speech, Verdict};
use crate::event::{Event, Heard, Word};
use crate::stage::{Deal, Out, Phase, Stage};
use cmp_values::Octets;
use std::alloc::{AllocError, Global};

/// How often one message is sent at most.
pub const SEND_LIMIT: u32 = 8;

/// A copy of octets that may stand.
fn copied(alloc: Global, octets: &Option<Octets>) -> Result<Option<Octets>, AllocError>
    ensures { IfOk result (λ o. o ≡ octets.now) }
{
    match octets {
        Some(octets) => Ok(Some(Octets::copy_of(alloc, octets.as_slice())?)),
        None => Ok(None),
    }
}

/// A copy of a phase.
fn phase_copied(alloc: Global, phase: &Phase) -> Result<Phase, AllocError>
    ensures { IfOk result (λ p. p ≡ phase.now) }
{
    match phase {
        Phase::Asked => Ok(Phase::Asked),
        Phase::Polling => Ok(Phase::Polling),
        Phase::Confirming(cert) => Ok(Phase::Confirming(Octets::copy_of(alloc, cert.as_slice())?)),
        Phase::Rejecting => Ok(Phase::Rejecting),
    }
}

/// Whether octets stand, and are these.
fn is_some_of(octets: &Option<Octets>, other: &[u8]) -> bool
    ensures { result ≡ is_some_of octets.now other.now }
{
    match octets {
        Some(octets) => octets.as_slice() == other,
        None => false,
    }
}

/// Whether a reply answers the message that is out.
fn is_answer(deal: &Deal, out: &Out, phase: &Phase, heard: &Heard) -> bool
    ensures { result ≡ is_answer deal.now out.now phase.now heard.now }
{
    match phase {
        Phase::Asked => is_some_of(&heard.answers, &out.nonce),
        Phase::Polling => {
            is_some_of(&heard.answers, &out.nonce) || is_some_of(&heard.answers, &deal.nonce)
        }
        Phase::Confirming(_) => is_some_of(&heard.answers, &out.nonce),
        Phase::Rejecting => is_some_of(&heard.answers, &out.nonce),
    }
}

/// The certConf of a certificate that was asked for.
fn confirms(alloc: Global, cert: &[u8], heard: &Heard) -> Result<Deed, AllocError>
    ensures { IfOk result (λ d. d ≡ Deed.Says (Speech.Settles Verdict.Accepts cert.now heard.now.nonce) (Phase.Confirming cert.now)) }
{
    let speech = Speech::Settles {
        verdict: Verdict::Accepts,
        cert: Octets::copy_of(alloc, cert)?,
        nonce: copied(alloc, &heard.nonce)?,
    };
    Ok(Deed::Says(speech, Phase::Confirming(Octets::copy_of(alloc, cert)?)))
}

/// The certConf of another certificate.
fn rejects(alloc: Global, cert: &[u8], heard: &Heard) -> Result<Deed, AllocError>
    ensures { IfOk result (λ d. d ≡ Deed.Says (Speech.Settles Verdict.Rejects cert.now heard.now.nonce) Phase.Rejecting) }
{
    let speech = Speech::Settles {
        verdict: Verdict::Rejects,
        cert: Octets::copy_of(alloc, cert)?,
        nonce: copied(alloc, &heard.nonce)?,
    };
    Ok(Deed::Says(speech, Phase::Rejecting))
}

/// It ends with a certificate.
fn wins(alloc: Global, cert: &[u8]) -> Result<Deed, AllocError>
    ensures { IfOk result (λ d. d ≡ Deed.Wins cert.now) }
{
    Ok(Deed::Wins(Octets::copy_of(alloc, cert)?))
}

/// What a certificate is answered with.
fn issued_deed(
    alloc: Global,
    cert: &[u8],
    is_asked_for: bool,
    heard: &Heard,
) -> Result<Deed, AllocError>
    ensures { IfOk result (λ d. d ≡ issued_deed cert.now is_asked_for heard.now) }
{
    if !is_asked_for {
        rejects(alloc, cert, heard)
    } else if heard.is_implicit {
        wins(alloc, cert)
    } else {
        confirms(alloc, cert, heard)
    }
}

/// What the reply to a request or a pollReq is answered with.
fn asked_deed(alloc: Global, word: &Word, heard: &Heard) -> Result<Deed, AllocError>
    ensures { IfOk result (λ d. d ≡ asked_deed word.now heard.now) }
{
    match word {
        Word::Errs(_) => Ok(Deed::Fails(Cause::BadReply)),
        Word::Delays(seconds) => Ok(Deed::Rests(*seconds, copied(alloc, &heard.nonce)?)),
        Word::Denies => Ok(Deed::Fails(Cause::Denied)),
        Word::Issues { cert, is_asked_for } => {
            issued_deed(alloc, cert.as_slice(), *is_asked_for, heard)
        }
        Word::Confirms => Ok(Deed::Fails(Cause::BadReply)),
        Word::SaysOther => Ok(Deed::Fails(Cause::BadReply)),
    }
}

/// Whether a body is the one that accepts a certConf.
fn is_accepted(word: &Word) -> bool
    ensures { (done : Deed) → settled_deed done word.now ≡ (if result then done else Fails Cause.BadReply) }
{
    match word {
        Word::Confirms => true,
        Word::Errs(_) => false,
        Word::Delays(_) => false,
        Word::Denies => false,
        Word::Issues { .. } => false,
        Word::SaysOther => false,
    }
}

/// What the reply to a certConf is answered with that accepts this certificate.
fn confirmed_deed(alloc: Global, cert: &[u8], word: &Word) -> Result<Deed, AllocError>
    ensures { IfOk result (λ d. d ≡ settled_deed (Wins cert.now) word.now) }
{
    if is_accepted(word) {
        wins(alloc, cert)
    } else {
        Ok(Deed::Fails(Cause::BadReply))
    }
}

/// What the reply to a certConf is answered with that rejects a certificate.
fn rejected_deed(word: &Word) -> Deed
    ensures { result ≡ settled_deed (Fails Cause.BadCertificate) word.now }
{
    if is_accepted(word) {
        Deed::Fails(Cause::BadCertificate)
    } else {
        Deed::Fails(Cause::BadReply)
    }
}

/// What a reply is answered with whose protection holds.
fn trusted_deed(alloc: Global, phase: &Phase, heard: &Heard) -> Result<Deed, AllocError>
    ensures { IfOk result (λ d. d ≡ trusted_deed phase.now heard.now) }
{
    match phase {
        Phase::Asked => asked_deed(alloc, &heard.word, heard),
        Phase::Polling => asked_deed(alloc, &heard.word, heard),
        Phase::Confirming(cert) => confirmed_deed(alloc, cert.as_slice(), &heard.word),
        Phase::Rejecting => Ok(rejected_deed(&heard.word)),
    }
}

/// What a reply is answered with to the message that is out.
fn worded_deed(alloc: Global, phase: &Phase, heard: &Heard) -> Result<Deed, AllocError>
    ensures { IfOk result (λ d. d ≡ worded_deed phase.now heard.now heard.now.word) }
{
    if let Word::Errs(reason) = &heard.word {
        return Ok(Deed::Fails(Cause::Refused(*reason)));
    }
    if heard.verifies {
        trusted_deed(alloc, phase, heard)
    } else {
        Ok(Deed::Fails(Cause::BadProtection))
    }
}

/// What a reply is answered with.
fn heard_deed(
    alloc: Global,
    deal: &Deal,
    out: &Out,
    phase: &Phase,
    heard: &Heard,
) -> Result<Deed, AllocError>
    ensures { IfOk result (λ d. d ≡ heard_deed deal.now out.now phase.now heard.now) }
{
    if !heard.is_message {
        Ok(Deed::Fails(Cause::BadReply))
    } else if !is_some_of(&heard.tid, &deal.tid) || !is_answer(deal, out, phase, heard) {
        Ok(Deed::Keeps)
    } else {
        worded_deed(alloc, phase, heard)
    }
}

/// What is done where no reply came.
fn lost_deed(alloc: Global, out: &Out, phase: &Phase) -> Result<Deed, AllocError>
    ensures { IfOk result (λ d. d ≡ lost_deed out.now phase.now) }
{
    if out.lost >= SEND_LIMIT - 1 {
        return Ok(Deed::Fails(Cause::Silent));
    }
    let again = Out {
        octets: Octets::copy_of(alloc, out.octets.as_slice())?,
        nonce: out.nonce,
        lost: out.lost + 1,
    };
    Ok(Deed::Repeats(again, phase_copied(alloc, phase)?))
}

/// What is done while a message is out.
fn talking_deed(
    alloc: Global,
    deal: &Deal,
    out: &Out,
    phase: &Phase,
    event: &Event,
) -> Result<Deed, AllocError>
    ensures { IfOk result (λ d. d ≡ talking_deed deal.now out.now phase.now event.now) }
{
    match event {
        Event::Begin => Ok(Deed::Keeps),
        Event::Hears(heard) => heard_deed(alloc, deal, out, phase, heard),
        Event::Lost => lost_deed(alloc, out, phase),
        Event::Wake => Ok(Deed::Keeps),
    }
}

/// What is done at the start.
fn starting_deed(event: &Event) -> Deed
    ensures { result ≡ starting_deed event.now }
{
    match event {
        Event::Begin => Deed::Says(Speech::Requests, Phase::Asked),
        Event::Hears(_) => Deed::Keeps,
        Event::Lost => Deed::Keeps,
        Event::Wake => Deed::Keeps,
    }
}

/// What is done while a request waits.
fn waiting_deed(alloc: Global, nonce: &Option<Octets>, event: &Event) -> Result<Deed, AllocError>
    ensures { IfOk result (λ d. d ≡ waiting_deed nonce.now event.now) }
{
    match event {
        Event::Begin => Ok(Deed::Keeps),
        Event::Hears(_) => Ok(Deed::Keeps),
        Event::Lost => Ok(Deed::Keeps),
        Event::Wake => Ok(Deed::Says(Speech::Polls(copied(alloc, nonce)?), Phase::Polling)),
    }
}

/// What a device does next, by the transaction, how far it has come and what it is told. `AllocError` where memory runs out.
pub fn deed(alloc: Global, deal: &Deal, stage: &Stage, event: &Event) -> Result<Deed, AllocError>
    ensures { IfOk result (λ d. d ≡ deed deal.now stage.now event.now) }
{
    match stage {
        Stage::Start => Ok(starting_deed(event)),
        Stage::Talks(out, phase) => talking_deed(alloc, deal, out, phase, event),
        Stage::Waits(nonce) => waiting_deed(alloc, nonce, event),
        Stage::Ended => Ok(Deed::Keeps),
    }
}
