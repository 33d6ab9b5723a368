//! What the body of a reply says.
ghost use Rattle.std.specs.Prelude.{◌≡◌, Option, Some, None, IfOk, option_map};
ghost use Rattle.std.specs.Option.{option_copied};
ghost use Rattle.pki_parts.specs.CertRep.{rep_of, shown_by};
ghost use Rattle.pki_parts.specs.Error.{error_of};
ghost use Rattle.pki_parts.specs.Polling.{poll_rep_of};
ghost use Rattle.pki_message.specs.Body.{body_of};
ghost use Rattle.device_hearing.specs.Hearing.{IsReason, delay_of, poll_word, sole_in, ip_in, cp_in, kup_in, rep_in, IsGiving, IsResponse, IsReply, IsWord};

use crate::asked::is_asked_for;
use crate::listener::Listener;
use crate::numbers::number;
use crate::status::{Status, status_in};
use cmp_values::{FailInfo, Octets};
use deal_changes::Body4;
use device_table::Word;
use pki_message::Body;
use pki_parts::{CertRep, CertResponse, ErrorMsg, PollRep, first_reason};
use std::alloc::{AllocError, Global};

/// The reason of an error.
fn reason(error: &ErrorMsg) -> Option<FailInfo>
    ensures { IsReason (error_of error.now).status.fail result }
{
    match &error.status.fail {
        Some(bits) => first_reason(bits),
        None => None,
    }
}

/// What a number of seconds says.
fn delay(seconds: Option<u64>) -> Word
    ensures { result ≡ delay_of seconds }
{
    match seconds {
        Some(seconds) if seconds <= u64::from(u32::MAX) => Word::Delays(seconds as u32),
        _ => Word::SaysOther,
    }
}

/// What a pollRep says.
fn polled(rep: &PollRep) -> Word
    ensures { result ≡ poll_word (sole_in (poll_rep_of rep.now)) }
{
    match rep.first {
        Some(entry) if rep.count == 1 => delay(number(entry.after)),
        _ => Word::SaysOther,
    }
}

/// What the certificate of a response says.
fn given(
    alloc: Global,
    listener: &Listener,
    ca_pubs: Option<&[u8]>,
    cert: Option<&[u8]>,
) -> Result<Word, AllocError>
    ensures { IfOk result (IsGiving listener.now (option_copied ca_pubs.entry) (option_copied cert.entry)) }
{
    let Some(cert) = cert else {
        return Ok(Word::SaysOther);
    };
    let is_asked_for = is_asked_for(listener, ca_pubs, cert);
    Ok(Word::Issues {
        cert: Octets::copy_of(alloc, cert)?,
        is_asked_for,
    })
}

/// What a response says, by its status (RFC 9810, 5.2.3).
fn responded(
    alloc: Global,
    listener: &Listener,
    ca_pubs: Option<&[u8]>,
    response: &CertResponse,
) -> Result<Word, AllocError>
    ensures { IfOk result (IsResponse listener.now (option_copied ca_pubs.entry) (Some (shown_by response.now))) }
{
    match status_in(response.status.status) {
        Status::Granted => given(alloc, listener, ca_pubs, response.cert),
        Status::Rejected => Ok(Word::Denies),
        Status::Waiting => Ok(Word::Delays(1)),
        Status::Other => Ok(Word::SaysOther),
    }
}

/// What the reply to a request says.
fn replied(alloc: Global, listener: &Listener, rep: &CertRep) -> Result<Word, AllocError>
    ensures { IfOk result (IsReply listener.now (Some (rep_of rep.now))) }
{
    match &rep.first {
        Some(response) if rep.count == 1 => responded(alloc, listener, rep.ca_pubs, response),
        _ => Ok(Word::SaysOther),
    }
}

/// The content of an ip.
fn ip_in<'a>(body: &Body<'a>) -> Option<CertRep<'a>>
    ensures { option_map rep_of result ≡ ip_in (body_of body.now) }
{
    match body {
        Body::Ip(rep) => Some(*rep),
        _ => None,
    }
}

/// The content of a cp.
fn cp_in<'a>(body: &Body<'a>) -> Option<CertRep<'a>>
    ensures { option_map rep_of result ≡ cp_in (body_of body.now) }
{
    match body {
        Body::Cp(rep) => Some(*rep),
        _ => None,
    }
}

/// The content of a kup.
fn kup_in<'a>(body: &Body<'a>) -> Option<CertRep<'a>>
    ensures { option_map rep_of result ≡ kup_in (body_of body.now) }
{
    match body {
        Body::Kup(rep) => Some(*rep),
        _ => None,
    }
}

/// The reply to a request in a body.
fn rep_in<'a>(request: Body4, body: &Body<'a>) -> Option<CertRep<'a>>
    ensures { option_map rep_of result ≡ rep_in request (body_of body.now) }
{
    match request {
        Body4::Ir => ip_in(body),
        Body4::Cr => cp_in(body),
        Body4::P10cr => cp_in(body),
        Body4::Kur => kup_in(body),
    }
}

/// What another body says than an error, a pkiconf or a pollRep.
fn answered(alloc: Global, listener: &Listener, body: &Body) -> Result<Word, AllocError>
    ensures { IfOk result (IsReply listener.now (rep_in listener.now.request (body_of body.now))) }
{
    match rep_in(listener.request, body) {
        Some(rep) => replied(alloc, listener, &rep),
        None => Ok(Word::SaysOther),
    }
}

/// What a body says.
pub(crate) fn word(alloc: Global, listener: &Listener, body: &Body) -> Result<Word, AllocError>
    ensures { IfOk result (IsWord listener.now (body_of body.now)) }
{
    match body {
        Body::Error(error) => Ok(Word::Errs(reason(error))),
        Body::PkiConf => Ok(Word::Confirms),
        Body::PollRep(rep) => Ok(polled(rep)),
        _ => answered(alloc, listener, body),
    }
}
