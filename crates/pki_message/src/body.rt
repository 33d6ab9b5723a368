//! Bodies.
ghost use Rattle.std.specs.Prelude.{◌≡◌, ℕ, List, Option};
ghost use Rattle.std.specs.List.{list_all};
ghost use Rattle.der_base.specs.Reading.{part_of};
ghost use Rattle.der_base.specs.Row.{items_of};
ghost use Rattle.der_base.specs.Values.{is_null};
ghost use Rattle.asn_fields.specs.Fields.{Gives};
ghost use Rattle.asn_types.specs.Rows.{passes};
ghost use Rattle.asn_types.specs.Template.{tested_at};
ghost use Rattle.pki_parts.specs.CertRep.{rep_of, rep_at};
ghost use Rattle.pki_parts.specs.Confirmation.{confirm_of, confirm_at};
ghost use Rattle.pki_parts.specs.Error.{error_of, error_at};
ghost use Rattle.pki_parts.specs.Polling.{poll_req_of, poll_rep_of, poll_req_at, poll_rep_at};
ghost use Rattle.pki_parts.specs.Revocation.{rev_req_of, rev_req_at};
ghost use Rattle.pki_parts.specs.Revoked.{rev_rep_of, rev_rep_at};

use asn_fields::{BadForm, sole};
use der_base::{Items, whole};
use pki_header::are_infos;
use pki_parts::{
    CertConfirm, CertRep, ErrorMsg, PollRep, PollReq, RevRep, RevReq, read_cert_rep, read_confirm,
    read_error, read_poll_rep, read_poll_req, read_rev_rep, read_rev_req,
};
use req_forms::{CrmfList, P10, read_crmf, read_p10};

/// The body of a message (RFC 9810, 5.1.2 and 5.3). Of nested messages and of general messages it is the content of their SEQUENCE.
#[derive(Clone, Copy, Debug)]
pub enum Body<'a> {
    /// An initialization request (5.3.1).
    Ir(CrmfList<'a>),
    /// An initialization response (5.3.2).
    Ip(CertRep<'a>),
    /// A certification request (5.3.3).
    Cr(CrmfList<'a>),
    /// A certification response (5.3.4).
    Cp(CertRep<'a>),
    /// A certification request of PKCS #10 (5.3.3).
    P10cr(P10<'a>),
    /// A key update request (5.3.5).
    Kur(CrmfList<'a>),
    /// A key update response (5.3.6).
    Kup(CertRep<'a>),
    /// A revocation request (5.3.9).
    Rr(RevReq<'a>),
    /// A revocation response (5.3.10).
    Rp(RevRep<'a>),
    /// A confirmation without content (5.3.17).
    PkiConf,
    /// Messages, one or more, which are not looked into (5.1.3.5).
    Nested(&'a [u8]),
    /// A general message (5.3.19).
    Genm(&'a [u8]),
    /// A general response (5.3.20).
    Genp(&'a [u8]),
    /// An error message (5.3.21).
    Error(ErrorMsg<'a>),
    /// A confirmation of certificates (5.3.18).
    CertConf(CertConfirm<'a>),
    /// A poll for what is not there yet (5.3.22).
    PollReq(PollReq<'a>),
    /// An answer to a poll (5.3.22).
    PollRep(PollRep<'a>),
    /// A body that is not looked into, by the number of its tag.
    Other(u8),
}

ghost use Rattle.pki_message.specs.Body.{body_of, is_sequence_part, are_sequences, all_infos, one_at, in_sequence, sequences_at, infos_at, nothing_at, other_at, last_body_at, middle_body_at, body_at};

/// Whether a content is a row of SEQUENCEs.
fn all_sequences(content: &[u8]) -> bool
    ensures { result ≡ list_all (passes is_sequence_part) (items_of content.now) }
{
    for item in Items::new(content) {
        let Ok(p) = item else {
            return false;
        };
        if p.tag != 0x30 {
            return false;
        }
    }
    true
}

/// One or more SEQUENCEs.
#[tactic(auto, unfolding(crate::specs::Body::are_sequences, asn_types::specs::Template::tested_at))]
fn sequences_inside(content: &[u8]) -> Result<&[u8], BadForm>
    ensures { Gives (λ octets. octets.now) result (tested_at are_sequences content.now) }
{
    if content.is_empty() || !all_sequences(content) {
        return Err(BadForm);
    }
    Ok(content)
}

/// The content of a SEQUENCE of one or more SEQUENCEs that stands alone.
fn sequences(bytes: &[u8]) -> Result<&[u8], BadForm>
    ensures { Gives (λ octets. octets.now) result (sequences_at bytes.now) }
{
    let element = sole(0x30, bytes)?;
    sequences_inside(element.content)
}

/// A row of general information.
#[tactic(auto, unfolding(asn_types::specs::Template::tested_at))]
fn infos_inside(content: &[u8]) -> Result<&[u8], BadForm>
    ensures { Gives (λ octets. octets.now) result (tested_at all_infos content.now) }
{
    if are_infos(content) {
        Ok(content)
    } else {
        Err(BadForm)
    }
}

/// The content of a SEQUENCE of general information that stands alone.
fn infos(bytes: &[u8]) -> Result<&[u8], BadForm>
    ensures { Gives (λ octets. octets.now) result (infos_at bytes.now) }
{
    let element = sole(0x30, bytes)?;
    infos_inside(element.content)
}

/// No octets.
#[tactic(auto, unfolding(asn_types::specs::Template::tested_at))]
fn nothing_inside(content: &[u8]) -> Result<&[u8], BadForm>
    ensures { Gives (λ octets. octets.now) result (tested_at is_null content.now) }
{
    if content.is_empty() {
        Ok(content)
    } else {
        Err(BadForm)
    }
}

/// A NULL that stands alone.
fn nothing(bytes: &[u8]) -> Result<&[u8], BadForm>
    ensures { Gives (λ octets. octets.now) result (nothing_at bytes.now) }
{
    let element = sole(0x05, bytes)?;
    nothing_inside(element.content)
}

/// Replies that stand alone.
fn replies(bytes: &[u8]) -> Result<CertRep<'_>, BadForm>
    ensures { Gives rep_of result (one_at (in_sequence rep_at) bytes.now) }
{
    let element = whole(bytes)?;
    read_cert_rep(&element)
}

/// Requests to revoke that stand alone.
fn revocations(bytes: &[u8]) -> Result<RevReq<'_>, BadForm>
    ensures { Gives rev_req_of result (one_at rev_req_at bytes.now) }
{
    let element = whole(bytes)?;
    read_rev_req(&element)
}

/// Responses to them that stand alone.
fn revoked(bytes: &[u8]) -> Result<RevRep<'_>, BadForm>
    ensures { Gives rev_rep_of result (one_at rev_rep_at bytes.now) }
{
    let element = whole(bytes)?;
    read_rev_rep(&element)
}

/// An error message that stands alone.
fn error(bytes: &[u8]) -> Result<ErrorMsg<'_>, BadForm>
    ensures { Gives error_of result (one_at (in_sequence error_at) bytes.now) }
{
    let element = whole(bytes)?;
    read_error(&element)
}

/// Confirmations that stand alone.
fn confirmations(bytes: &[u8]) -> Result<CertConfirm<'_>, BadForm>
    ensures { Gives confirm_of result (one_at confirm_at bytes.now) }
{
    let element = whole(bytes)?;
    read_confirm(&element)
}

/// Polls that stand alone.
fn polls(bytes: &[u8]) -> Result<PollReq<'_>, BadForm>
    ensures { Gives poll_req_of result (one_at poll_req_at bytes.now) }
{
    let element = whole(bytes)?;
    read_poll_req(&element)
}

/// Answers to them that stand alone.
fn answers(bytes: &[u8]) -> Result<PollRep<'_>, BadForm>
    ensures { Gives poll_rep_of result (one_at poll_rep_at bytes.now) }
{
    let element = whole(bytes)?;
    read_poll_rep(&element)
}

/// A body of a tag that is not looked into: one element of any form.
#[tactic(auto, unfolding(crate::specs::Body::other_at))]
fn other(tag: u8, inside: &[u8]) -> Result<Body<'_>, BadForm>
    ensures { Gives body_of result (other_at tag inside.now) }
{
    match tag {
        5 | 6 | 9 | 10 | 13..=18 => {
            whole(inside)?;
            Ok(Body::Other(tag))
        }
        _ => Err(BadForm),
    }
}

/// A body of a tag from 21 on, or one that is not looked into.
#[tactic(auto, unfolding(crate::specs::Body::last_body_at))]
fn last_body(tag: u8, inside: &[u8]) -> Result<Body<'_>, BadForm>
    ensures { Gives body_of result (last_body_at tag inside.now) }
{
    match tag {
        21 => Ok(Body::Genm(infos(inside)?)),
        22 => Ok(Body::Genp(infos(inside)?)),
        23 => Ok(Body::Error(error(inside)?)),
        24 => Ok(Body::CertConf(confirmations(inside)?)),
        25 => Ok(Body::PollReq(polls(inside)?)),
        26 => Ok(Body::PollRep(answers(inside)?)),
        _ => other(tag, inside),
    }
}

/// A body of a tag from 7 on.
#[tactic(auto, unfolding(crate::specs::Body::middle_body_at))]
fn middle_body(tag: u8, inside: &[u8]) -> Result<Body<'_>, BadForm>
    ensures { Gives body_of result (middle_body_at tag inside.now) }
{
    match tag {
        7 => Ok(Body::Kur(read_crmf(inside)?)),
        8 => Ok(Body::Kup(replies(inside)?)),
        11 => Ok(Body::Rr(revocations(inside)?)),
        12 => Ok(Body::Rp(revoked(inside)?)),
        19 => {
            nothing(inside)?;
            Ok(Body::PkiConf)
        }
        20 => Ok(Body::Nested(sequences(inside)?)),
        _ => last_body(tag, inside),
    }
}

/// Reads the body of the alternative with this number, by what stands inside its tag (RFC 9810, 5.1.2).
#[tactic(auto, unfolding(crate::specs::Body::body_at))]
pub(crate) fn read_body(tag: u8, inside: &[u8]) -> Result<Body<'_>, BadForm>
    ensures { Gives body_of result (body_at tag inside.now) }
{
    match tag {
        0 => Ok(Body::Ir(read_crmf(inside)?)),
        1 => Ok(Body::Ip(replies(inside)?)),
        2 => Ok(Body::Cr(read_crmf(inside)?)),
        3 => Ok(Body::Cp(replies(inside)?)),
        4 => Ok(Body::P10cr(read_p10(inside)?)),
        _ => middle_body(tag, inside),
    }
}
