//! The bodies of replies.
ghost use Rattle.std.specs.Prelude.{◌≡◌, ◌≢◌, ℕ, ◌+◌, ◌%◌, ◌^◌, ◌<◌, ◌≤◌, [], length, Some, None, IfOk, codes};
ghost use Rattle.std.specs.Option.{option_copied};
ghost use Rattle.der_base.specs.Element.{element};
ghost use Rattle.pki_parts.specs.Status.{option_size};
ghost use Rattle.pki_parts.specs.Polling.{poll_rep_octets};
ghost use Rattle.reply_maker.specs.Replies.{reply_tag, reply_id, status_octets, response_body, granted_status, waiting_body, denied_body, confirmed_body, revoked_body};

use cmp_ports::{FailInfo, Octets};
use deal_model::Body4;
use der_base::Writer;
use pki_parts::{write_cert_rep, write_poll_rep, write_rev_rep, write_status};
use std::alloc::{AllocError, Global};

/// The tag of the reply to a request (RFC 9810, 5.1.2).
fn reply_tag(body: Body4) -> u8
    ensures { result ≡ reply_tag body }
{
    match body {
        Body4::Ir => 0xa1,
        Body4::Cr => 0xa3,
        Body4::P10cr => 0xa3,
        Body4::Kur => 0xa8,
    }
}

/// certReqId: 0, and -1 for PKCS #10 (RFC 9810, 5.3.4).
fn reply_id(body: Body4) -> i8
    ensures { result ≡ reply_id body }
{
    match body {
        Body4::P10cr => -1,
        _ => 0,
    }
}

/// The element of a content in the tag of a body.
#[tactic(auto, using(asn_types::proofs::LengthLemmas::short))]
fn tagged(alloc: Global, tag: u8, content: &[u8]) -> Result<Octets, AllocError>
    requires low { tag % 32 ≢ 31 }
    requires counted { length content.now + 8 < 2 ^ 32 }
    ensures written { IfOk result (λ octets. octets ≡ element tag content.now) }
    ensures short { IfOk result (λ octets. length octets ≤ length content.now + 6) }
{
    let mut writer = Writer::new(alloc);
    writer.put(tag, content)?;
    Ok(Octets::of(writer.finish()))
}

/// The reply to a request, with one response.
fn response_body(
    alloc: Global,
    body: Body4,
    ca_pubs: Option<&[u8]>,
    status: &[u8],
    cert: Option<&[u8]>,
) -> Result<Octets, AllocError>
    requires counted { option_size (option_copied ca_pubs) + length status.now + option_size (option_copied cert) + 128 < 2 ^ 32 }
    ensures written { IfOk result (λ octets. octets ≡ response_body body (option_copied ca_pubs.entry) status.now (option_copied cert.entry)) }
    ensures short { IfOk result (λ octets. length octets ≤ option_size (option_copied ca_pubs.entry) + length status.now + option_size (option_copied cert.entry) + 128) }
{
    let rep = write_cert_rep(alloc, ca_pubs, reply_id(body), status, cert)?;
    tagged(alloc, reply_tag(body), rep.as_slice())
}

/// The reply to a request that is held: waiting.
pub(crate) fn waiting_body(alloc: Global, body: Body4) -> Result<Octets, AllocError>
    ensures written { IfOk result (λ octets. octets ≡ waiting_body body) }
    ensures short { IfOk result (λ octets. length octets ≤ 512) }
{
    let status = write_status(alloc, 3, None, None)?;
    response_body(alloc, body, None, status.as_slice(), None)
}

/// The reply to a request that was denied: a rejection.
pub(crate) fn denied_body(alloc: Global, body: Body4) -> Result<Octets, AllocError>
    ensures written { IfOk result (λ octets. octets ≡ denied_body body) }
    ensures short { IfOk result (λ octets. length octets ≤ 512) }
{
    let status = write_status(alloc, 2, Some(b"denied"), Some(FailInfo::NotAuthorized))?;
    response_body(alloc, body, None, status.as_slice(), None)
}

/// The confirmation of a certConf: NULL.
pub(crate) fn confirmed_body(alloc: Global) -> Result<Octets, AllocError>
    ensures written { IfOk result (λ octets. octets ≡ confirmed_body) }
    ensures short { IfOk result (λ octets. length octets ≤ 512) }
{
    let null = tagged(alloc, 0x05, &[])?;
    tagged(alloc, 0xb3, null.as_slice())
}

/// The reply to a revocation: accepted.
pub(crate) fn revoked_body(alloc: Global) -> Result<Octets, AllocError>
    ensures written { IfOk result (λ octets. octets ≡ revoked_body) }
    ensures short { IfOk result (λ octets. length octets ≤ 512) }
{
    let status = write_status(alloc, 0, None, None)?;
    let rep = write_rev_rep(alloc, status.as_slice())?;
    tagged(alloc, 0xac, rep.as_slice())
}

/// The reply to a pollReq: not yet, and after how many seconds to ask again.
pub(crate) fn polled_body(alloc: Global, body: Body4, after: u32) -> Result<Octets, AllocError>
    ensures written { IfOk result (λ octets. octets ≡ element 0xBA (poll_rep_octets (reply_id body) after)) }
    ensures short { IfOk result (λ octets. length octets ≤ 512) }
{
    let rep = write_poll_rep(alloc, reply_id(body), after)?;
    tagged(alloc, 0xba, rep.as_slice())
}

/// The reply to a request that was granted: the certificate, and the authority's own where it is to be there.
pub(crate) fn granted_body(
    alloc: Global,
    body: Body4,
    mods: bool,
    root: Option<&[u8]>,
    cert: &[u8],
) -> Result<Octets, AllocError>
    requires counted { option_size (option_copied root) + length cert.now + 1024 < 2 ^ 32 }
    ensures written { IfOk result (λ octets. octets ≡ response_body body (option_copied root.entry) (status_octets (granted_status mods) None None) (Some cert.now)) }
    ensures short { IfOk result (λ octets. length octets ≤ option_size (option_copied root.entry) + length cert.now + 512) }
{
    let status = write_status(alloc, if mods { 1 } else { 0 }, None, None)?;
    response_body(alloc, body, root, status.as_slice(), Some(cert))
}
