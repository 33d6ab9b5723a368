//! The bodies of a device's messages.
ghost use Rattle.std.specs.Prelude.{◌≡◌, ◌≢◌, ◌+◌, ◌*◌, ◌%◌, ◌^◌, ◌<◌, ◌≤◌, List, length, Some, IfOk};
ghost use Rattle.der_base.specs.Element.{element};
ghost use Rattle.sha2.specs.Sha256.{sha256};
ghost use Rattle.pki_parts.specs.Polling.{poll_req_octets};
ghost use Rattle.pki_parts.specs.Confirmation.{confirm_octets};
ghost use Rattle.req_forms.specs.declared.wish.Proof.TheVariants.{Signature};
ghost use Rattle.reply_maker.specs.Replies.{reply_id};
ghost use Rattle.device_plan.specs.Plans.{IsPlan, list_limit};
ghost use Rattle.device_plan.specs.Speeches.{is_p10cr, proof_text_of, request_tag, request_inside, status_of, body_of};

use crate::plan::{Claim, DevicePlan};
use crate::wish::{is_p10cr, proof_text};
use cmp_values::Octets;
use deal_changes::Body4;
use der_base::Writer;
use device_table::{Speech, Verdict};
use pki_parts::{write_confirm, write_poll_req};
use req_forms::{Proof, write_around, write_p10};
use sha2::{Digest, Sha256};
use std::alloc::{AllocError, Global};

/// The tag of a request (RFC 9810, 5.1.2).
fn request_tag(body: Body4) -> u8
    ensures tag { result ≡ request_tag body }
    ensures low { result % 32 ≢ 31 }
{
    match body {
        Body4::Ir => 0xa0,
        Body4::Cr => 0xa2,
        Body4::P10cr => 0xa4,
        Body4::Kur => 0xa7,
    }
}

/// certReqId: 0, and -1 for PKCS #10 (RFC 9810, 5.3.4).
fn reply_id(body: Body4) -> i8
    ensures { result ≡ reply_id body }
{
    match body {
        Body4::P10cr => -1,
        _ => 0,
    }
}

/// PKIStatus (RFC 9810, 5.2.3).
fn status(verdict: Verdict) -> u8
    ensures { result ≡ status_of verdict }
{
    match verdict {
        Verdict::Accepts => 0,
        Verdict::Rejects => 2,
    }
}

/// The element of a content in the tag of a body.
#[tactic(auto, using(asn_types::proofs::LengthLemmas::short))]
fn tagged(alloc: Global, tag: u8, content: &[u8]) -> Result<Octets, AllocError>
    requires low { tag % 32 ≢ 31 }
    requires counted { length content.now + 8 < 2 ^ 32 }
    ensures written { IfOk result (λ octets. octets ≡ element tag content.now) }
    ensures short { IfOk result (λ octets. length octets ≤ length content.now + 6) }
{
    let mut writer = Writer::new(alloc);
    writer.put(tag, content)?;
    Ok(Octets::of(writer.finish()))
}

/// The request around what was signed.
#[tactic(auto, using(req_forms::proofs::SizeLemmas::around_size, req_forms::proofs::SizeLemmas::p10_size))]
fn request_inside(
    alloc: Global,
    body: Body4,
    text: &[u8],
    proof: &[u8],
) -> Result<Octets, AllocError>
    requires text { length text.now ≤ 2 * list_limit + 256 }
    requires proof { length proof.now ≤ list_limit }
    ensures written { IfOk result (λ octets. octets ≡ request_inside body text.now proof.now) }
    ensures short { IfOk result (λ octets. length octets ≤ 3 * list_limit + 512) }
{
    if is_p10cr(body) {
        write_p10(alloc, text, proof)
    } else {
        write_around(
            alloc,
            text,
            &Proof::Signature(Octets::copy_of(alloc, proof)?),
        )
    }
}

/// The request.
fn request(alloc: Global, plan: &DevicePlan, claim: &Claim) -> Result<Octets, AllocError>
    requires plan { IsPlan plan.now }
    requires proof { length claim.now.proof ≤ list_limit }
    ensures written { IfOk result (λ octets. octets ≡ element (request_tag plan.now.body) (request_inside plan.now.body (proof_text_of plan.now claim.now.key) claim.now.proof)) }
    ensures short { IfOk result (λ octets. length octets ≤ 3 * list_limit + 1024) }
{
    let text = proof_text(alloc, plan, &claim.key)?;
    let inside = request_inside(alloc, plan.body, text.as_slice(), claim.proof.as_slice())?;
    tagged(alloc, request_tag(plan.body), inside.as_slice())
}

/// A pollReq.
fn poll(alloc: Global, body: Body4) -> Result<Octets, AllocError>
    ensures written { IfOk result (λ octets. octets ≡ element 0xB9 (poll_req_octets (reply_id body))) }
    ensures short { IfOk result (λ octets. length octets ≤ 128) }
{
    let inside = write_poll_req(alloc, reply_id(body))?;
    tagged(alloc, 0xb9, inside.as_slice())
}

/// A certConf.
fn confirmation(
    alloc: Global,
    body: Body4,
    verdict: Verdict,
    cert: &[u8],
) -> Result<Octets, AllocError>
    ensures written { IfOk result (λ octets. octets ≡ element 0xB8 (confirm_octets (sha256 cert.now) (reply_id body) (Some (status_of verdict)))) }
    ensures short { IfOk result (λ octets. length octets ≤ 128) }
{
    let hash = Sha256::digest(cert);
    let inside = write_confirm(alloc, &hash, reply_id(body), Some(status(verdict)))?;
    tagged(alloc, 0xb8, inside.as_slice())
}

/// Writes the body of what a device says, whole (RFC 9810, 5.3). `AllocError` where memory runs out.
pub fn body(
    alloc: Global,
    plan: &DevicePlan,
    claim: &Claim,
    speech: &Speech,
) -> Result<Octets, AllocError>
    requires plan { IsPlan plan.now }
    requires proof { length claim.now.proof ≤ list_limit }
    ensures written { IfOk result (λ octets. octets ≡ body_of plan.now claim.now.key claim.now.proof speech.now) }
    ensures short { IfOk result (λ octets. length octets ≤ 3 * list_limit + 1024) }
{
    match speech {
        Speech::Requests => request(alloc, plan, claim),
        Speech::Polls(_) => poll(alloc, plan.body),
        Speech::Settles { verdict, cert, .. } => {
            confirmation(alloc, plan.body, *verdict, cert.as_slice())
        }
    }
}
