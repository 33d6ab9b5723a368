//! What a request asks for, and what its proof signs.
ghost use Rattle.std.specs.Prelude.{◌≡◌, ◌+◌, ◌*◌, ◌^◌, ◌<◌, ◌≤◌, [], length, IfOk};
ghost use Rattle.der_base.specs.Element.{element};
ghost use Rattle.cert_maker.specs.Plans.{own_spki};
ghost use Rattle.device_plan.specs.Plans.{IsPlan, list_limit};
ghost use Rattle.device_plan.specs.Speeches.{is_p10cr, wish_of, proof_text_of};

use crate::holder::old;
use crate::plan::DevicePlan;
use asn_types::{AlgorithmId, HSS_LMS, write_spki};
use cmp_values::Octets;
use deal_changes::Body4;
use req_forms::{CrmfWish, Proof, write_p10_info, write_request};
use std::alloc::{AllocError, Global};

/// The SubjectPublicKeyInfo of an HSS key.
#[tactic(auto, using(asn_types::proofs::LengthLemmas::short))]
fn own_spki(alloc: Global, key: &[u8; 60]) -> Result<Octets, AllocError>
    ensures written { IfOk result (λ octets. octets ≡ own_spki key.now) }
    ensures short { IfOk result (λ octets. length octets ≤ 128) }
{
    let alg = AlgorithmId {
        oid: HSS_LMS,
        params: None,
    };
    write_spki(alloc, &alg, key)
}

/// Whether a request has the form of PKCS #10.
pub(crate) fn is_p10cr(body: Body4) -> bool
    ensures { result ≡ is_p10cr body }
{
    match body {
        Body4::P10cr => true,
        Body4::Ir => false,
        Body4::Cr => false,
        Body4::Kur => false,
    }
}

/// What a request asks for.
fn wish(alloc: Global, plan: &DevicePlan, key: &[u8; 60]) -> Result<CrmfWish, AllocError>
    requires { IsPlan plan.now }
    ensures written { IfOk result (λ w. w ≡ wish_of plan.now key.now) }
    ensures short { IfOk result (λ w. length w.subject + length w.spki + length w.exts + length w.issuer ≤ 2 * list_limit + 128) }
{
    Ok(CrmfWish {
        subject: Octets::copy_of(alloc, plan.subject.as_slice())?,
        spki: own_spki(alloc, key)?,
        exts: Octets::empty(alloc),
        old: old(plan),
        issuer: Octets::copy_of(alloc, plan.ca.as_slice())?,
        proof: Proof::RaVerified,
    })
}

/// Writes what a proof of possession signs for a key: the CertRequest (RFC 4211, 4.1), and for a p10cr its info (RFC 2986, 4.2). The octets
/// are a function of the plan and the key. `AllocError` where memory runs out.
#[tactic(auto, using(req_forms::proofs::SizeLemmas::whole_request_size, req_forms::proofs::SizeLemmas::info_size))]
pub fn proof_text(alloc: Global, plan: &DevicePlan, key: &[u8; 60]) -> Result<Octets, AllocError>
    requires { IsPlan plan.now }
    ensures written { IfOk result (λ text. text ≡ proof_text_of plan.now key.now) }
    ensures short { IfOk result (λ text. length text ≤ 2 * list_limit + 256) }
{
    let asked = wish(alloc, plan, key)?;
    if is_p10cr(plan.body) {
        write_p10_info(alloc, &asked)
    } else {
        write_request(alloc, &asked)
    }
}
