//! The plans of the service's own certificates.
ghost use Rattle.std.specs.Prelude.{◌≡◌, ℕ, ◌+◌, ◌≤◌, ◌++◌, length, IfOk, codes};
ghost use Rattle.asn_types.specs.Name.{common_name};
ghost use Rattle.cert_maker.specs.Plans.{ca_name, reply_name, own_spki, root_plan, reply_plan, no_end};

use crate::extensions::{reply_extensions, root_extensions};
use asn_types::{AlgorithmId, HSS_LMS, write_cn, write_spki};
use cmp_values::Octets;
use deal_model::Brief;
use std::alloc::{AllocError, Global};
use x509_cert::CertPlan;

/// The last second of the year 9999.
const NO_END: u64 = 253_402_300_799;

/// The name of the authority.
#[tactic(auto, using(asn_types::proofs::LengthLemmas::short))]
pub(crate) fn ca_name(alloc: Global, keys: &Brief) -> Result<Octets, AllocError>
    ensures written { IfOk result (λ octets. octets ≡ ca_name keys.now) }
    ensures short { IfOk result (λ octets. length octets ≤ 128) }
{
    write_cn(alloc, keys.name.as_slice())
}

/// The name that replies are signed under.
#[tactic(auto, using(asn_types::proofs::LengthLemmas::short))]
fn reply_name(alloc: Global, keys: &Brief) -> Result<Octets, AllocError>
    ensures written { IfOk result (λ octets. octets ≡ reply_name keys.now) }
    ensures short { IfOk result (λ octets. length octets ≤ 128) }
{
    let mut text = Octets::copy_of(alloc, keys.name.as_slice())?;
    text.append(b" reply")?;
    write_cn(alloc, text.as_slice())
}

/// The SubjectPublicKeyInfo of a key of the service.
#[tactic(auto, using(asn_types::proofs::LengthLemmas::short))]
fn own_spki(alloc: Global, key: &[u8; 60]) -> Result<Octets, AllocError>
    ensures written { IfOk result (λ octets. octets ≡ own_spki key.now) }
    ensures short { IfOk result (λ octets. length octets ≤ 128) }
{
    let alg = AlgorithmId {
        oid: HSS_LMS,
        params: None,
    };
    write_spki(alloc, &alg, key)
}

/// What the authority's own certificate says, from the second at which the service was founded. `AllocError` where memory runs out.
#[tactic(auto, unfolding(crate::specs::Plans::root_plan))]
pub fn root_plan(alloc: Global, keys: &Brief, time: u64) -> Result<CertPlan, AllocError>
    ensures planned { IfOk result (λ plan. plan ≡ root_plan keys.now time) }
    ensures short { IfOk result (λ plan. length plan.issuer + length plan.subject + length plan.spki + length plan.exts ≤ 1024) }
{
    Ok(CertPlan {
        serial: 1,
        issuer: ca_name(alloc, keys)?,
        not_before: time,
        not_after: NO_END,
        subject: ca_name(alloc, keys)?,
        spki: own_spki(alloc, &keys.issue_key)?,
        exts: root_extensions(alloc, &keys.issue_key)?,
    })
}

/// What the certificate of the key says that signs replies, from the second at which the service was founded. `AllocError` where
/// memory runs out.
#[tactic(auto, unfolding(crate::specs::Plans::reply_plan))]
pub fn reply_plan(alloc: Global, keys: &Brief, time: u64) -> Result<CertPlan, AllocError>
    ensures planned { IfOk result (λ plan. plan ≡ reply_plan keys.now time) }
    ensures short { IfOk result (λ plan. length plan.issuer + length plan.subject + length plan.spki + length plan.exts ≤ 1024) }
{
    Ok(CertPlan {
        serial: 2,
        issuer: ca_name(alloc, keys)?,
        not_before: time,
        not_after: NO_END,
        subject: reply_name(alloc, keys)?,
        spki: own_spki(alloc, &keys.reply_key)?,
        exts: reply_extensions(alloc, &keys.issue_key, &keys.reply_key)?,
    })
}
