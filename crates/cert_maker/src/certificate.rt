//! Certificates, signed.
ghost use Rattle.std.specs.Prelude.{◌≡◌, ℕ, ◌+◌, ◌^◌, ◌<◌, ◌≤◌, length, IfOk};
ghost use Rattle.hss_sig.specs.Hss.{HssOk};
ghost use Rattle.x509_cert.specs.Plan.{signed_octets};
ghost use Rattle.cert_maker.specs.Certificates.{plan_octets, plan_certificate, tbs_of, cert_of, AreFounding, IsGrant, IsKept, leaf_of};

use crate::granted::tbs_of_change;
use crate::tbs::tbs_of_plan;
use cmp_values::Octets;
use deal_model::{Brief, Change};
use desk::Receipt;
use hss_sig::LeafSigner;
use std::alloc::{AllocError, Global};
use x509_cert::{CertPlan, write_cert};

/// The signature of a text by a leaf.
fn signed<L: LeafSigner>(signer: &L, leaf: u32, text: &[u8]) -> Result<Octets, AllocError>
    requires { leaf < L.count signer.now }
    ensures signed { IfOk result (λ sig. sig ≡ L.signature signer.now leaf text.now) }
    ensures valid { IfOk result (λ sig. HssOk (L.key signer.now) text.now sig) }
    ensures short { IfOk result (λ sig. length sig ≤ 75000) }
{
    signer.sign_at(leaf, text)
}

/// The certificate of a signed part.
fn certificate_of<L: LeafSigner>(
    alloc: Global,
    signer: &L,
    leaf: u32,
    tbs: &[u8],
) -> Result<Octets, AllocError>
    requires below { leaf < L.count signer.now }
    requires short { length tbs.now ≤ 2 ^ 31 }
    ensures written { IfOk result (λ octets. octets ≡ signed_octets tbs.now (L.signature signer.now leaf tbs.now)) }
    ensures short { IfOk result (λ octets. length octets ≤ length tbs.now + 2 ^ 17) }
{
    let sig = signed(signer, leaf, tbs)?;
    write_cert(alloc, tbs, sig.as_slice())
}

/// Writes the certificate of a plan, signed by a leaf (RFC 9802, 5). `AllocError` where memory runs out.
pub fn cert_of_plan<L: LeafSigner>(
    alloc: Global,
    signer: &L,
    leaf: u32,
    plan: &CertPlan,
) -> Result<Octets, AllocError>
    requires begins { plan.now.not_before ≤ 253_402_300_799 }
    requires ends { plan.now.not_after ≤ 253_402_300_799 }
    requires counted { length plan.now.issuer + length plan.now.subject + length plan.now.spki + length plan.now.exts ≤ 2 ^ 30 }
    requires below { leaf < L.count signer.now }
    ensures written { IfOk result (λ octets. octets ≡ plan_certificate (L.signature signer.now) leaf plan.now) }
    // A signature has at most 75,000 octets.
    ensures short { IfOk result (λ octets. length octets ≤ length plan.now.issuer + length plan.now.subject + length plan.now.spki + length plan.now.exts + 2 ^ 18) }
{
    let tbs = tbs_of_plan(alloc, plan)?;
    certificate_of(alloc, signer, leaf, tbs.as_slice())
}

/// The leaf that signs the certificate of a Grant.
fn leaf_of(c: &Change) -> u32
    ensures { result ≡ leaf_of c.now }
{
    match c {
        Change::Grant { leaf, .. } => *leaf,
        _ => 0,
    }
}

/// The certificate of a Grant.
fn cert_of_change<L: LeafSigner>(
    alloc: Global,
    signer: &L,
    keys: &Brief,
    c: &Change,
) -> Result<Octets, AllocError>
    requires grant { IsGrant c.now }
    requires kept { IsKept c.now }
    requires founding { AreFounding keys.now }
    requires below { leaf_of c.now < L.count signer.now }
    ensures written { IfOk result (λ octets. octets ≡ cert_of (L.signature signer.now) keys.now c.now) }
    ensures short { IfOk result (λ octets. length octets ≤ 2 ^ 31 + 2 ^ 17) }
{
    let tbs = tbs_of_change(alloc, keys, c)?;
    certificate_of(alloc, signer, leaf_of(c), tbs.as_slice())
}

/// Writes the signed part of a Grant's certificate (RFC 5280, 4.1.2), under the settings of its history. `AllocError` where memory
/// runs out.
pub fn tbs_of(alloc: Global, keys: &Brief, r: &Receipt) -> Result<Octets, AllocError>
    requires grant { IsGrant r.now.change }
    requires kept { IsKept r.now.change }
    requires founding { AreFounding keys.now }
    ensures written { IfOk result (λ octets. octets ≡ tbs_of keys.now r.now.change) }
    ensures short { IfOk result (λ octets. length octets ≤ 2 ^ 31) }
{
    tbs_of_change(alloc, keys, r.change())
}

/// Writes a Grant's certificate (RFC 5280, 4.1), under the settings of its history and signed by the Grant's own leaf of the key
/// that issues (RFC 9802, 5). `AllocError` where memory runs out.
pub fn cert_of<L: LeafSigner>(
    alloc: Global,
    signer: &L,
    keys: &Brief,
    r: &Receipt,
) -> Result<Octets, AllocError>
    requires grant { IsGrant r.now.change }
    requires kept { IsKept r.now.change }
    requires founding { AreFounding keys.now }
    requires below { leaf_of r.now.change < L.count signer.now }
    ensures written { IfOk result (λ octets. octets ≡ cert_of (L.signature signer.now) keys.now r.now.change) }
    ensures short { IfOk result (λ octets. length octets ≤ 2 ^ 31 + 2 ^ 17) }
{
    cert_of_change(alloc, signer, keys, r.change())
}
