//! Writing messages that are protected.
ghost use Rattle.std.specs.Prelude.{◌≡◌, ℕ, ◌+◌, ◌^◌, ◌<◌, ◌≤◌, List, length, Some, None, IfOk, IfSome};
ghost use Rattle.std.specs.Option.{option_copied};
ghost use Rattle.hss_sig.specs.Hss.{HssOk};
ghost use Rattle.pbmac.specs.Mac.{mac_of};
ghost use Rattle.pki_header.specs.Plan.{FitsPlan, plan_size};
ghost use Rattle.pki_parts.specs.Status.{option_size};
ghost use Rattle.pki_message.specs.Body.{BodyForm};
ghost use Rattle.pki_message.specs.Frame.{message_limit};
ghost use Rattle.pki_message.specs.Message.{IsExtraCerts};
ghost use Rattle.protect.specs.Algorithms.{hss_lms, mac_algorithm};
ghost use Rattle.protect.specs.Written.{IsProtected, IsWholeBody, IsReadBack, algorithm_for, protection_for, key_for, IsUsable, IsAccepted};
ghost use Rattle.protect.specs.declared.key.Key.TheVariants as keys;

use crate::algorithm::mac_algorithm;
use crate::header::header_with;
use crate::how::How;
use crate::unsigned::{to_sign, with_sig};
use cmp_values::{Octets, Short};
use hss_sig::LeafSigner;
use pbmac::{MacParams, make_mac};
use pki_header::HeaderPlan;
use pki_message::{protected_part, write_message};
use std::alloc::{AllocError, Global};

/// A message that is not protected.
fn unprotected(
    alloc: Global,
    plan: &HeaderPlan,
    body: &[u8],
    extra: Option<&[u8]>,
) -> Result<Octets, AllocError>
    requires time { IfSome plan.now.time (λ t. t ≤ 253_402_300_799) }
    requires counted { plan_size plan.now + length body.now + option_size (option_copied extra) + 2 ^ 17 < 2 ^ 32 }
    ensures made { IfOk result (IsProtected plan.now body.now None (λ part. None) (option_copied extra.entry)) }
    ensures size { IfOk result (λ octets. length octets ≤ plan_size plan.now + length body.now + option_size (option_copied extra.entry) + 576) }
    ensures again { FitsPlan plan.now → (b : BodyForm) → IsWholeBody b body.now → IfSome (option_copied extra.entry) IsExtraCerts
        → IfOk result (λ octets. length octets ≤ message_limit → IsReadBack plan.now None (option_copied extra.entry) None b octets) }
{
    let header = header_with(alloc, plan, None)?;
    write_message(alloc, header.as_slice(), body, None, extra)
}

/// What a MAC is made with, beside the secret.
fn mac_params(salt: &[u8; 16], rounds: u32) -> MacParams
    ensures { result ≡ record { salt = salt.now; rounds = rounds } }
{
    MacParams {
        salt: Short::of(salt).unwrap_or(Short::empty()),
        rounds,
    }
}

/// A message that is protected by the MAC of a secret.
fn with_mac(
    alloc: Global,
    plan: &HeaderPlan,
    body: &[u8],
    secret: &Short,
    salt: &[u8; 16],
    rounds: u32,
    extra: Option<&[u8]>,
) -> Result<Octets, AllocError>
    requires time { IfSome plan.now.time (λ t. t ≤ 253_402_300_799) }
    requires counted { plan_size plan.now + length body.now + option_size (option_copied extra) + 2 ^ 17 < 2 ^ 32 }
    requires rounds { 1 ≤ rounds }
    ensures made { IfOk result (IsProtected plan.now body.now (Some (mac_algorithm salt.now rounds))
        (λ part. Some (mac_of secret.now (record { salt = salt.now; rounds = rounds }) part)) (option_copied extra.entry)) }
    ensures size { (n : ℕ) → ((part : List ℕ) → length (mac_of secret.now (record { salt = salt.now; rounds = rounds }) part) ≤ n)
        → IfOk result (λ octets. length octets ≤ plan_size plan.now + length body.now + n + option_size (option_copied extra.entry) + 576) }
    ensures again { FitsPlan plan.now → rounds ≤ 200000 → (b : BodyForm) → IsWholeBody b body.now → IfSome (option_copied extra.entry) IsExtraCerts
        → IfOk result (λ octets. length octets ≤ message_limit → IsReadBack plan.now (Some (mac_algorithm salt.now rounds)) (option_copied extra.entry) (Some (keys.Mac secret.now)) b octets) }
{
    let alg = mac_algorithm(alloc, salt, rounds)?;
    let header = header_with(alloc, plan, Some(alg))?;
    let part = protected_part(alloc, header.as_slice(), body)?;
    let params = mac_params(salt, rounds);
    let mac = make_mac(secret.as_slice(), &params, part.as_slice());
    write_message(alloc, header.as_slice(), body, Some(&mac), extra)
}

/// The signature of a text by a leaf.
fn signed<L: LeafSigner>(signer: &L, leaf: u32, text: &[u8]) -> Result<Octets, AllocError>
    requires { leaf < L.count signer.now }
    ensures signed { IfOk result (λ sig. sig ≡ L.signature signer.now leaf text.now) }
    ensures valid { IfOk result (λ sig. HssOk (L.key signer.now) text.now sig) }
    ensures short { IfOk result (λ sig. length sig ≤ 75000) }
{
    signer.sign_at(leaf, text)
}

/// A message that is protected by the signature of a leaf.
fn with_signature<L: LeafSigner>(
    alloc: Global,
    plan: &HeaderPlan,
    body: &[u8],
    signer: &L,
    leaf: u32,
    extra: Option<&[u8]>,
) -> Result<Octets, AllocError>
    requires time { IfSome plan.now.time (λ t. t ≤ 253_402_300_799) }
    requires counted { plan_size plan.now + length body.now + option_size (option_copied extra) + 2 ^ 17 < 2 ^ 32 }
    requires below { leaf < L.count signer.now }
    ensures made { IfOk result (IsProtected plan.now body.now (Some hss_lms) (λ part. Some (L.signature signer.now leaf part)) (option_copied extra.entry)) }
    ensures size { (n : ℕ) → ((part : List ℕ) → length (L.signature signer.now leaf part) ≤ n)
        → IfOk result (λ octets. length octets ≤ plan_size plan.now + length body.now + n + option_size (option_copied extra.entry) + 576) }
    ensures again { FitsPlan plan.now → (b : BodyForm) → IsWholeBody b body.now → IfSome (option_copied extra.entry) IsExtraCerts
        → IfOk result (λ octets. length octets ≤ message_limit → IsReadBack plan.now (Some hss_lms) (option_copied extra.entry) (Some (keys.Lms (L.key signer.now))) b octets) }
{
    let unsigned = to_sign(alloc, plan, body)?;
    let sig = signed(signer, leaf, unsigned.part.as_slice())?;
    with_sig(alloc, &unsigned, body, sig.as_slice(), extra)
}

/// Writes a message (RFC 9810, 5.1) of a header's plan, a whole body and the one certificate of extraCerts, where there is one,
/// protected as `how` says: its algorithm stands in the header in the place of the plan's. `AllocError` where memory runs out.
pub fn protect_with<L: LeafSigner>(
    alloc: Global,
    header: &HeaderPlan,
    body: &[u8],
    how: &How<'_, L>,
    extra: Option<&[u8]>,
) -> Result<Octets, AllocError>
    requires time { IfSome header.now.time (λ t. t ≤ 253_402_300_799) }
    requires counted { plan_size header.now + length body.now + option_size (option_copied extra) + 2 ^ 17 < 2 ^ 32 }
    requires usable { IsUsable L.count how.now }
    // The message is the one that was asked for.
    ensures made { IfOk result (IsProtected header.now body.now (algorithm_for how.now) (protection_for L.signature how.now) (option_copied extra.entry)) }
    // It has at most 576 octets more than the fields, the body, the certificate and the protection.
    ensures size { (n : ℕ) → ((part : List ℕ) → option_size (protection_for L.signature how.now part) ≤ n)
        → IfOk result (λ octets. length octets ≤ plan_size header.now + length body.now + n + option_size (option_copied extra.entry) + 576) }
    // What is written of parts that have the forms of their types is read as a message again, whose header says what the plan does,
    // and its protection holds: under the same secret, or under the signer's public key.
    ensures again { FitsPlan header.now → IsAccepted how.now → (b : BodyForm) → IsWholeBody b body.now → IfSome (option_copied extra.entry) IsExtraCerts
        → IfOk result (λ octets. length octets ≤ message_limit → IsReadBack header.now (algorithm_for how.now) (option_copied extra.entry) (key_for L.key how.now) b octets) }
{
    match how {
        How::Nothing => unprotected(alloc, header, body, extra),
        How::Mac {
            secret,
            salt,
            rounds,
        } => with_mac(alloc, header, body, secret, salt, *rounds, extra),
        How::Leaf { signer, leaf } => with_signature(alloc, header, body, *signer, *leaf, extra),
    }
}
