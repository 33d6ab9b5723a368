//! Messages that are signed in two steps: what is to be signed comes first, and the signature after it.
ghost use Rattle.std.specs.Prelude.{◌≡◌, ℕ, ◌+◌, ◌^◌, ◌<◌, ◌≤◌, List, length, Some, IfOk, IfSome};
ghost use Rattle.std.specs.Option.{option_copied};
ghost use Rattle.der_base.specs.Element.{element};
ghost use Rattle.hss_sig.specs.Hss.{HssOk};
ghost use Rattle.pki_header.specs.Plan.{IsPlanned, FitsPlan, plan_size};
ghost use Rattle.pki_header.specs.declared.plan.HeaderPlan.{HeaderPlan};
ghost use Rattle.pki_parts.specs.Status.{option_size};
ghost use Rattle.pki_message.specs.Body.{BodyForm};
ghost use Rattle.pki_message.specs.Frame.{message_limit, protected_part};
ghost use Rattle.pki_message.specs.Message.{IsExtraCerts};
ghost use Rattle.pki_message.specs.Written.{written_content};
ghost use Rattle.protect.specs.Algorithms.{hss_lms, algorithm_octets};
ghost use Rattle.protect.specs.Written.{with_algorithm, IsProtected, IsWholeBody, IsReadBack};
ghost use Rattle.protect.specs.declared.key.Key.TheVariants as keys;

use crate::algorithm::hss_lms;
use crate::header::header_with;
use cmp_values::Octets;
use pki_header::HeaderPlan;
use pki_message::{protected_part, write_message};
use std::alloc::{AllocError, Global};

/// A message that is not signed yet: the octets of its header, in which HSS/LMS is the algorithm, and what is to be signed
/// (RFC 9810, 5.1.3).
#[derive(Debug, Drop)]
pub struct Unsigned {
    pub header: Octets,
    pub part: Octets,
}

/// Writes the header of a plan with HSS/LMS in the place of its own algorithm, and what is to be signed of it and a whole body.
/// `AllocError` where memory runs out.
pub fn to_sign(alloc: Global, header: &HeaderPlan, body: &[u8]) -> Result<Unsigned, AllocError>
    requires time { IfSome header.now.time (λ t. t ≤ 253_402_300_799) }
    requires counted { plan_size header.now + length body.now + 2 ^ 17 < 2 ^ 32 }
    ensures planned { IfOk result (λ u. IsPlanned (with_algorithm header.now (Some (algorithm_octets hss_lms))) u.header) }
    ensures part { IfOk result (λ u. u.part ≡ protected_part u.header body.now) }
    ensures size { IfOk result (λ u. length u.header ≤ plan_size header.now + 512) }
{
    let alg = hss_lms(alloc)?;
    let header = header_with(alloc, header, Some(alg))?;
    let part = protected_part(alloc, header.as_slice(), body)?;
    Ok(Unsigned { header, part })
}

/// Writes the message of a header and a body, the signature of both and the one certificate of extraCerts, where there is one.
/// `AllocError` where memory runs out.
pub fn with_sig(
    alloc: Global,
    unsigned: &Unsigned,
    body: &[u8],
    sig: &[u8],
    extra: Option<&[u8]>,
) -> Result<Octets, AllocError>
    requires { length unsigned.now.header + length body.now + length sig.now + option_size (option_copied extra) + 64 < 2 ^ 32 }
    ensures written { IfOk result (λ octets. octets ≡ element 0x30 (written_content unsigned.now.header body.now (Some sig.now) (option_copied extra.entry))) }
    ensures size { IfOk result (λ octets. length octets ≤ length unsigned.now.header + length body.now + length sig.now + option_size (option_copied extra.entry) + 64) }
    // Where the header is a plan's, the message is that plan's, with this signature.
    ensures made { (plan : HeaderPlan) → IsPlanned (with_algorithm plan (Some (algorithm_octets hss_lms))) unsigned.now.header
        → IfOk result (IsProtected plan body.now (Some hss_lms) (λ part. Some sig.now) (option_copied extra.entry)) }
    // And where the parts have the forms of their types and the signature is valid under a key, it is read as that message again,
    // and its protection holds.
    ensures again { (plan : HeaderPlan) (key : List ℕ) (b : BodyForm) → IsPlanned (with_algorithm plan (Some (algorithm_octets hss_lms))) unsigned.now.header
        → FitsPlan plan → IsWholeBody b body.now → IfSome (option_copied extra.entry) IsExtraCerts
        → HssOk key (protected_part unsigned.now.header body.now) sig.now
        → IfOk result (λ octets. length octets ≤ message_limit → IsReadBack plan (Some hss_lms) (option_copied extra.entry) (Some (keys.Lms key)) b octets) }
{
    write_message(alloc, unsigned.header.as_slice(), body, Some(sig), extra)
}
