//! Headers with the algorithm of a protection.
ghost use Rattle.std.specs.Prelude.{◌≡◌, ℕ, ◌+◌, ◌^◌, ◌<◌, ◌≤◌, length, IfOk, IfSome};
ghost use Rattle.pki_header.specs.Plan.{IsPlanned, FitsPlan, IsHeaderOf, field_size, plan_size};
ghost use Rattle.protect.specs.Written.{with_algorithm};

use cmp_values::Octets;
use pki_header::{HeaderPlan, write_header};
use std::alloc::{AllocError, Global};

/// A copy of a field.
fn copied(alloc: Global, field: &Option<Octets>) -> Result<Option<Octets>, AllocError>
    ensures { IfOk result (λ copy. copy ≡ field.now) }
{
    match field {
        None => Ok(None),
        Some(octets) => Ok(Some(Octets::copy_of(alloc, octets.as_slice())?)),
    }
}

/// A plan with this algorithm in the place of its own.
fn with_algorithm(
    alloc: Global,
    plan: &HeaderPlan,
    alg: Option<Octets>,
) -> Result<HeaderPlan, AllocError>
    ensures { IfOk result (λ p. p ≡ with_algorithm plan.now alg) }
{
    Ok(HeaderPlan {
        pvno: plan.pvno,
        sender: Octets::copy_of(alloc, plan.sender.as_slice())?,
        recipient: Octets::copy_of(alloc, plan.recipient.as_slice())?,
        time: plan.time,
        alg,
        sender_kid: copied(alloc, &plan.sender_kid)?,
        recip_kid: copied(alloc, &plan.recip_kid)?,
        tid: copied(alloc, &plan.tid)?,
        sender_nonce: copied(alloc, &plan.sender_nonce)?,
        recip_nonce: copied(alloc, &plan.recip_nonce)?,
        free_text: copied(alloc, &plan.free_text)?,
        info: copied(alloc, &plan.info)?,
    })
}

/// Writes the header of a plan with this algorithm.
pub(crate) fn header_with(
    alloc: Global,
    plan: &HeaderPlan,
    alg: Option<Octets>,
) -> Result<Octets, AllocError>
    requires time { IfSome plan.now.time (λ t. t ≤ 253_402_300_799) }
    requires counted { plan_size plan.now + 2 ^ 17 < 2 ^ 32 }
    requires short { field_size alg ≤ 256 }
    ensures planned { IfOk result (IsPlanned (with_algorithm plan.now alg)) }
    ensures size { IfOk result (λ octets. length octets ≤ plan_size plan.now + 512) }
    ensures again { FitsPlan (with_algorithm plan.now alg) → IfOk result (IsHeaderOf (with_algorithm plan.now alg)) }
{
    let plan = with_algorithm(alloc, plan, alg)?;
    write_header(alloc, &plan)
}
