//! The headers of a device's messages.
ghost use Rattle.std.specs.Prelude.{◌≡◌, ℕ, ◌+◌, ◌*◌, ◌≤◌, List, length, Option, Some, None, IfOk};
ghost use Rattle.pki_header.specs.Plan.{field_size, plan_size};
ghost use Rattle.device_plan.specs.Plans.{IsPlan, list_limit};
ghost use Rattle.device_plan.specs.Speeches.{answered, info_of, header_of};

use crate::fields::{directory_name, implicit_confirm, nonce_in};
use crate::holder::{kid, sender};
use crate::plan::{DevicePlan, Turn};
use cmp_values::Octets;
use device_table::{Deal, Speech};
use pki_header::HeaderPlan;
use std::alloc::{AllocError, Global};

/// A copy of a nonce that may stand.
fn copied(alloc: Global, nonce: &Option<Octets>) -> Result<Option<Octets>, AllocError>
    ensures { IfOk result (λ o. o ≡ nonce.now) }
{
    match nonce {
        Some(nonce) => Ok(Some(Octets::copy_of(alloc, nonce.as_slice())?)),
        None => Ok(None),
    }
}

/// The recipNonce.
fn recip_nonce(alloc: Global, speech: &Speech) -> Result<Option<Octets>, AllocError>
    ensures { IfOk result (λ o. o ≡ answered speech.now) }
{
    match speech {
        Speech::Requests => Ok(None),
        Speech::Polls(last) => copied(alloc, last),
        Speech::Settles { nonce, .. } => copied(alloc, nonce),
    }
}

/// The generalInfo of a request.
fn asked(alloc: Global, implicit: bool) -> Result<Option<Octets>, AllocError>
    ensures written { IfOk result (λ o. o ≡ info_of implicit Speech.Requests) }
    ensures short { IfOk result (λ o. field_size o ≤ 64) }
{
    if implicit {
        Ok(Some(implicit_confirm(alloc)?))
    } else {
        Ok(None)
    }
}

/// The generalInfo.
fn info(alloc: Global, implicit: bool, speech: &Speech) -> Result<Option<Octets>, AllocError>
    ensures written { IfOk result (λ o. o ≡ info_of implicit speech.now) }
    ensures short { IfOk result (λ o. field_size o ≤ 64) }
{
    match speech {
        Speech::Requests => asked(alloc, implicit),
        Speech::Polls(_) => Ok(None),
        Speech::Settles { .. } => Ok(None),
    }
}

/// What the header says of what a device says in a transaction (RFC 9810, 5.1.1). `AllocError` where memory runs out.
pub fn header(
    alloc: Global,
    plan: &DevicePlan,
    deal: &Deal,
    speech: &Speech,
    turn: &Turn,
) -> Result<HeaderPlan, AllocError>
    requires plan { IsPlan plan.now }
    requires nonce { field_size (answered speech.now) ≤ list_limit }
    ensures written { IfOk result (λ h. h ≡ header_of plan.now deal.now speech.now turn.now.time turn.now.words) }
    ensures short { IfOk result (λ h. plan_size h ≤ 3 * list_limit + 512) }
{
    let name = sender(alloc, plan)?;
    Ok(HeaderPlan {
        pvno: 2,
        sender: directory_name(alloc, name.as_slice())?,
        recipient: directory_name(alloc, plan.ca.as_slice())?,
        time: Some(turn.time),
        alg: None,
        sender_kid: Some(kid(alloc, plan)?),
        recip_kid: None,
        tid: Some(Octets::copy_of(alloc, &deal.tid)?),
        sender_nonce: Some(nonce_in(alloc, &turn.words)?),
        recip_nonce: recip_nonce(alloc, speech)?,
        free_text: None,
        info: info(alloc, plan.implicit, speech)?,
    })
}
