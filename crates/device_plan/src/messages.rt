//! What a device says, whole.
ghost use Rattle.std.specs.Prelude.{◌≡◌, ℕ, ◌+◌, ◌*◌, ◌^◌, ◌<◌, ◌≤◌, List, length, Some, None, IfOk, IfSome};
ghost use Rattle.std.specs.Option.{option_copied};
ghost use Rattle.pbmac.specs.Mac.{mac_of};
ghost use Rattle.pki_header.specs.Plan.{field_size, plan_size};
ghost use Rattle.protect.specs.Algorithms.{mac_algorithm};
ghost use Rattle.protect.specs.Written.{algorithm_for, protection_for, IsUsable};
ghost use Rattle.reply_maker.specs.Messages.{planned_message};
ghost use Rattle.device_table.specs.declared.stage.Deal.{Deal};
ghost use Rattle.device_table.specs.declared.deeds.Speech.{Speech};
ghost use Rattle.device_plan.specs.Plans.{IsPlan, list_limit};
ghost use Rattle.device_plan.specs.Speeches.{answered, spoken};
ghost use Rattle.device_plan.specs.Drafts.{IsByMac, IsByKey, IsDraft, IsShortDraft};

use crate::bodies::body;
use crate::fields::salt_in;
use crate::headers::header;
use crate::plan::{Claim, DeviceGuard, DevicePlan, Turn};
use cmp_values::{Octets, Short};
use device_table::{Deal, Speech};
use hss_sig::{LeafSigner, OneLevel};
use pki_header::HeaderPlan;
use protect::{How, Unsigned, protect_with, to_sign, with_sig};
use std::alloc::{AllocError, Global};

/// A message that waits for its signature: its body, and its header with what is to be signed of both.
#[derive(Debug, Drop)]
pub struct Draft {
    pub(crate) unsigned: Unsigned,
    pub(crate) body: Octets,
}

impl Draft {
    /// What is to be signed (RFC 9810, 5.1.3).
    pub fn text(&self) -> &[u8]
        ensures { result.now ≡ self.now.unsigned.part }
    {
        self.unsigned.part.as_slice()
    }
}

/// Writes the message of a plan. The octets are a function of the plan.
fn message<L: LeafSigner>(
    alloc: Global,
    header: &HeaderPlan,
    body: &[u8],
    how: &How<'_, L>,
) -> Result<Octets, AllocError>
    requires time { IfSome header.now.time (λ t. t ≤ 253_402_300_799) }
    requires counted { plan_size header.now + length body.now ≤ 6 * list_limit + 2048 }
    requires usable { IsUsable L.count how.now }
    ensures { IfOk result (λ octets. octets ≡ planned_message header.now body.now (algorithm_for how.now) (protection_for L.signature how.now) None) }
{
    protect_with(alloc, header, body, how, None)
}

/// Writes the message of a header and a body under the MAC of a secret.
fn macked(
    alloc: Global,
    header: &HeaderPlan,
    body: &[u8],
    secret: &Short,
    salt: &[u8; 16],
    rounds: u32,
) -> Result<Octets, AllocError>
    requires time { IfSome header.now.time (λ t. t ≤ 253_402_300_799) }
    requires counted { plan_size header.now + length body.now ≤ 6 * list_limit + 2048 }
    requires rounds { 1 ≤ rounds }
    ensures { IfOk result (λ octets. octets ≡ planned_message header.now body.now (Some (mac_algorithm salt.now rounds))
        (λ part. Some (mac_of secret.now (record { salt = salt.now; rounds = rounds }) part)) None) }
{
    let how: How<'_, OneLevel> = How::Mac {
        secret: *secret,
        salt: *salt,
        rounds,
    };
    message(alloc, header, body, &how)
}

/// Writes what a device says in a transaction that shows who it is by a secret. The proof has at most 131,072 octets. `AllocError` where
/// memory runs out.
pub fn say_by_mac(
    alloc: Global,
    plan: &DevicePlan,
    claim: &Claim,
    deal: &Deal,
    speech: &Speech,
    turn: &Turn,
) -> Result<Octets, AllocError>
    requires plan { IsPlan plan.now }
    requires guard { IsByMac plan.now.guard }
    requires proof { length claim.now.proof ≤ list_limit }
    requires nonce { field_size (answered speech.now) ≤ list_limit }
    requires time { turn.now.time ≤ 253_402_300_799 }
    ensures { (sign : List ℕ → List ℕ) → IfOk result (λ octets. octets ≡ spoken plan.now claim.now.key claim.now.proof sign deal.now speech.now turn.now.time turn.now.words) }
{
    let DeviceGuard::Mac { secret, .. } = &plan.guard else {
        unreachable!()
    };
    let head = header(alloc, plan, deal, speech, turn)?;
    let inside = body(alloc, plan, claim, speech)?;
    macked(
        alloc,
        &head,
        inside.as_slice(),
        secret,
        &salt_in(&turn.words),
        plan.rounds,
    )
}

/// Writes what a device says that signs, as far as it can be without the signature. The parameters are those of `say_by_mac`.
/// `AllocError` where memory runs out.
pub fn prepare(
    alloc: Global,
    plan: &DevicePlan,
    claim: &Claim,
    deal: &Deal,
    speech: &Speech,
    turn: &Turn,
) -> Result<Draft, AllocError>
    requires plan { IsPlan plan.now }
    requires proof { length claim.now.proof ≤ list_limit }
    requires nonce { field_size (answered speech.now) ≤ list_limit }
    requires time { turn.now.time ≤ 253_402_300_799 }
    ensures drafted { IfOk result (IsDraft plan.now claim.now.key claim.now.proof deal.now speech.now turn.now.time turn.now.words) }
    ensures short { IfOk result IsShortDraft }
{
    let head = header(alloc, plan, deal, speech, turn)?;
    let inside = body(alloc, plan, claim, speech)?;
    let unsigned = to_sign(alloc, &head, inside.as_slice())?;
    Ok(Draft {
        unsigned,
        body: inside,
    })
}

/// Writes what a device says, of its draft and the signature of the draft's text, at most 131,072 octets. `AllocError` where memory runs
/// out.
pub fn say_signed(
    alloc: Global,
    plan: &DevicePlan,
    draft: &Draft,
    sig: &[u8],
) -> Result<Octets, AllocError>
    requires plan { IsPlan plan.now }
    requires guard { IsByKey plan.now.guard }
    requires draft { IsShortDraft draft.now }
    requires sig { length sig.now ≤ list_limit }
    ensures { (key proof : List ℕ) (sign : List ℕ → List ℕ) (d : Deal) (s : Speech) (now : ℕ) (words : List ℕ)
        → IsDraft plan.now key proof d s now words draft.now → sign draft.now.unsigned.part ≡ sig.now
        → IfOk result (λ octets. octets ≡ spoken plan.now key proof sign d s now words) }
{
    let DeviceGuard::Signed { cert } = &plan.guard else {
        unreachable!()
    };
    with_sig(
        alloc,
        &draft.unsigned,
        draft.body.as_slice(),
        sig,
        Some(cert.as_slice()),
    )
}
