//! Messages, written.
ghost use Rattle.std.specs.Prelude.{◌≡◌, ℕ, ◌+◌, ◌^◌, ◌<◌, ◌≤◌, length, IfOk, IfSome};
ghost use Rattle.std.specs.Option.{option_copied};
ghost use Rattle.der_base.specs.Element.{element};
ghost use Rattle.pki_header.specs.Plan.{plan_size};
ghost use Rattle.pki_parts.specs.Status.{option_size};
ghost use Rattle.protect.specs.Written.{algorithm_for, protection_for, IsUsable};
ghost use Rattle.reply_maker.specs.Messages.{planned_message};

use cmp_ports::Octets;
use hss_sig::LeafSigner;
use pki_header::HeaderPlan;
use protect::{How, protect_with};
use std::alloc::{AllocError, Global};

/// Writes the message of a plan, as `protect_with` does. The octets are a function of the plan.
pub(crate) fn message<L: LeafSigner>(
    alloc: Global,
    header: &HeaderPlan,
    body: &[u8],
    how: &How<'_, L>,
    extra: Option<&[u8]>,
) -> Result<Octets, AllocError>
    requires time { IfSome header.now.time (λ t. t ≤ 253_402_300_799) }
    requires counted { plan_size header.now + length body.now + option_size (option_copied extra) + 2 ^ 17 < 2 ^ 32 }
    requires usable { IsUsable L.count how.now }
    ensures { IfOk result (λ octets. octets ≡ planned_message header.now body.now (algorithm_for how.now) (protection_for L.signature how.now) (option_copied extra.entry)) }
{
    protect_with(alloc, header, body, how, extra)
}
