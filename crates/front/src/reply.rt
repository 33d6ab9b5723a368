//! Replies, with what is noted of them.
ghost use Rattle.std.specs.Prelude.{◌≡◌, ◌≢◌, ◌≤◌, length, false, IfSome, IsSome, option_map};
ghost use Rattle.std.specs.Option.{option_copied};
ghost use Rattle.deal_table.specs.Message.{echoed};
ghost use Rattle.reply_maker.specs.Guards.{secret_in};
ghost use Rattle.reply_maker.specs.InForce.{IsInForce};
ghost use Rattle.reply_maker.specs.Keys.{are_blank};
ghost use Rattle.reply_maker.specs.Refusals.{refusal_of};
ghost use Rattle.reply_maker.specs.Replies.{reply_of};
ghost use Rattle.front.specs.Fronts.{replier_by};

use cmp_ports::{FailInfo, Gate, Note, Octets, Point};
use deal_model::Echo;
use desk::Receipt;
use reply_maker::{Guard, Keys, refuse, seal};
use std::alloc::Global;

/// The octets of a reply, and what is noted of the message that it answers.
#[derive(Drop)]
pub(crate) struct Reply {
    pub(crate) note: Note,
    pub(crate) octets: Octets,
}

/// The reply to a change, whose event is noted so; none for want of memory.
pub(crate) fn sealed<G: Gate>(
    alloc: Global,
    keys: &Keys,
    gate: &mut G,
    receipt: &Receipt,
    note: Note,
) -> Option<Reply>
    requires made { are_blank keys.now.settings ≡ false }
    requires force { IsInForce keys.now.settings receipt.now }
    ensures note { IfSome result (λ r. r.note ≡ note) }
    ensures octets { IfSome result (λ r. r.octets ≡ reply_of (replier_by keys.now) receipt.now) }
{
    let octets = seal(alloc, keys, receipt);
    gate.pass(Point::Sealed);
    match octets {
        Ok(octets) => Some(Reply { note, octets }),
        Err(_) => None,
    }
}

/// A refusal, whose event is noted so; none for want of memory.
#[tactic(auto, unfolding(reply_maker::specs::Replies::replier_of))]
pub(crate) fn refused<G: Gate>(
    alloc: Global,
    keys: &Keys,
    gate: &mut G,
    echo: &Echo,
    fail: FailInfo,
    guard: Option<&Guard>,
    words: Option<&[u8; 32]>,
    note: Note,
) -> Option<Reply>
    requires time { note.time ≤ 250_000_000_000 }
    requires sender { length echo.now.sender.now ≤ 131_072 }
    requires drawn { fail ≢ FailInfo.SystemFailure → IsSome words }
    requires guarded { IsSome guard → IsSome words }
    requires down { IsSome words → fail ≢ FailInfo.SystemFailure }
    ensures note { IfSome result (λ r. r.note ≡ note) }
    ensures octets { IfSome result (λ r. r.octets ≡ refusal_of (replier_by keys.now).keys (echoed echo.now) fail (option_map secret_in (option_copied guard.entry)) note.time (option_copied words.entry)) }
{
    let octets = refuse(alloc, keys, echo, fail, guard, note.time, words);
    gate.pass(Point::Sealed);
    match octets {
        Ok(octets) => Some(Reply { note, octets }),
        Err(_) => None,
    }
}
