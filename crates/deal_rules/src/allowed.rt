//! Whether a change may come next, and whether a history is legal.
ghost use Rattle.std.specs.Prelude.{◌≡◌, ◌<◌, ◌≤◌, ◌+◌, ◌^◌, ◌↔◌, false, length, IsTrue};
ghost use Rattle.deal_changes.specs.Times.{time_of_change};
ghost use Rattle.deal_model.specs.Views.{time_of, is_found, is_empty, is_listed, is_dismissed, AreTimely};
ghost use Rattle.deal_model.specs.Rules.{AreNew, log_size, size_of, Holds, Allowed, Legal};

use crate::credentials::are_new;
use crate::forms::is_change;
use crate::founding::is_founding;
use crate::rules::{
    awaits_order, may_grant, may_hold, may_lapse, may_poll, may_revoke, may_settle, may_turn,
};
use crate::sizes::has_room;
use cmp_values::Short;
use deal_answers::{is_dismissed, is_listed};
use deal_model::{Change, Credential, Kind, LATEST_TIME, MOST_CHANGES, Who};

/// The time of the last change, in seconds since 1970; 0 where there is none.
#[tactic(auto, using(crate::proofs::Histories::last_time))]
pub fn time_of(h: &[Change]) -> u64
    ensures { result ≡ time_of h.now }
{
    match h {
        [] => 0,
        [.., last] => last.time(),
    }
}

fn is_found(c: &Change) -> bool
    ensures { result ≡ is_found c.now }
{
    match c {
        Change::Found(_) => true,
        _ => false,
    }
}

fn may_enlist(h: &[Change], list: &[Credential]) -> bool
    ensures { IsTrue result ↔ ((1 ≤ length list.now) × (length list.now ≤ 256) × AreNew h.now list.now) }
{
    list.len() >= 1 && list.len() <= 256 && are_new(h, list)
}

/// Whether a credential is listed and not dismissed.
fn is_in_force(h: &[Change], kind: Kind, kid: &Short) -> bool
    ensures { IsTrue result ↔ (IsTrue (is_listed h.now kind kid.now) × (is_dismissed h.now kind kid.now ≡ false)) }
{
    let kid = kid.as_slice();
    is_listed(h, kind, kid) && !is_dismissed(h, kind, kid)
}

fn may_dismiss(h: &[Change], time: u64, who: &Who) -> bool
    ensures { IsTrue result ↔ Holds h.now (Change.Dismiss time who.now) }
{
    match who {
        Who::Listed(kind, kid) => is_in_force(h, *kind, kid),
        Who::Cert(_) => false,
    }
}

/// Whether the rule of the change's kind holds.
fn holds(h: &[Change], c: &Change) -> bool
    requires timely { AreTimely h.now }
    requires room { length h.now ≤ 262144 }
    ensures { IsTrue result ↔ Holds h.now c.now }
{
    match c {
        Change::Found(settings) => is_founding(settings),
        Change::Enlist { list, .. } => may_enlist(h, list.as_slice()),
        Change::Dismiss { time, who } => may_dismiss(h, *time, who),
        Change::Grant {
            stamp,
            body,
            wish,
            serial,
            leaf,
        } => may_grant(h, stamp, *body, wish, *serial, *leaf),
        Change::Hold { stamp, wish, .. } => may_hold(h, stamp, wish),
        Change::Release { tid, .. } => awaits_order(h, tid.as_slice()),
        Change::Deny { tid, .. } => awaits_order(h, tid.as_slice()),
        Change::Turned(stamp) => may_turn(h, stamp),
        Change::Polled(stamp) => may_poll(h, stamp),
        Change::Settled { stamp, .. } => may_settle(h, stamp),
        Change::Revoke { stamp, serial, .. } => may_revoke(h, stamp, *serial),
        Change::Lapse { time, tid } => may_lapse(h, tid.as_slice(), *time),
    }
}

/// Whether the time of a change doesn't fall, and no clock says more.
fn is_in_time(h: &[Change], c: &Change) -> bool
    ensures { IsTrue result ↔ ((time_of h.now ≤ time_of_change c.now) × (time_of_change c.now ≤ 250000000000)) }
{
    time_of(h) <= c.time() && c.time() <= LATEST_TIME
}

/// Whether there is room for a change, and it is a Found where it comes first, and only there.
fn is_in_place(h: &[Change], c: &Change) -> bool
    ensures { IsTrue result ↔ ((length h.now < 262144) × (log_size h.now + size_of c.now ≤ 2 ^ 30) × (is_found c.now ≡ is_empty h.now)) }
{
    h.len() < MOST_CHANGES && has_room(h, c) && is_found(c) == h.is_empty()
}

/// Whether a change may come next in a history none of whose times is later than any clock may say: it has a spelling, its
/// time doesn't fall, there is room, a Found stands first and nowhere else, and the rule of its kind holds. Takes no memory.
pub fn is_allowed(h: &[Change], c: &Change) -> bool
    requires { AreTimely h.now }
    ensures allowed { IsTrue result → Allowed h.now c.now }
    ensures only { Allowed h.now c.now → IsTrue result }
{
    is_change(c) && is_in_time(h, c) && is_in_place(h, c) && holds(h, c)
}

/// Whether a history isn't empty and each of its changes may come after those before it. Takes no memory.
pub fn is_legal(h: &[Change]) -> bool
    ensures legal { IsTrue result → Legal h.now }
    ensures only { Legal h.now → IsTrue result }
    ensures timely { IsTrue result → AreTimely h.now }
{
    for (i, c) in h.iter().enumerate() {
        if !is_allowed(&h[..i], c) {
            return false;
        }
    }
    !h.is_empty()
}
