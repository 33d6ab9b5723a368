//! The rule of each kind of change.
ghost use Rattle.std.specs.Prelude.{◌≡◌, ◌<◌, ◌≤◌, ◌↔◌, ◌||◌, ℕ, Option, Some, None, Bool, length, IsTrue, IfSome, find};
ghost use Rattle.std.specs.List.{list_any};
ghost use Rattle.deal_model.specs.declared.states.DealState.TheVariants.{Unused, Held, Denied};
ghost use Rattle.deal_model.specs.declared.states.CertificateState.TheVariants.{Confirmed};
ghost use Rattle.deal_model.specs.Keys.{leaves_of, key_id, key_of};
ghost use Rattle.deal_model.specs.Views.{settings_of, has_digest, is_grant_of, is_key_taken, is_told, transaction_state, AreTimely};
ghost use Rattle.deal_model.specs.Rules.{reply_leaf, StampRule, StampHolds, GrantComes, GrantRule, GrantHolds, HoldHolds, TurnedHolds, PolledHolds, IsOpenPast, IsOpenUntil, SettledHolds, RevokeHolds, is_granted_to, same_who, has_right, rights_of};

use crate::requests::{is_as_held, is_grantee, is_holder, is_owner};
use crate::senders::{has_right, rights_of, same_who};
use deal_answers::{
    certificate_state, founding, is_key_taken, is_known, is_told, key_id, key_of, leaves_of,
    leaves_used, transaction_state,
};
use deal_model::{
    Body4, CertificateState, Change, DealState, ENROL, HOLD, Key, Kind, REVOKE, Stamp, Who, Wish,
};

/// The leaves of the key that signs certificates; 0 where nothing was founded.
#[tactic(auto, unfolding(deal_model::specs::Keys::leaves_of, deal_model::specs::Keys::tree_of))]
pub fn issue_leaves(h: &[Change]) -> u32
    ensures { result ≡ leaves_of (settings_of h.now).issue_key }
{
    match founding(h) {
        Some(settings) => leaves_of(&settings.issue_key),
        None => 0,
    }
}

/// The leaves of the key that signs replies; 0 where nothing was founded.
#[tactic(auto, unfolding(deal_model::specs::Keys::leaves_of, deal_model::specs::Keys::tree_of))]
pub fn reply_leaves(h: &[Change]) -> u32
    ensures { result ≡ leaves_of (settings_of h.now).reply_key }
{
    match founding(h) {
        Some(settings) => leaves_of(&settings.reply_key),
        None => 0,
    }
}

/// The leaf that signs the reply to this sender; none where a secret protects it.
pub fn reply_leaf(h: &[Change], who: &Who) -> Option<u64>
    requires { length h.now ≤ 262144 }
    ensures { result ≡ reply_leaf h.now who.now }
{
    match who {
        Who::Listed(Kind::Mac, _) => None,
        Who::Listed(Kind::Lms, _) => Some(leaves_used(h, Key::Reply)),
        Who::Cert(_) => Some(leaves_used(h, Key::Reply)),
    }
}

fn is_leaf(leaf: Option<u32>, next: Option<u64>) -> bool
    ensures { IsTrue result ↔ (leaf ≡ next) }
{
    match (leaf, next) {
        (Some(leaf), Some(next)) => u64::from(leaf) == next,
        (None, None) => true,
        (Some(_), None) => false,
        (None, Some(_)) => false,
    }
}

fn is_below(leaf: Option<u32>, leaves: u32) -> bool
    ensures { IsTrue result ↔ IfSome leaf (λ l. l < leaves) }
{
    match leaf {
        Some(leaf) => leaf < leaves,
        None => true,
    }
}

fn stamp_rule(known: bool, rights: Option<u8>, next: Option<u64>, leaves: u32, s: &Stamp) -> bool
    ensures { IsTrue result ↔ StampRule known rights next leaves s.now }
{
    !known && rights.is_some() && is_leaf(s.leaf, next) && is_below(s.leaf, leaves)
}

/// Whether a message may join: it is new, its sender is good, and its reply has the next leaf where it is signed.
fn stamp_holds(h: &[Change], s: &Stamp) -> bool
    requires timely { AreTimely h.now }
    requires room { length h.now ≤ 262144 }
    ensures { IsTrue result ↔ StampHolds h.now s.now }
{
    let next = reply_leaf(h, &s.who);
    stamp_rule(
        is_known(h, &s.digest),
        rights_of(h, s),
        next,
        reply_leaves(h),
        s,
    )
}

fn is_unused(state: DealState) -> bool
    ensures { IsTrue result ↔ (state ≡ Unused) }
{
    match state {
        DealState::Unused => true,
        _ => false,
    }
}

fn is_held(state: DealState) -> bool
    ensures { IsTrue result ↔ (state ≡ Held) }
{
    match state {
        DealState::Held => true,
        _ => false,
    }
}

fn is_denied(state: DealState) -> bool
    ensures { IsTrue result ↔ (state ≡ Denied) }
{
    match state {
        DealState::Denied => true,
        _ => false,
    }
}

fn is_confirmed(state: Option<CertificateState>) -> bool
    ensures { IsTrue result ↔ (state ≡ Some Confirmed) }
{
    match state {
        Some(CertificateState::Confirmed) => true,
        _ => false,
    }
}

/// Whether a request may be granted: at once, or after its release as it was held.
fn grant_comes(state: DealState, taken: bool, rights: Option<u8>, held_as: bool) -> bool
    ensures { IsTrue result ↔ GrantComes state taken rights held_as }
{
    match state {
        DealState::Unused => !taken && has_right(ENROL, rights) && !has_right(HOLD, rights),
        DealState::Released => held_as,
        _ => false,
    }
}

fn grant_rule(
    state: DealState,
    taken: bool,
    rights: Option<u8>,
    held_as: bool,
    used: u64,
    leaves: u32,
    serial: u64,
    leaf: u32,
) -> bool
    ensures { IsTrue result ↔ GrantRule state taken rights held_as used leaves serial leaf }
{
    grant_comes(state, taken, rights, held_as)
        && u64::from(leaf) == used
        && leaf < leaves
        && serial == u64::from(leaf) + 1
}

/// Whether the key that is asked for stands somewhere.
fn is_taken(h: &[Change], w: &Wish) -> bool
    ensures { result ≡ is_key_taken h.now (key_id (key_of w.now.spki)) }
{
    is_key_taken(h, &key_id(key_of(w.spki.as_slice())))
}

/// How the message's transaction stands.
fn deal_of(h: &[Change], s: &Stamp) -> DealState
    requires { AreTimely h.now }
    ensures { result ≡ transaction_state h.now s.now.tid }
{
    transaction_state(h, s.tid.as_slice())
}

fn grant_holds(h: &[Change], s: &Stamp, body: Body4, w: &Wish, serial: u64, leaf: u32) -> bool
    requires timely { AreTimely h.now }
    requires room { length h.now ≤ 262144 }
    ensures { IsTrue result ↔ GrantHolds h.now s.now body w.now serial leaf }
{
    let held_as = is_as_held(h, s, body, w);
    let used = leaves_used(h, Key::Issue);
    grant_rule(
        deal_of(h, s),
        is_taken(h, w),
        rights_of(h, s),
        held_as,
        used,
        issue_leaves(h),
        serial,
        leaf,
    )
}

/// Whether a Grant may come: its message may join, its request may be granted, and it takes the next leaf.
pub(crate) fn may_grant(
    h: &[Change],
    s: &Stamp,
    body: Body4,
    w: &Wish,
    serial: u64,
    leaf: u32,
) -> bool
    requires timely { AreTimely h.now }
    requires room { length h.now ≤ 262144 }
    ensures { IsTrue result ↔ (StampHolds h.now s.now × GrantHolds h.now s.now body w.now serial leaf) }
{
    stamp_holds(h, s) && grant_holds(h, s, body, w, serial, leaf)
}

fn hold_holds(h: &[Change], s: &Stamp, w: &Wish) -> bool
    requires { AreTimely h.now }
    ensures { IsTrue result ↔ HoldHolds h.now s.now w.now }
{
    let rights = rights_of(h, s);
    is_unused(deal_of(h, s))
        && !is_taken(h, w)
        && has_right(ENROL, rights)
        && has_right(HOLD, rights)
}

/// Whether a Hold may come: its message may join, its transaction and key are new, and its sender's requests wait.
pub(crate) fn may_hold(h: &[Change], s: &Stamp, w: &Wish) -> bool
    requires timely { AreTimely h.now }
    requires room { length h.now ≤ 262144 }
    ensures { IsTrue result ↔ (StampHolds h.now s.now × HoldHolds h.now s.now w.now) }
{
    stamp_holds(h, s) && hold_holds(h, s, w)
}

/// Whether the transaction waits for an order.
pub(crate) fn awaits_order(h: &[Change], tid: &[u8]) -> bool
    requires { AreTimely h.now }
    ensures { IsTrue result ↔ (transaction_state h.now tid.now ≡ Held) }
{
    is_held(transaction_state(h, tid))
}

/// Whether the denial of the message's transaction was told.
fn was_told(h: &[Change], s: &Stamp) -> bool
    ensures { result ≡ is_told h.now s.now.tid }
{
    is_told(h, s.tid.as_slice())
}

fn turned_holds(h: &[Change], s: &Stamp) -> bool
    requires { AreTimely h.now }
    ensures { IsTrue result ↔ TurnedHolds h.now s.now }
{
    is_denied(deal_of(h, s)) && !was_told(h, s) && is_holder(h, s)
}

/// Whether a denial may be told: the message may join, and nobody was told yet.
pub(crate) fn may_turn(h: &[Change], s: &Stamp) -> bool
    requires timely { AreTimely h.now }
    requires room { length h.now ≤ 262144 }
    ensures { IsTrue result ↔ (StampHolds h.now s.now × TurnedHolds h.now s.now) }
{
    stamp_holds(h, s) && turned_holds(h, s)
}

fn polled_holds(h: &[Change], s: &Stamp) -> bool
    requires { AreTimely h.now }
    ensures { IsTrue result ↔ PolledHolds h.now s.now }
{
    is_held(deal_of(h, s)) && is_holder(h, s)
}

/// Whether a held request may be asked for again: the message may join, and is of the same sender.
pub(crate) fn may_poll(h: &[Change], s: &Stamp) -> bool
    requires timely { AreTimely h.now }
    requires room { length h.now ≤ 262144 }
    ensures { IsTrue result ↔ (StampHolds h.now s.now × PolledHolds h.now s.now) }
{
    stamp_holds(h, s) && polled_holds(h, s)
}

fn is_open_past(time: u64, state: DealState) -> bool
    ensures { IsTrue result ↔ IsOpenPast time state }
{
    match state {
        DealState::Open { deadline, .. } => time < deadline,
        _ => false,
    }
}

fn is_open_until(time: u64, state: DealState) -> bool
    ensures { IsTrue result ↔ IsOpenUntil time state }
{
    match state {
        DealState::Open { deadline, .. } => deadline <= time,
        _ => false,
    }
}

fn settled_holds(h: &[Change], s: &Stamp) -> bool
    requires { AreTimely h.now }
    ensures { IsTrue result ↔ SettledHolds h.now s.now }
{
    is_open_past(s.time, deal_of(h, s)) && is_grantee(h, s)
}

/// Whether a certificate may be accepted or rejected: the message may join, it is in time, and of the sender it was granted to.
pub(crate) fn may_settle(h: &[Change], s: &Stamp) -> bool
    requires timely { AreTimely h.now }
    requires room { length h.now ≤ 262144 }
    ensures { IsTrue result ↔ (StampHolds h.now s.now × SettledHolds h.now s.now) }
{
    stamp_holds(h, s) && settled_holds(h, s)
}

/// Whether a certificate is the sender's own, or it may revoke what is another's.
fn may_withdraw(h: &[Change], s: &Stamp, serial: u64) -> bool
    requires { AreTimely h.now }
    ensures { result ≡ (is_granted_to s.now.who (find (is_grant_of serial) h.now) || same_who s.now.who (Who.Cert serial) || has_right 8 (rights_of h.now s.now)) }
{
    is_owner(h, &s.who, serial)
        || same_who(&s.who, &Who::Cert(serial))
        || has_right(REVOKE, rights_of(h, s))
}

fn revoke_holds(h: &[Change], s: &Stamp, serial: u64) -> bool
    requires { AreTimely h.now }
    ensures { IsTrue result ↔ RevokeHolds h.now s.now serial }
{
    is_unused(deal_of(h, s))
        && is_confirmed(certificate_state(h, serial))
        && may_withdraw(h, s, serial)
}

/// Whether a certificate may be revoked: the message may join, the certificate is confirmed, and the sender may.
pub(crate) fn may_revoke(h: &[Change], s: &Stamp, serial: u64) -> bool
    requires timely { AreTimely h.now }
    requires room { length h.now ≤ 262144 }
    ensures { IsTrue result ↔ (StampHolds h.now s.now × RevokeHolds h.now s.now serial) }
{
    stamp_holds(h, s) && revoke_holds(h, s, serial)
}

/// Whether the transaction's certificate wasn't confirmed by its deadline.
pub(crate) fn may_lapse(h: &[Change], tid: &[u8], time: u64) -> bool
    requires { AreTimely h.now }
    ensures { IsTrue result ↔ IsOpenUntil time (transaction_state h.now tid.now) }
{
    is_open_until(time, transaction_state(h, tid))
}
