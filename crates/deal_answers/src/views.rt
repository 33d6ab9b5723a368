//! The answers of a history, each by a walk over the whole list.
ghost use Rattle.std.specs.Prelude.{◌≡◌, ◌+◌, ◌≤◌, Option, Some, None, IfSome, option_copied, option_and_then, option_map, find, count_by, reverse, length, take, is_some};
ghost use Rattle.std.specs.List.{list_any};
ghost use Rattle.deal_model.specs.Views.{founding_in, founding, settings_of, is_grant, is_grant_for, is_hold_for, is_release_for, is_deny_for, is_turned_for, is_settled_for, is_revoke_for, is_lapse_for, is_grant_of, is_revoke_of, has_digest, has_leaf, lists, is_listed, is_dismiss_of, is_dismissed, takes_key, is_key_taken, at_first, after_lapse, after_settled, after_revoke, state_of_grant, state_by_change, certificate_state, open_or_closed, after_grant, ungranted_state, transaction_state, is_told, leaves_used, AreTimely, IsTimely};

use crate::kinds::*;
use deal_model::{CertificateState, Change, DealState, Key, Kind, Reason, Settings, Stamp, Wish};

fn founding_in(c: &Change) -> Option<&Settings>
    ensures { option_copied result ≡ founding_in c.now }
{
    match c {
        Change::Found(settings) => Some(settings),
        _ => None,
    }
}

/// What the service was founded with.
pub fn founding(h: &[Change]) -> Option<&Settings>
    ensures { option_copied result ≡ founding h.now }
{
    match h {
        [] => None,
        [first, ..] => founding_in(first),
    }
}

fn wait_of(h: &[Change]) -> u32
    ensures { result ≡ (settings_of h.now).wait }
{
    match founding(h) {
        Some(settings) => settings.wait,
        None => 0,
    }
}

/// The Grant of a transaction; none where there is none.
pub fn grant_for<'a>(h: &'a [Change], tid: &[u8]) -> Option<&'a Change>
    ensures { option_copied result ≡ find (is_grant_for tid.now) h.now }
{
    h.iter().find(|c| is_grant_for(tid, c))
}

/// The Hold of a transaction; none where there is none.
pub fn hold_for<'a>(h: &'a [Change], tid: &[u8]) -> Option<&'a Change>
    ensures { option_copied result ≡ find (is_hold_for tid.now) h.now }
{
    h.iter().find(|c| is_hold_for(tid, c))
}

/// The Grant of the certificate with this serial number; none where there is none.
pub fn grant_of(h: &[Change], serial: u64) -> Option<&Change>
    ensures { option_copied result ≡ find (is_grant_of serial) h.now }
{
    h.iter().find(|c| is_grant_of(serial, c))
}

fn revoke_of(h: &[Change], serial: u64) -> Option<&Change>
    ensures { option_copied result ≡ find (is_revoke_of serial) h.now }
{
    h.iter().find(|c| is_revoke_of(serial, c))
}

fn settled_for<'a>(h: &'a [Change], tid: &[u8]) -> Option<&'a Change>
    ensures { option_copied result ≡ find (is_settled_for tid.now) h.now }
{
    h.iter().find(|c| is_settled_for(tid, c))
}

fn has_lapse(h: &[Change], tid: &[u8]) -> bool
    ensures { result ≡ list_any (is_lapse_for tid.now) h.now }
{
    h.iter().any(|c| is_lapse_for(tid, c))
}

fn has_deny(h: &[Change], tid: &[u8]) -> bool
    ensures { result ≡ list_any (is_deny_for tid.now) h.now }
{
    h.iter().any(|c| is_deny_for(tid, c))
}

fn has_release(h: &[Change], tid: &[u8]) -> bool
    ensures { result ≡ list_any (is_release_for tid.now) h.now }
{
    h.iter().any(|c| is_release_for(tid, c))
}

fn has_hold(h: &[Change], tid: &[u8]) -> bool
    ensures { result ≡ list_any (is_hold_for tid.now) h.now }
{
    h.iter().any(|c| is_hold_for(tid, c))
}

fn has_revoke(h: &[Change], tid: &[u8]) -> bool
    ensures { result ≡ list_any (is_revoke_for tid.now) h.now }
{
    h.iter().any(|c| is_revoke_for(tid, c))
}

/// Whether the requester of a denied transaction was told so.
pub fn is_told(h: &[Change], tid: &[u8]) -> bool
    ensures { result ≡ is_told h.now tid.now }
{
    h.iter().any(|c| is_turned_for(tid, c))
}

/// Whether a message with this digest stands in the history.
pub fn is_known(h: &[Change], digest: &[u8; 32]) -> bool
    ensures { result ≡ list_any (has_digest digest.now) h.now }
{
    h.iter().any(|c| has_digest(digest, c))
}

/// Whether a credential was ever listed.
pub fn is_listed(h: &[Change], kind: Kind, kid: &[u8]) -> bool
    ensures { result ≡ is_listed h.now kind kid.now }
{
    h.iter().any(|c| lists(kind, kid, c))
}

/// Whether a listed credential was dismissed.
pub fn is_dismissed(h: &[Change], kind: Kind, kid: &[u8]) -> bool
    ensures { result ≡ is_dismissed h.now kind kid.now }
{
    h.iter().any(|c| is_dismiss_of(kind, kid, c))
}

/// Whether a key identifier stands somewhere.
pub fn is_key_taken(h: &[Change], id: &[u8]) -> bool
    ensures { result ≡ is_key_taken h.now id.now }
{
    h.iter().any(|c| takes_key(id, c))
}

#[tactic(auto, unfolding(deal_model::specs::Views::at_first))]
fn at_first(h: &[Change], s: &Stamp, w: &Wish) -> CertificateState
    requires { s.now.time ≤ 250000000000 }
    ensures { result ≡ at_first h.now s.now w.now }
{
    if w.implicit {
        CertificateState::Confirmed
    } else {
        CertificateState::Open {
            deadline: s.time + u64::from(wait_of(h)),
        }
    }
}

#[tactic(auto, unfolding(deal_model::specs::Views::after_lapse))]
fn after_lapse(lapsed: bool, otherwise: CertificateState) -> CertificateState
    ensures { result ≡ after_lapse lapsed otherwise }
{
    if lapsed {
        CertificateState::Revoked {
            reason: Reason::Timeout,
        }
    } else {
        otherwise
    }
}

#[tactic(auto, unfolding(deal_model::specs::Views::after_settled))]
fn after_settled(found: Option<&Change>, otherwise: CertificateState) -> CertificateState
    ensures { result ≡ after_settled (option_copied found.entry) otherwise }
{
    match found {
        Some(Change::Settled { accepted, .. }) => {
            if *accepted {
                CertificateState::Confirmed
            } else {
                CertificateState::Revoked {
                    reason: Reason::Rejected,
                }
            }
        }
        _ => otherwise,
    }
}

#[tactic(auto, unfolding(deal_model::specs::Views::after_revoke))]
fn after_revoke(found: Option<&Change>, otherwise: CertificateState) -> CertificateState
    ensures { result ≡ after_revoke (option_copied found.entry) otherwise }
{
    match found {
        Some(Change::Revoke { reason, .. }) => CertificateState::Revoked {
            reason: Reason::Asked(*reason),
        },
        _ => otherwise,
    }
}

fn unsettled_state(h: &[Change], s: &Stamp, w: &Wish) -> CertificateState
    requires { s.now.time ≤ 250000000000 }
    ensures { result ≡ after_lapse (list_any (is_lapse_for s.now.tid) h.now) (at_first h.now s.now w.now) }
{
    let first = at_first(h, s, w);
    after_lapse(has_lapse(h, s.tid.as_slice()), first)
}

fn unrevoked_state(h: &[Change], s: &Stamp, w: &Wish) -> CertificateState
    requires { s.now.time ≤ 250000000000 }
    ensures { result ≡ after_settled (find (is_settled_for s.now.tid) h.now) (after_lapse (list_any (is_lapse_for s.now.tid) h.now) (at_first h.now s.now w.now)) }
{
    let unsettled = unsettled_state(h, s, w);
    after_settled(settled_for(h, s.tid.as_slice()), unsettled)
}

fn state_of_grant(h: &[Change], serial: u64, s: &Stamp, w: &Wish) -> CertificateState
    requires { s.now.time ≤ 250000000000 }
    ensures { result ≡ state_of_grant h.now serial s.now w.now }
{
    let unrevoked = unrevoked_state(h, s, w);
    after_revoke(revoke_of(h, serial), unrevoked)
}

fn state_by_change(h: &[Change], c: &Change) -> Option<CertificateState>
    requires { IsTimely c.now }
    ensures { result ≡ state_by_change h.now c.now }
{
    match c {
        Change::Grant {
            stamp,
            wish,
            serial,
            ..
        } => Some(state_of_grant(h, *serial, stamp, wish)),
        _ => None,
    }
}

/// How the certificate with this serial number stands; none where none was granted.
#[tactic(auto, using(crate::proofs::Finds::found_time), unfolding(deal_model::specs::Views::certificate_state))]
pub fn certificate_state(h: &[Change], serial: u64) -> Option<CertificateState>
    requires { AreTimely h.now }
    ensures { result ≡ certificate_state h.now serial }
{
    match grant_of(h, serial) {
        Some(c) => state_by_change(h, c),
        None => None,
    }
}

fn open_or_closed(serial: u64, state: Option<CertificateState>) -> DealState
    ensures { result ≡ open_or_closed serial state }
{
    match state {
        Some(CertificateState::Open { deadline }) => DealState::Open { serial, deadline },
        Some(CertificateState::Confirmed) => DealState::Closed,
        Some(CertificateState::Revoked { .. }) => DealState::Closed,
        None => DealState::Closed,
    }
}

#[tactic(auto, unfolding(deal_model::specs::Views::after_grant))]
fn after_grant(h: &[Change], found: Option<&Change>, otherwise: DealState) -> DealState
    requires { AreTimely h.now }
    ensures { result ≡ after_grant h.now (option_copied found.entry) otherwise }
{
    match found {
        Some(Change::Grant { serial, .. }) => open_or_closed(
            *serial,
            certificate_state(h, *serial),
        ),
        _ => otherwise,
    }
}

fn ungranted_state(h: &[Change], tid: &[u8]) -> DealState
    ensures { result ≡ ungranted_state h.now tid.now }
{
    if has_deny(h, tid) {
        DealState::Denied
    } else if has_release(h, tid) {
        DealState::Released
    } else if has_hold(h, tid) {
        DealState::Held
    } else if has_revoke(h, tid) {
        DealState::Other
    } else {
        DealState::Unused
    }
}

/// How a transaction stands.
#[tactic(auto, unfolding(deal_model::specs::Views::transaction_state))]
pub fn transaction_state(h: &[Change], tid: &[u8]) -> DealState
    requires { AreTimely h.now }
    ensures { result ≡ transaction_state h.now tid.now }
{
    after_grant(h, grant_for(h, tid), ungranted_state(h, tid))
}

fn grants(h: &[Change]) -> u64
    ensures value { result ≡ count_by is_grant h.now }
    ensures bound { result ≤ length h.now }
{
    let mut count = 0;
    for c in h {
        if is_grant(c) {
            count += 1;
        }
    }
    count
}

fn signed_replies(h: &[Change]) -> u64
    ensures value { result ≡ count_by has_leaf h.now }
    ensures bound { result ≤ length h.now }
{
    let mut count = 0;
    for c in h {
        if has_leaf(c) {
            count += 1;
        }
    }
    count
}

/// How many leaves of a key are used.
#[tactic(auto, unfolding(deal_model::specs::Views::leaves_used))]
pub fn leaves_used(h: &[Change], key: Key) -> u64
    requires { length h.now ≤ 262144 }
    ensures { result ≡ leaves_used h.now key }
{
    match key {
        Key::Issue => match h {
            [] => 0,
            _ => 2 + grants(h),
        },
        Key::Reply => signed_replies(h),
    }
}
