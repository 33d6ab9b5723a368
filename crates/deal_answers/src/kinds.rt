//! Tests of one change.
ghost use Rattle.std.specs.Prelude.{◌≡◌, option_copied};
ghost use Rattle.std.specs.List.{list_any};
ghost use Rattle.deal_model.specs.Views.{same, is_grant, is_grant_for, is_hold_for, is_release_for, is_deny_for, is_turned_for, is_settled_for, is_revoke_for, is_lapse_for, is_grant_of, is_revoke_of, has_digest, has_leaf, is_stamped_for, same_kind, other_kind, is_entry, lists, is_listed_as, is_dismiss_of, takes_key};
ghost use Rattle.deal_model.specs.Keys.{key_id};

use crate::keys::{key_id, key_of};
use deal_model::{Change, Credential, Kind, Who};

pub(crate) fn same(a: &[u8], b: &[u8]) -> bool
    ensures { result ≡ same a.now b.now }
{
    a == b
}

pub(crate) fn is_grant(c: &Change) -> bool
    ensures { result ≡ is_grant c.now }
{
    match c {
        Change::Grant { .. } => true,
        _ => false,
    }
}

/// Whether a change is the Grant of this transaction.
pub fn is_grant_for(tid: &[u8], c: &Change) -> bool
    ensures { result ≡ is_grant_for tid.now c.now }
{
    match c {
        Change::Grant { stamp, .. } => same(stamp.tid.as_slice(), tid),
        _ => false,
    }
}

pub(crate) fn is_hold_for(tid: &[u8], c: &Change) -> bool
    ensures { result ≡ is_hold_for tid.now c.now }
{
    match c {
        Change::Hold { stamp, .. } => same(stamp.tid.as_slice(), tid),
        _ => false,
    }
}

pub(crate) fn is_release_for(tid: &[u8], c: &Change) -> bool
    ensures { result ≡ is_release_for tid.now c.now }
{
    match c {
        Change::Release { tid: id, .. } => same(id.as_slice(), tid),
        _ => false,
    }
}

pub(crate) fn is_deny_for(tid: &[u8], c: &Change) -> bool
    ensures { result ≡ is_deny_for tid.now c.now }
{
    match c {
        Change::Deny { tid: id, .. } => same(id.as_slice(), tid),
        _ => false,
    }
}

pub(crate) fn is_turned_for(tid: &[u8], c: &Change) -> bool
    ensures { result ≡ is_turned_for tid.now c.now }
{
    match c {
        Change::Turned(stamp) => same(stamp.tid.as_slice(), tid),
        _ => false,
    }
}

pub(crate) fn is_settled_for(tid: &[u8], c: &Change) -> bool
    ensures { result ≡ is_settled_for tid.now c.now }
{
    match c {
        Change::Settled { stamp, .. } => same(stamp.tid.as_slice(), tid),
        _ => false,
    }
}

pub(crate) fn is_revoke_for(tid: &[u8], c: &Change) -> bool
    ensures { result ≡ is_revoke_for tid.now c.now }
{
    match c {
        Change::Revoke { stamp, .. } => same(stamp.tid.as_slice(), tid),
        _ => false,
    }
}

pub(crate) fn is_lapse_for(tid: &[u8], c: &Change) -> bool
    ensures { result ≡ is_lapse_for tid.now c.now }
{
    match c {
        Change::Lapse { tid: id, .. } => same(id.as_slice(), tid),
        _ => false,
    }
}

pub(crate) fn is_grant_of(n: u64, c: &Change) -> bool
    ensures { result ≡ is_grant_of n c.now }
{
    match c {
        Change::Grant { serial, .. } => *serial == n,
        _ => false,
    }
}

pub(crate) fn is_revoke_of(n: u64, c: &Change) -> bool
    ensures { result ≡ is_revoke_of n c.now }
{
    match c {
        Change::Revoke { serial, .. } => *serial == n,
        _ => false,
    }
}

/// Whether the message with this digest made a change.
pub fn has_digest(digest: &[u8; 32], c: &Change) -> bool
    ensures { result ≡ has_digest digest.now c.now }
{
    match c.stamp() {
        Some(stamp) => same(&stamp.digest, digest),
        None => false,
    }
}

pub(crate) fn has_leaf(c: &Change) -> bool
    ensures { result ≡ has_leaf c.now }
{
    match c.stamp() {
        Some(stamp) => stamp.leaf.is_some(),
        None => false,
    }
}

pub(crate) fn is_stamped_for(tid: &[u8], c: &Change) -> bool
    ensures { result ≡ is_stamped_for tid.now c.now }
{
    match c.stamp() {
        Some(stamp) => same(stamp.tid.as_slice(), tid),
        None => false,
    }
}

pub(crate) fn same_kind(a: Kind, b: Kind) -> bool
    ensures { result ≡ same_kind a b }
{
    match (a, b) {
        (Kind::Mac, Kind::Mac) => true,
        (Kind::Lms, Kind::Lms) => true,
        (Kind::Mac, Kind::Lms) => false,
        (Kind::Lms, Kind::Mac) => false,
    }
}

pub(crate) fn other_kind(kind: Kind) -> Kind
    ensures { result ≡ other_kind kind }
{
    match kind {
        Kind::Mac => Kind::Lms,
        Kind::Lms => Kind::Mac,
    }
}

pub(crate) fn is_entry(kind: Kind, kid: &[u8], c: &Credential) -> bool
    ensures { result ≡ is_entry kind kid.now c.now }
{
    same_kind(c.kind, kind) && same(c.kid.as_slice(), kid)
}

fn has_entry(kind: Kind, kid: &[u8], list: &[Credential]) -> bool
    ensures { result ≡ list_any (is_entry kind kid.now) list.now }
{
    list.iter().any(|c| is_entry(kind, kid, c))
}

pub(crate) fn lists(kind: Kind, kid: &[u8], c: &Change) -> bool
    ensures { result ≡ lists kind kid.now c.now }
{
    match c {
        Change::Enlist { list, .. } => has_entry(kind, kid, list.as_slice()),
        _ => false,
    }
}

fn is_listed_as(kind: Kind, kid: &[u8], who: &Who) -> bool
    ensures { result ≡ is_listed_as kind kid.now who.now }
{
    match who {
        Who::Listed(k, id) => same_kind(*k, kind) && same(id.as_slice(), kid),
        Who::Cert(_) => false,
    }
}

pub(crate) fn is_dismiss_of(kind: Kind, kid: &[u8], c: &Change) -> bool
    ensures { result ≡ is_dismiss_of kind kid.now c.now }
{
    match c {
        Change::Dismiss { who, .. } => is_listed_as(kind, kid, who),
        _ => false,
    }
}

fn is_key(id: &[u8], key: &[u8]) -> bool
    ensures { result ≡ same (key_id key.now) id.now }
{
    same(&key_id(key), id)
}

pub(crate) fn takes_key(id: &[u8], c: &Change) -> bool
    ensures { result ≡ takes_key id.now c.now }
{
    match c {
        Change::Found(settings) => is_key(id, &settings.issue_key)
            || is_key(id, &settings.reply_key),
        Change::Enlist { list, .. } => has_entry(Kind::Lms, id, list.as_slice()),
        Change::Grant { wish, .. } => is_key(id, key_of(wish.spki.as_slice())),
        Change::Hold { wish, .. } => is_key(id, key_of(wish.spki.as_slice())),
        _ => false,
    }
}
