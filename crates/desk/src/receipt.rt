//! What the reply to a change needs.
ghost use Rattle.std.specs.Prelude.{◌≡◌, ◌≤◌, ◌∷◌, [], ◌++◌, length, suc, IfOk, find, option_copied, option_map};
ghost use Rattle.std.specs.Option.{option_or};
ghost use Rattle.deal_changes.specs.Times.{time_of_change};
ghost use Rattle.deal_model.specs.Views.{is_grant_for, is_hold_for, is_grant_of, owner_of};
ghost use Rattle.deal_table.specs.History.{deal_in, deal_of, granted_key, secret_of, receipt_in, receipt_at};

use cmp_ports::Octets;
use deal_answers::{grant_for, grant_of, hold_for, key_of, owner_of};
use deal_model::{Body4, Change, Kind, Owner, Who};
use std::alloc::{AllocError, Global};
use std::marker::Model;
use std::slice::from_ref;

/// What the reply to a change needs. Only a desk makes one, and of a change that stands in its history. Contracts see it as
/// deal_table's Receipted.
#[derive(Drop)]
pub struct Receipt {
    place: u64,
    change: Change,
    body: Option<Body4>,
    key: Octets,
}

impl Model for Receipt {
    ghost use Rattle.deal_table.specs.History.{Receipted};

    ghost Value = { Receipted };

    ghost view = { λ r. record { place = r.place; change = r.change; body = r.body; key = r.key } };
}

impl Receipt {
    /// The place of the change, from 1 on: the length of the history up to it.
    pub fn place(&self) -> u64
        ensures { result ≡ self.now.place }
    {
        self.place
    }

    /// The change.
    pub fn change(&self) -> &Change
        ensures { result.now ≡ self.now.change }
    {
        &self.change
    }

    /// When the change was made, in seconds since 1970.
    pub fn time(&self) -> u64
        ensures { result ≡ time_of_change self.now.change }
    {
        self.change.time()
    }

    /// The body of the request that began the change's transaction (RFC 9810, 5.1.2); none where it revokes.
    pub fn body(&self) -> Option<Body4>
        ensures { result ≡ self.now.body }
    {
        self.body
    }

    /// The secret or key of the change's sender.
    pub fn key(&self) -> &[u8]
        ensures { result.now ≡ self.now.key }
    {
        self.key.as_slice()
    }
}

// The Grant of a transaction, in a history with one change behind it.
#[tactic(auto, using(crate::proofs::ReceiptLemmas::found_behind))]
fn grant_behind<'a>(h: &'a [Change], c: &'a Change, tid: &[u8]) -> Option<&'a Change>
    ensures { option_copied result ≡ find (is_grant_for tid.now) (h.now ++ c.now ∷ []) }
{
    match grant_for(h, tid) {
        Some(found) => Some(found),
        None => grant_for(from_ref(c), tid),
    }
}

// The Hold of a transaction.
#[tactic(auto, using(crate::proofs::ReceiptLemmas::found_behind))]
fn hold_behind<'a>(h: &'a [Change], c: &'a Change, tid: &[u8]) -> Option<&'a Change>
    ensures { option_copied result ≡ find (is_hold_for tid.now) (h.now ++ c.now ∷ []) }
{
    match hold_for(h, tid) {
        Some(found) => Some(found),
        None => hold_for(from_ref(c), tid),
    }
}

// The Grant of a transaction, or else its Hold.
fn request_behind<'a>(h: &'a [Change], c: &'a Change, tid: &[u8]) -> Option<&'a Change>
    ensures { option_copied result ≡ option_or (find (is_grant_for tid.now) (h.now ++ c.now ∷ [])) (find (is_hold_for tid.now) (h.now ++ c.now ∷ [])) }
{
    match grant_behind(h, c, tid) {
        Some(grant) => Some(grant),
        None => hold_behind(h, c, tid),
    }
}

fn body_in(c: &Change) -> Option<Body4>
    ensures { result ≡ option_map (λ d. d.body) (deal_in c.now) }
{
    match c {
        Change::Grant { body, .. } => Some(*body),
        Change::Hold { body, .. } => Some(*body),
        _ => None,
    }
}

// The body of the request that began a transaction.
#[tactic(auto, unfolding(deal_table::specs::History::deal_of))]
fn body_behind(h: &[Change], c: &Change, tid: &[u8]) -> Option<Body4>
    ensures { result ≡ option_map (λ d. d.body) (deal_of (h.now ++ c.now ∷ []) tid.now) }
{
    match request_behind(h, c, tid) {
        Some(request) => body_in(request),
        None => None,
    }
}

// To whom a credential belongs.
#[tactic(auto, using(crate::proofs::ReceiptLemmas::owner_behind))]
fn owner_behind(h: &[Change], c: &Change, kind: Kind, kid: &[u8]) -> Option<Owner>
    ensures { result ≡ owner_of (h.now ++ c.now ∷ []) kind kid.now }
{
    match owner_of(h, kind, kid) {
        Some(owner) => Some(owner),
        None => owner_of(from_ref(c), kind, kid),
    }
}

// The Grant of a certificate.
#[tactic(auto, using(crate::proofs::ReceiptLemmas::found_behind))]
fn certificate_behind<'a>(h: &'a [Change], c: &'a Change, serial: u64) -> Option<&'a Change>
    ensures { option_copied result ≡ find (is_grant_of serial) (h.now ++ c.now ∷ []) }
{
    match grant_of(h, serial) {
        Some(found) => Some(found),
        None => grant_of(from_ref(c), serial),
    }
}

fn granted_key(c: &Change) -> &[u8]
    ensures { result.now ≡ granted_key c.now }
{
    match c {
        Change::Grant { wish, .. } => key_of(wish.spki.as_slice()),
        _ => &[],
    }
}

// The secret or key of a sender.
fn secret_behind(alloc: Global, h: &[Change], c: &Change, who: &Who) -> Result<Octets, AllocError>
    ensures { IfOk result (λ key. key ≡ secret_of (h.now ++ c.now ∷ []) who.now) }
{
    match who {
        Who::Listed(kind, kid) => match owner_behind(h, c, *kind, kid.as_slice()) {
            Some(owner) => Octets::copy_of(alloc, owner.key.as_slice()),
            None => Ok(Octets::empty(alloc)),
        },
        Who::Cert(serial) => match certificate_behind(h, c, *serial) {
            Some(grant) => Octets::copy_of(alloc, granted_key(grant)),
            None => Ok(Octets::empty(alloc)),
        },
    }
}

/// What the reply to a change needs, where a message made it, once the change stands behind this history.
pub(crate) fn receipt_behind(
    alloc: Global,
    h: &[Change],
    c: &Change,
) -> Result<Option<Receipt>, AllocError>
    requires { length h.now ≤ 262144 }
    ensures { IfOk result (λ r. r ≡ receipt_in (h.now ++ c.now ∷ []) (suc (length h.now)) c.now) }
{
    let Some(stamp) = c.stamp() else {
        return Ok(None);
    };
    Ok(Some(Receipt {
        place: h.len() as u64 + 1,
        change: Change::copy_of(alloc, c)?,
        body: body_behind(h, c, stamp.tid.as_slice()),
        key: secret_behind(alloc, h, c, &stamp.who)?,
    }))
}

/// What the reply to the change at a place needs; none where no message made a change there.
#[tactic(auto, unfolding(deal_table::specs::History::receipt_at), using(crate::proofs::ReceiptLemmas::cut_behind))]
pub(crate) fn receipt_at(
    alloc: Global,
    h: &[Change],
    place: u64,
) -> Result<Option<Receipt>, AllocError>
    requires room { length h.now ≤ 262144 }
    requires low { 1 ≤ place }
    requires high { place ≤ length h.now }
    ensures { IfOk result (λ r. r ≡ receipt_at h.now place) }
{
    let index = place as usize - 1;
    receipt_behind(alloc, &h[..index], &h[index])
}
