//! What a transaction is about.
ghost use Rattle.std.specs.Prelude.{◌≡◌, option_copied, option_and_then};
ghost use Rattle.deal_table.specs.History.{deal_in, deal_of};
ghost use Rattle.deal_table.specs.Table.{is_of, is_bad_id, is_p10cr, same_nonce};
ghost use Rattle.deal_table.specs.Carry.{id_by};

use cmp_values::Short;
use deal_answers::{grant_for, hold_for};
use deal_model::{Body4, Change, Who};
use deal_rules::same_who;

/// The change that tells what a transaction is about: its Grant, or else its Hold.
#[tactic(auto, unfolding(deal_table::specs::History::deal_of))]
pub(crate) fn request_for<'a>(h: &'a [Change], tid: &[u8]) -> Option<&'a Change>
    ensures { option_and_then deal_in (option_copied result) ≡ deal_of h.now tid.now }
{
    match grant_for(h, tid) {
        Some(grant) => Some(grant),
        None => hold_for(h, tid),
    }
}

/// Whether this sender began the transaction.
pub(crate) fn is_of(request: Option<&Change>, who: &Who) -> bool
    ensures { result ≡ is_of (option_and_then deal_in (option_copied request.entry)) who.now }
{
    match request {
        Some(Change::Grant { stamp, .. }) => same_who(&stamp.who, who),
        Some(Change::Hold { stamp, .. }) => same_who(&stamp.who, who),
        _ => false,
    }
}

fn is_p10cr(body: Body4) -> bool
    ensures { result ≡ is_p10cr body }
{
    match body {
        Body4::P10cr => true,
        Body4::Ir => false,
        Body4::Cr => false,
        Body4::Kur => false,
    }
}

/// Whether a certReqId isn't the transaction's: it is 0, or -1 where the request was in the form of PKCS #10 (RFC 9810, 5.3.4).
pub(crate) fn is_bad_id(request: Option<&Change>, id_ok: bool, minus_one: bool) -> bool
    ensures { result ≡ is_bad_id (option_and_then deal_in (option_copied request.entry)) (id_by id_ok minus_one) }
{
    if !id_ok {
        return true;
    }
    if !minus_one {
        return false;
    }
    match request {
        Some(Change::Grant { body, .. }) => !is_p10cr(*body),
        Some(Change::Hold { body, .. }) => !is_p10cr(*body),
        _ => true,
    }
}

/// Whether both nonces stand and are the same.
pub(crate) fn same_nonce(recip: &Option<Short>, last: &Option<[u8; 16]>) -> bool
    ensures { result ≡ same_nonce recip.now last.now }
{
    match (recip, last) {
        (Some(recip), Some(last)) => recip.as_slice() == last.as_slice(),
        (Some(_), None) => false,
        (None, Some(_)) => false,
        (None, None) => false,
    }
}
