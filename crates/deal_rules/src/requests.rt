//! The request that a message belongs to.
ghost use Rattle.std.specs.Prelude.{◌≡◌, option_copied, find};
ghost use Rattle.deal_model.specs.Views.{is_hold_for, is_grant_for, is_grant_of};
ghost use Rattle.deal_model.specs.Rules.{same_body, same_bool, same_wish, is_held_by, is_held_as, is_granted_to};

use crate::senders::same_who;
use deal_answers::{grant_for, grant_of, hold_for};
use deal_model::{Body4, Change, Stamp, Who, Wish};

fn same_body(a: Body4, b: Body4) -> bool
    ensures { result ≡ same_body a b }
{
    match (a, b) {
        (Body4::Ir, Body4::Ir) => true,
        (Body4::Cr, Body4::Cr) => true,
        (Body4::P10cr, Body4::P10cr) => true,
        (Body4::Kur, Body4::Kur) => true,
        _ => false,
    }
}

fn same_bool(a: bool, b: bool) -> bool
    ensures { result ≡ same_bool a b }
{
    if a { b } else { !b }
}

fn same_wish(v: &Wish, w: &Wish) -> bool
    ensures { result ≡ same_wish v.now w.now }
{
    v.subject.as_slice() == w.subject.as_slice()
        && v.spki.as_slice() == w.spki.as_slice()
        && v.exts.as_slice() == w.exts.as_slice()
        && same_bool(v.implicit, w.implicit)
        && same_bool(v.mods, w.mods)
}

fn is_held_by(who: &Who, found: Option<&Change>) -> bool
    ensures { result ≡ is_held_by who.now (option_copied found.entry) }
{
    match found {
        Some(Change::Hold { stamp, .. }) => same_who(&stamp.who, who),
        _ => false,
    }
}

fn is_held_as(who: &Who, body: Body4, wish: &Wish, found: Option<&Change>) -> bool
    ensures { result ≡ is_held_as who.now body wish.now (option_copied found.entry) }
{
    match found {
        Some(
            Change::Hold {
                stamp,
                body: asked,
                wish: wished,
            },
        ) => same_who(&stamp.who, who) && same_body(*asked, body) && same_wish(wished, wish),
        _ => false,
    }
}

fn is_granted_to(who: &Who, found: Option<&Change>) -> bool
    ensures { result ≡ is_granted_to who.now (option_copied found.entry) }
{
    match found {
        Some(Change::Grant { stamp, .. }) => same_who(&stamp.who, who),
        _ => false,
    }
}

/// Whether the Hold of the message's transaction is of its sender.
pub(crate) fn is_holder(h: &[Change], s: &Stamp) -> bool
    ensures { result ≡ is_held_by s.now.who (find (is_hold_for s.now.tid) h.now) }
{
    is_held_by(&s.who, hold_for(h, s.tid.as_slice()))
}

/// Whether the Hold of the message's transaction is of its sender, and all was asked in it that is asked now.
pub(crate) fn is_as_held(h: &[Change], s: &Stamp, body: Body4, wish: &Wish) -> bool
    ensures { result ≡ is_held_as s.now.who body wish.now (find (is_hold_for s.now.tid) h.now) }
{
    is_held_as(&s.who, body, wish, hold_for(h, s.tid.as_slice()))
}

/// Whether the Grant of the message's transaction is to its sender.
pub(crate) fn is_grantee(h: &[Change], s: &Stamp) -> bool
    ensures { result ≡ is_granted_to s.now.who (find (is_grant_for s.now.tid) h.now) }
{
    is_granted_to(&s.who, grant_for(h, s.tid.as_slice()))
}

/// Whether the certificate with this serial number was granted to the sender.
pub fn is_owner(h: &[Change], who: &Who, serial: u64) -> bool
    ensures { result ≡ is_granted_to who.now (find (is_grant_of serial) h.now) }
{
    is_granted_to(who, grant_of(h, serial))
}
