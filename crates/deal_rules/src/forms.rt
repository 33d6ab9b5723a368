//! Whether a change has a spelling.
ghost use Rattle.std.specs.Prelude.{◌≡◌, ◌<◌, ◌≤◌, ◌^◌, ◌↔◌, length, IsTrue, IfSome};
ghost use Rattle.std.specs.List.{AllByRecursion};
ghost use Rattle.deal_changes.specs.Spki.{is_ca_name};
ghost use Rattle.deal_changes.specs.Spelling.{IsBlob, IsShort, IsTid, IsWho, IsListed, IsStamp, IsWish, AreSettings, IsCredential, AreCredentials, IsChange};

use crate::sizes::{digest_size, key_size};
use cmp_values::{Octets, Short};
use deal_model::{Change, Credential, Kind, Settings, Stamp, Who, Wish, is_ca_name, is_spki};

/// The octets of a length that four octets can tell.
const BLOB_LIMIT: usize = 0x1_0000_0000;

fn is_blob(octets: &Octets) -> bool
    ensures { IsTrue result ↔ IsBlob octets.now }
{
    octets.len() < BLOB_LIMIT
}

/// Whether octets are a Name that the authority may have.
fn is_name(name: &Octets) -> bool
    ensures { IsTrue result ↔ IsTrue (is_ca_name name.now) }
{
    is_ca_name(name.as_slice())
}

fn is_tid(tid: &Short) -> bool
    ensures { IsTrue result ↔ IsTid tid.now }
{
    tid.len() >= 1
}

fn is_who(who: &Who) -> bool
    ensures { IsTrue result ↔ IsWho who.now }
{
    match who {
        Who::Listed(Kind::Mac, id) => id.len() <= 64,
        Who::Listed(Kind::Lms, id) => id.len() == 20,
        Who::Cert(serial) => *serial <= u64::MAX,
    }
}

fn is_listed(who: &Who) -> bool
    ensures { IsTrue result ↔ IsListed who.now }
{
    match who {
        Who::Listed(..) => is_who(who),
        Who::Cert(_) => false,
    }
}

fn is_leaf(leaf: Option<u32>) -> bool
    ensures { IsTrue result ↔ IfSome leaf (λ l. l < 2 ^ 32) }
{
    match leaf {
        Some(leaf) => leaf <= u32::MAX,
        None => true,
    }
}

/// Whether the fields of a stamp are of their sizes, which their types say.
fn are_whole(s: &Stamp) -> bool
    ensures { IsTrue result ↔ ((length s.now.digest ≡ 32) × (length s.now.words ≡ 32) × (s.now.pvno < 2 ^ 8) × (s.now.time < 2 ^ 64)) }
{
    digest_size(&s.digest) == 32
        && digest_size(&s.words) == 32
        && s.pvno <= u8::MAX
        && s.time <= u64::MAX
}

fn is_stamp(s: &Stamp) -> bool
    ensures { IsTrue result ↔ IsStamp s.now }
{
    if !is_tid(&s.tid) || !is_who(&s.who) {
        return false;
    }
    if !is_blob(&s.sender) || s.sender_nonce.len() > 64 {
        return false;
    }
    are_whole(s) && is_leaf(s.leaf)
}

fn is_wish(w: &Wish) -> bool
    ensures { IsTrue result ↔ IsWish w.now }
{
    is_blob(&w.subject) && is_blob(&w.spki) && is_spki(w.spki.as_slice()) && is_blob(&w.exts)
}

/// Whether numbers of 32 bits are below 2^32, which their types say.
fn are_numbers(s: &Settings) -> bool
    ensures { IsTrue result ↔ ((s.now.wait < 2 ^ 32) × (s.now.skew < 2 ^ 32) × (s.now.rounds < 2 ^ 32) × (s.now.check_after < 2 ^ 32) × (s.now.days < 2 ^ 32)) }
{
    s.wait <= u32::MAX
        && s.skew <= u32::MAX
        && s.rounds <= u32::MAX
        && s.check_after <= u32::MAX
        && s.days <= u32::MAX
}

fn are_settings(s: &Settings) -> bool
    ensures { IsTrue result ↔ AreSettings s.now }
{
    if key_size(&s.issue_key) != 60 || key_size(&s.reply_key) != 60 {
        return false;
    }
    if !is_blob(&s.name) || s.time > u64::MAX {
        return false;
    }
    is_name(&s.name) && are_numbers(s)
}

fn is_credential(c: &Credential) -> bool
    ensures { IsTrue result ↔ IsCredential c.now }
{
    c.kid.len() <= 64 && c.material.len() <= 64 && c.rights < 32
}

fn each_is_credential(list: &[Credential]) -> bool
    ensures { IsTrue result ↔ AllByRecursion IsCredential list.now }
{
    let mut rest = list;
    while let [first, more @ ..] = rest {
        if !is_credential(first) {
            return false;
        }
        rest = more;
    }
    true
}

fn are_credentials(list: &[Credential]) -> bool
    ensures { IsTrue result ↔ AreCredentials list.now }
{
    list.len() < 0x1_0000 && each_is_credential(list)
}

fn is_enlist(time: u64, list: &[Credential]) -> bool
    ensures { IsTrue result ↔ ((time < 2 ^ 64) × AreCredentials list.now) }
{
    are_credentials(list)
}

fn is_dismiss(time: u64, who: &Who) -> bool
    ensures { IsTrue result ↔ ((time < 2 ^ 64) × IsListed who.now) }
{
    is_listed(who)
}

fn is_order(time: u64, tid: &Short) -> bool
    ensures { IsTrue result ↔ ((time < 2 ^ 64) × IsTid tid.now) }
{
    is_tid(tid)
}

fn is_hold(s: &Stamp, w: &Wish) -> bool
    ensures { IsTrue result ↔ (IsStamp s.now × IsWish w.now) }
{
    is_stamp(s) && is_wish(w)
}

fn is_grant(s: &Stamp, w: &Wish, serial: u64, leaf: u32) -> bool
    ensures { IsTrue result ↔ (IsStamp s.now × IsWish w.now × (serial < 2 ^ 64) × (leaf < 2 ^ 32)) }
{
    is_stamp(s) && is_wish(w)
}

fn is_revoke(s: &Stamp, serial: u64, reason: u8) -> bool
    ensures { IsTrue result ↔ (IsStamp s.now × (serial < 2 ^ 64) × (reason < 2 ^ 8)) }
{
    is_stamp(s)
}

/// Whether a change has a spelling: each length fits its number, an identifier is of its form, and a key and a name are read.
pub fn is_change(c: &Change) -> bool
    ensures { IsTrue result ↔ IsChange c.now }
{
    match c {
        Change::Found(settings) => are_settings(settings),
        Change::Enlist { time, list } => is_enlist(*time, list.as_slice()),
        Change::Dismiss { time, who } => is_dismiss(*time, who),
        Change::Grant {
            stamp,
            wish,
            serial,
            leaf,
            ..
        } => is_grant(stamp, wish, *serial, *leaf),
        Change::Hold { stamp, wish, .. } => is_hold(stamp, wish),
        Change::Release { time, tid } => is_order(*time, tid),
        Change::Deny { time, tid } => is_order(*time, tid),
        Change::Turned(stamp) => is_stamp(stamp),
        Change::Polled(stamp) => is_stamp(stamp),
        Change::Settled { stamp, .. } => is_stamp(stamp),
        Change::Revoke {
            stamp,
            serial,
            reason,
        } => is_revoke(stamp, *serial, *reason),
        Change::Lapse { time, tid } => is_order(*time, tid),
    }
}
