//! How many octets a history has in a log. A size that 64 bits can't tell counts as the most that they can.
ghost use Rattle.std.specs.Prelude.{◌≡◌, ◌+◌, ◌≤◌, ◌^◌, ◌↔◌, length, Option, IsTrue, sum_by};
ghost use Rattle.deal_changes.specs.Spelling.{optional, who, stamp, wish, settings, credentials};
ghost use Rattle.deal_model.specs.Rules.{size_of, log_size};
ghost use Rattle.deal_rules.specs.Sizes.{credential_size, capped, octets_of};

use deal_model::{Change, Credential, Settings, Stamp, Who, Wish};

/// The octets that a log may have.
const MOST_OCTETS: usize = 0x4000_0000;

pub(crate) fn digest_size(octets: &[u8; 32]) -> usize
    ensures value { result ≡ length octets.now }
    ensures bound { result ≡ 32 }
{
    octets.len()
}

pub(crate) fn key_size(octets: &[u8; 60]) -> usize
    ensures value { result ≡ length octets.now }
    ensures bound { result ≡ 60 }
{
    octets.len()
}

#[tactic(auto, using(crate::proofs::Lengths::length_u32))]
fn leaf_size(leaf: Option<u32>) -> usize
    ensures value { result ≡ length (optional leaf) }
    ensures bound { result ≤ 5 }
{
    match leaf {
        Some(_) => 5,
        None => 1,
    }
}

#[tactic(auto, using(crate::proofs::Lengths::length_u64))]
fn who_size(w: &Who) -> usize
    ensures value { result ≡ length (who w.now) }
    ensures bound { result ≤ 66 }
{
    match w {
        Who::Listed(_, id) => 2 + id.len(),
        Who::Cert(_) => 9,
    }
}

#[tactic(auto, using(crate::proofs::Lengths::stamp_length))]
fn stamp_size(s: &Stamp) -> usize
    ensures { result ≡ capped (length (stamp s.now)) }
{
    let front = s.tid.len() + digest_size(&s.digest) + who_size(&s.who);
    let end = s.sender_nonce.len() + digest_size(&s.words) + leaf_size(s.leaf);
    s.sender.len().saturating_add(15 + front + end)
}

#[tactic(auto, using(crate::proofs::Lengths::wish_length))]
fn wish_size(w: &Wish) -> usize
    ensures { result ≡ capped (length (wish w.now)) }
{
    let names = w.subject.len().saturating_add(w.exts.len());
    w.spki.len().saturating_add(13).saturating_add(names)
}

#[tactic(auto, using(crate::proofs::Lengths::settings_length))]
fn settings_size(s: &Settings) -> usize
    ensures { result ≡ capped (length (settings s.now)) }
{
    let keys = key_size(&s.issue_key) + key_size(&s.reply_key);
    s.name.len().saturating_add(32 + keys)
}

#[tactic(auto, using(crate::proofs::Lengths::credential_length))]
fn credential_size(c: &Credential) -> usize
    ensures { result ≡ credential_size c.now }
{
    4 + c.kid.len() + c.material.len()
}

fn sum_of_sizes(list: &[Credential]) -> usize
    ensures { result ≡ capped (sum_by credential_size list.now) }
{
    let mut size = 0usize;
    for c in list {
        size = size.saturating_add(credential_size(c));
    }
    size
}

#[tactic(auto, using(crate::proofs::Lengths::credentials_length))]
fn credentials_size(list: &[Credential]) -> usize
    ensures { result ≡ capped (length (credentials list.now)) }
{
    sum_of_sizes(list).saturating_add(2)
}

fn grant_size(s: &Stamp, w: &Wish) -> usize
    ensures { result ≡ capped (length (stamp s.now) + length (wish w.now)) }
{
    stamp_size(s).saturating_add(wish_size(w))
}

fn change_size(c: &Change) -> usize
    ensures { result ≡ capped (octets_of c.now) }
{
    match c {
        Change::Found(settings) => settings_size(settings).saturating_add(1),
        Change::Enlist { list, .. } => credentials_size(list.as_slice()).saturating_add(9),
        Change::Dismiss { who, .. } => 9 + who_size(who),
        Change::Grant { stamp, wish, .. } => grant_size(stamp, wish).saturating_add(14),
        Change::Hold { stamp, wish, .. } => grant_size(stamp, wish).saturating_add(2),
        Change::Release { tid, .. } => 10 + tid.len(),
        Change::Deny { tid, .. } => 10 + tid.len(),
        Change::Turned(stamp) => stamp_size(stamp).saturating_add(1),
        Change::Polled(stamp) => stamp_size(stamp).saturating_add(1),
        Change::Settled { stamp, .. } => stamp_size(stamp).saturating_add(2),
        Change::Revoke { stamp, .. } => stamp_size(stamp).saturating_add(10),
        Change::Lapse { tid, .. } => 10 + tid.len(),
    }
}

/// The octets of a change in a log, with the five in front of it.
#[tactic(auto, using(crate::proofs::Lengths::spelled_length))]
fn size_of(c: &Change) -> usize
    ensures { result ≡ capped (size_of c.now) }
{
    change_size(c).saturating_add(5)
}

/// The octets of a log with these changes.
fn log_size(h: &[Change]) -> usize
    ensures { result ≡ capped (log_size h.now) }
{
    let mut size = 8usize;
    for c in h {
        size = size.saturating_add(size_of(c));
    }
    size
}

/// Whether a log with the changes and this one has at most 2^30 octets.
pub fn has_room(h: &[Change], c: &Change) -> bool
    ensures { IsTrue result ↔ (log_size h.now + size_of c.now ≤ 2 ^ 30) }
{
    log_size(h).saturating_add(size_of(c)) <= MOST_OCTETS
}
