//! Octets as a change.
ghost use Rattle.std.specs.Prelude.{◌≡◌, ◌-◌, List, length, Option, Some, None, IfOk};
ghost use Rattle.deal_changes.specs.declared.change.Change.{Change};
ghost use Rattle.deal_changes.specs.Spelling.{spelling, IsChange, IsWriteable};
ghost use Rattle.deal_changes.specs.Reading.{Gives, sender_at, listed_at, who_at, dismissed_at, stamp_at, wish_at, settings_at, credential_at, credentials_at, list_at, found_at, enlist_at, dismiss_at, numbers_at, grant_at, hold_at, release_at, deny_at, turned_at, polled_at, settled_at, revoke_at, lapse_at, order_at, kind_at, change_of};

use crate::change::{Change, Credential, CredentialList, Kind, Settings, Stamp, Who, Wish};
use crate::fault::ChangeFault;
use crate::parts::*;
use std::alloc::Global;

#[tactic(auto, unfolding(crate::specs::Reading::listed_at))]
fn listed_of(code: u8, bytes: &[u8]) -> Result<(Who, &[u8]), ChangeFault>
    ensures { Gives (λ x. (x.0, x.1.now)) result (listed_at code bytes.now) }
{
    match code {
        1 => {
            let (reference, rest) = read!(short_of(bytes));
            Ok((Who::Listed(Kind::Mac, reference), rest))
        }
        2 => {
            let (id, rest) = read!(key_id_of(bytes));
            Ok((Who::Listed(Kind::Lms, id), rest))
        }
        _ => Err(ChangeFault::BadChange),
    }
}

#[tactic(auto, unfolding(crate::specs::Reading::sender_at))]
fn sender_of(code: u8, bytes: &[u8]) -> Result<(Who, &[u8]), ChangeFault>
    ensures { Gives (λ x. (x.0, x.1.now)) result (sender_at code bytes.now) }
{
    if code == 3 {
        let (serial, rest) = u64_of(bytes)?;
        Ok((Who::Cert(serial), rest))
    } else {
        listed_of(code, bytes)
    }
}

#[tactic(auto, unfolding(crate::specs::Reading::who_at))]
fn who_of(bytes: &[u8]) -> Result<(Who, &[u8]), ChangeFault>
    ensures { Gives (λ x. (x.0, x.1.now)) result (who_at bytes.now) }
{
    let (code, rest) = octet_of(bytes)?;
    sender_of(code, rest)
}

#[tactic(auto, unfolding(crate::specs::Reading::dismissed_at))]
fn dismissed_of(bytes: &[u8]) -> Result<(Who, &[u8]), ChangeFault>
    ensures { Gives (λ x. (x.0, x.1.now)) result (dismissed_at bytes.now) }
{
    let (code, rest) = octet_of(bytes)?;
    listed_of(code, rest)
}

#[tactic(auto, unfolding(crate::specs::Reading::stamp_at))]
fn stamp_of(alloc: Global, bytes: &[u8]) -> Result<(Stamp, &[u8]), ChangeFault>
    ensures { Gives (λ x. (x.0, x.1.now)) result (stamp_at bytes.now) }
{
    let (tid, rest) = read!(tid_of(bytes));
    let (digest, rest) = words_of(rest)?;
    let (who, rest) = read!(who_of(rest));
    let (sender, rest) = read!(blob_of(alloc, rest));
    let (pvno, rest) = octet_of(rest)?;
    let (sender_nonce, rest) = read!(short_of(rest));
    let (words, rest) = words_of(rest)?;
    let (time, rest) = u64_of(rest)?;
    let (leaf, rest) = leaf_of(rest)?;
    let stamp = Stamp {
        tid,
        digest,
        who,
        sender,
        pvno,
        sender_nonce,
        words,
        time,
        leaf,
    };
    Ok((stamp, rest))
}

#[tactic(auto, unfolding(crate::specs::Reading::wish_at))]
fn wish_of(alloc: Global, bytes: &[u8]) -> Result<(Wish, &[u8]), ChangeFault>
    ensures { Gives (λ x. (x.0, x.1.now)) result (wish_at bytes.now) }
{
    let (subject, rest) = read!(blob_of(alloc, bytes));
    let (spki, rest) = read!(spki_of(alloc, rest));
    let (exts, rest) = read!(blob_of(alloc, rest));
    let ((implicit, mods), rest) = flags_of(rest)?;
    let wish = Wish {
        subject,
        spki,
        exts,
        implicit,
        mods,
    };
    Ok((wish, rest))
}

#[tactic(auto, unfolding(crate::specs::Reading::settings_at))]
fn settings_of(alloc: Global, bytes: &[u8]) -> Result<(Settings, &[u8]), ChangeFault>
    ensures { Gives (λ x. (x.0, x.1.now)) result (settings_at bytes.now) }
{
    let (time, rest) = u64_of(bytes)?;
    let (name, rest) = read!(name_of(alloc, rest));
    let (issue_key, rest) = key_of(rest)?;
    let (reply_key, rest) = key_of(rest)?;
    let (wait, rest) = u32_of(rest)?;
    let (skew, rest) = u32_of(rest)?;
    let (rounds, rest) = u32_of(rest)?;
    let (check_after, rest) = u32_of(rest)?;
    let (days, rest) = u32_of(rest)?;
    let settings = Settings {
        time,
        name,
        issue_key,
        reply_key,
        wait,
        skew,
        rounds,
        check_after,
        days,
    };
    Ok((settings, rest))
}

#[tactic(auto, unfolding(crate::specs::Reading::credential_at))]
fn credential_of(bytes: &[u8]) -> Result<(Credential, &[u8]), ChangeFault>
    ensures { Gives (λ x. (x.0, x.1.now)) result (credential_at bytes.now) }
{
    let (kind, rest) = kind_of(bytes)?;
    let (kid, rest) = read!(short_of(rest));
    let (material, rest) = read!(short_of(rest));
    let (rights, rest) = rights_of(rest)?;
    let credential = Credential {
        kind,
        kid,
        material,
        rights,
    };
    Ok((credential, rest))
}

fn credentials_of(
    alloc: Global,
    count: u16,
    bytes: &[u8],
) -> Result<(Vec<Credential>, &[u8]), ChangeFault>
    ensures { Gives (λ x. (x.0.items, x.1.now)) result (credentials_at count bytes.now) }
{
    let mut list = Vec::new(alloc);
    let mut rest = bytes;
    for _ in 0..count {
        let (credential, after) = read!(credential_of(rest));
        list.push(credential)?;
        rest = after;
    }
    Ok((list, rest))
}

#[tactic(auto, unfolding(crate::specs::Reading::list_at))]
fn list_of(alloc: Global, bytes: &[u8]) -> Result<(CredentialList, &[u8]), ChangeFault>
    ensures { Gives (λ x. (x.0, x.1.now)) result (list_at bytes.now) }
{
    let (count, rest) = u16_of(bytes)?;
    let (list, rest) = read!(credentials_of(alloc, count, rest));
    Ok((CredentialList::of(list), rest))
}

#[tactic(auto, unfolding(crate::specs::Reading::found_at))]
fn found_of(alloc: Global, bytes: &[u8]) -> Result<(Change, &[u8]), ChangeFault>
    ensures { Gives (λ x. (x.0, x.1.now)) result (found_at bytes.now) }
{
    let (settings, rest) = read!(settings_of(alloc, bytes));
    Ok((Change::Found(settings), rest))
}

#[tactic(auto, unfolding(crate::specs::Reading::enlist_at))]
fn enlist_of(alloc: Global, bytes: &[u8]) -> Result<(Change, &[u8]), ChangeFault>
    ensures { Gives (λ x. (x.0, x.1.now)) result (enlist_at bytes.now) }
{
    let (time, rest) = u64_of(bytes)?;
    let (list, rest) = read!(list_of(alloc, rest));
    Ok((Change::Enlist { time, list }, rest))
}

#[tactic(auto, unfolding(crate::specs::Reading::dismiss_at))]
fn dismiss_of(bytes: &[u8]) -> Result<(Change, &[u8]), ChangeFault>
    ensures { Gives (λ x. (x.0, x.1.now)) result (dismiss_at bytes.now) }
{
    let (time, rest) = u64_of(bytes)?;
    let (who, rest) = read!(dismissed_of(rest));
    Ok((Change::Dismiss { time, who }, rest))
}

#[tactic(auto, unfolding(crate::specs::Reading::numbers_at))]
fn numbers_of(bytes: &[u8]) -> Result<((u64, u32), &[u8]), ChangeFault>
    ensures { Gives (λ x. (x.0, x.1.now)) result (numbers_at bytes.now) }
{
    let (serial, rest) = u64_of(bytes)?;
    let (leaf, rest) = u32_of(rest)?;
    Ok(((serial, leaf), rest))
}

#[tactic(auto, unfolding(crate::specs::Reading::grant_at))]
fn grant_of(alloc: Global, bytes: &[u8]) -> Result<(Change, &[u8]), ChangeFault>
    ensures { Gives (λ x. (x.0, x.1.now)) result (grant_at bytes.now) }
{
    let (stamp, rest) = read!(stamp_of(alloc, bytes));
    let (body, rest) = body_of(rest)?;
    let (wish, rest) = read!(wish_of(alloc, rest));
    let ((serial, leaf), rest) = numbers_of(rest)?;
    let grant = Change::Grant {
        stamp,
        body,
        wish,
        serial,
        leaf,
    };
    Ok((grant, rest))
}

#[tactic(auto, unfolding(crate::specs::Reading::hold_at))]
fn hold_of(alloc: Global, bytes: &[u8]) -> Result<(Change, &[u8]), ChangeFault>
    ensures { Gives (λ x. (x.0, x.1.now)) result (hold_at bytes.now) }
{
    let (stamp, rest) = read!(stamp_of(alloc, bytes));
    let (body, rest) = body_of(rest)?;
    let (wish, rest) = read!(wish_of(alloc, rest));
    Ok((Change::Hold { stamp, body, wish }, rest))
}

#[tactic(auto, unfolding(crate::specs::Reading::release_at))]
fn release_of(bytes: &[u8]) -> Result<(Change, &[u8]), ChangeFault>
    ensures { Gives (λ x. (x.0, x.1.now)) result (release_at bytes.now) }
{
    let (time, rest) = u64_of(bytes)?;
    let (tid, rest) = read!(tid_of(rest));
    Ok((Change::Release { time, tid }, rest))
}

#[tactic(auto, unfolding(crate::specs::Reading::deny_at))]
fn deny_of(bytes: &[u8]) -> Result<(Change, &[u8]), ChangeFault>
    ensures { Gives (λ x. (x.0, x.1.now)) result (deny_at bytes.now) }
{
    let (time, rest) = u64_of(bytes)?;
    let (tid, rest) = read!(tid_of(rest));
    Ok((Change::Deny { time, tid }, rest))
}

#[tactic(auto, unfolding(crate::specs::Reading::turned_at))]
fn turned_of(alloc: Global, bytes: &[u8]) -> Result<(Change, &[u8]), ChangeFault>
    ensures { Gives (λ x. (x.0, x.1.now)) result (turned_at bytes.now) }
{
    let (stamp, rest) = read!(stamp_of(alloc, bytes));
    Ok((Change::Turned(stamp), rest))
}

#[tactic(auto, unfolding(crate::specs::Reading::polled_at))]
fn polled_of(alloc: Global, bytes: &[u8]) -> Result<(Change, &[u8]), ChangeFault>
    ensures { Gives (λ x. (x.0, x.1.now)) result (polled_at bytes.now) }
{
    let (stamp, rest) = read!(stamp_of(alloc, bytes));
    Ok((Change::Polled(stamp), rest))
}

#[tactic(auto, unfolding(crate::specs::Reading::settled_at))]
fn settled_of(alloc: Global, bytes: &[u8]) -> Result<(Change, &[u8]), ChangeFault>
    ensures { Gives (λ x. (x.0, x.1.now)) result (settled_at bytes.now) }
{
    let (stamp, rest) = read!(stamp_of(alloc, bytes));
    let (accepted, rest) = outcome_of(rest)?;
    Ok((Change::Settled { stamp, accepted }, rest))
}

#[tactic(auto, unfolding(crate::specs::Reading::revoke_at))]
fn revoke_of(alloc: Global, bytes: &[u8]) -> Result<(Change, &[u8]), ChangeFault>
    ensures { Gives (λ x. (x.0, x.1.now)) result (revoke_at bytes.now) }
{
    let (stamp, rest) = read!(stamp_of(alloc, bytes));
    let (serial, rest) = u64_of(rest)?;
    let (reason, rest) = octet_of(rest)?;
    let revoke = Change::Revoke {
        stamp,
        serial,
        reason,
    };
    Ok((revoke, rest))
}

#[tactic(auto, unfolding(crate::specs::Reading::lapse_at))]
fn lapse_of(bytes: &[u8]) -> Result<(Change, &[u8]), ChangeFault>
    ensures { Gives (λ x. (x.0, x.1.now)) result (lapse_at bytes.now) }
{
    let (time, rest) = u64_of(bytes)?;
    let (tid, rest) = read!(tid_of(rest));
    Ok((Change::Lapse { time, tid }, rest))
}

#[tactic(auto, unfolding(crate::specs::Reading::order_at))]
fn order_of(alloc: Global, n: u8, bytes: &[u8]) -> Result<(Change, &[u8]), ChangeFault>
    ensures { Gives (λ x. (x.0, x.1.now)) result (order_at n bytes.now) }
{
    match n {
        1 => found_of(alloc, bytes),
        2 => enlist_of(alloc, bytes),
        3 => dismiss_of(bytes),
        6 => release_of(bytes),
        7 => deny_of(bytes),
        12 => lapse_of(bytes),
        _ => Err(ChangeFault::BadChange),
    }
}

#[tactic(auto, unfolding(crate::specs::Reading::kind_at))]
fn change_of_kind(alloc: Global, n: u8, bytes: &[u8]) -> Result<(Change, &[u8]), ChangeFault>
    ensures { Gives (λ x. (x.0, x.1.now)) result (kind_at n bytes.now) }
{
    match n {
        4 => grant_of(alloc, bytes),
        5 => hold_of(alloc, bytes),
        8 => turned_of(alloc, bytes),
        9 => polled_of(alloc, bytes),
        10 => settled_of(alloc, bytes),
        11 => revoke_of(alloc, bytes),
        _ => order_of(alloc, n, bytes),
    }
}

#[tactic(auto, unfolding(crate::specs::Reading::change_of))]
fn whole_change(alloc: Global, bytes: &[u8]) -> Result<Change, ChangeFault>
    ensures { Gives (λ c. c) result (change_of bytes.now) }
{
    let (n, rest) = octet_of(bytes)?;
    let (change, rest) = read!(change_of_kind(alloc, n, rest));
    if !rest.is_empty() {
        return Err(ChangeFault::BadChange);
    }
    Ok(change)
}

/// The change that the octets spell, all of them. `BadChange` exactly where no change is spelled so.
pub fn read_change(alloc: Global, bytes: &[u8]) -> Result<Change, ChangeFault>
    // What is read is spelled so.
    ensures found { IfOk result (λ c. IsChange c × (bytes.now ≡ spelling c)) }
    // What is spelled so is read, unless memory runs out.
    ensures only { (c : Change) → IsChange c → bytes.now ≡ spelling c
        → Gives (λ (c : Change). c) result (Some c) }
    // What is read can be written.
    ensures writeable { IfOk result IsWriteable }
    // Octets are refused where they spell no change.
    ensures exact { Gives (λ c. c) result (change_of bytes.now) }
{
    whole_change(alloc, bytes)
}
