//! What a clerk is asked about a message.
ghost use Rattle.std.specs.Prelude.{◌≡◌, ◌≤◌, IfOk, OnErr, OnOk, option_map};
ghost use Rattle.deal_table.specs.History.{IsFounded, grant_receipt, look_of};
ghost use Rattle.reply_maker.specs.Replies.{certificate_hash};
ghost use Rattle.front.specs.Clerks.{clerked, IsLawful};
ghost use Rattle.front.specs.Courses.{IsAsked, told_of, asked_hash};
ghost use Rattle.front.specs.Fronts.{replier_by, HasSettings};

use cmp_ports::{Gate, Point, Short};
use deal_model::{Ask, Checked, Job};
use deal_table::{Look, what_is_settled_stays};
use desk::Clerk;
use reply_maker::{Keys, grant_hash};
use std::alloc::{AllocError, Global};

/// What is asked where only the place and the time are.
pub(crate) fn nothing() -> Ask {
    Ask {
        digest: [0; 32],
        tid: Short::empty(),
        kind: None,
        kid: Short::empty(),
        outer: None,
    }
}

/// A look at the history.
pub(crate) fn look_at<K: Clerk, G: Gate>(clerk: &mut K, gate: &mut G, ask: &Ask, now: u64) -> Look
    requires { now ≤ 250_000_000_000 }
    ensures asked { IsAsked K.Clerk clerk.old clerk.new }
    ensures look { result ≡ look_of (K.seen clerk.new) ask.now now }
    ensures founded { IsFounded (K.seen clerk.new) }
    ensures time { result.time ≤ 250_000_000_000 }
{
    let look = clerk.look(ask, now);
    gate.pass(Point::Looked);
    look
}

/// The hash of the certificate that a transaction's Grant gives, where there is a Grant.
fn granted_hash<K: Clerk>(
    alloc: Global,
    keys: &Keys,
    clerk: &mut K,
    tid: &Short,
) -> Result<Option<[u8; 32]>, AllocError>
    requires settings { HasSettings (K.seen clerk.old) keys.now.settings }
    ensures asked { IsAsked K.Clerk clerk.old clerk.new }
    ensures hash { IfOk result (λ h. h ≡ option_map (certificate_hash (replier_by keys.now)) (grant_receipt (K.seen clerk.new) tid.now)) }
{
    what_is_settled_stays();
    let receipt = match clerk.granted(tid) {
        Ok(Some(receipt)) => receipt,
        Ok(None) => return Ok(None),
        Err(fault) => return Err(fault),
    };
    match grant_hash(alloc, keys, &receipt) {
        Ok(hash) => Ok(Some(hash)),
        Err(fault) => Err(fault),
    }
}

/// The hash of a certConf, where nobody has compared it yet.
fn asked_hash(checked: &Checked<'_>) -> Option<[u8; 32]>
    ensures { result ≡ asked_hash checked.now.job checked.now.hash_ok }
{
    match (&checked.job, checked.hash_ok) {
        (Job::Confirm { hash, .. }, None) => Some(*hash),
        _ => None,
    }
}

/// Holds the hash of a certConf against that of the certificate which its transaction's Grant gives, where nobody did and there is a
/// Grant (RFC 9810, 5.3.18). After an `AllocError` nothing is told of it.
pub(crate) fn tell<K: Clerk>(
    alloc: Global,
    keys: &Keys,
    clerk: &mut K,
    checked: &mut Checked<'_>,
) -> Result<(), AllocError>
    requires lawful { IsLawful (clerked K.Clerk clerk.old) }
    requires settings { HasSettings (K.seen clerk.old) keys.now.settings }
    ensures asked { IsAsked K.Clerk clerk.old clerk.new }
    ensures told { OnOk result (checked.new ≡ told_of (replier_by keys.now) (K.seen clerk.new) checked.old) }
    ensures same { OnErr result (checked.new ≡ checked.old) }
{
    let Some(hash) = asked_hash(checked) else {
        clerk.stands_for_its_disk();
        return Ok(());
    };
    match granted_hash(alloc, keys, clerk, &checked.ask.tid) {
        Ok(Some(granted)) => {
            checked.hash_ok = Some(hash == granted);
            Ok(())
        }
        Ok(None) => Ok(()),
        Err(fault) => Err(fault),
    }
}
