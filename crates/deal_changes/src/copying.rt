//! Copies of changes.
ghost use Rattle.std.specs.Prelude.{◌≡◌, IfOk};

use crate::change::{Change, CredentialList, Settings, Stamp, Wish};
use cmp_values::Octets;
use std::alloc::{AllocError, Global};

fn copy_of_stamp(alloc: Global, s: &Stamp) -> Result<Stamp, AllocError>
    ensures { IfOk result (λ copy. copy ≡ s.now) }
{
    Ok(Stamp {
        tid: s.tid,
        digest: s.digest,
        who: s.who,
        sender: Octets::copy_of(alloc, s.sender.as_slice())?,
        pvno: s.pvno,
        sender_nonce: s.sender_nonce,
        words: s.words,
        time: s.time,
        leaf: s.leaf,
    })
}

fn copy_of_settings(alloc: Global, s: &Settings) -> Result<Settings, AllocError>
    ensures { IfOk result (λ copy. copy ≡ s.now) }
{
    Ok(Settings {
        time: s.time,
        name: Octets::copy_of(alloc, s.name.as_slice())?,
        issue_key: s.issue_key,
        reply_key: s.reply_key,
        wait: s.wait,
        skew: s.skew,
        rounds: s.rounds,
        check_after: s.check_after,
        days: s.days,
    })
}

impl Wish {
    /// A copy. `AllocError` where memory runs out.
    pub fn copy_of(alloc: Global, w: &Wish) -> Result<Wish, AllocError>
        ensures { IfOk result (λ copy. copy ≡ w.now) }
    {
        Ok(Wish {
            subject: Octets::copy_of(alloc, w.subject.as_slice())?,
            spki: Octets::copy_of(alloc, w.spki.as_slice())?,
            exts: Octets::copy_of(alloc, w.exts.as_slice())?,
            implicit: w.implicit,
            mods: w.mods,
        })
    }
}

impl Change {
    /// A copy. `AllocError` where memory runs out.
    pub fn copy_of(alloc: Global, c: &Change) -> Result<Change, AllocError>
        ensures { IfOk result (λ copy. copy ≡ c.now) }
    {
        match c {
            Change::Found(settings) => Ok(Change::Found(copy_of_settings(alloc, settings)?)),
            Change::Enlist { time, list } => Ok(Change::Enlist {
                time: *time,
                list: CredentialList::copy_of(alloc, list.as_slice())?,
            }),
            Change::Dismiss { time, who } => Ok(Change::Dismiss {
                time: *time,
                who: *who,
            }),
            Change::Grant {
                stamp,
                body,
                wish,
                serial,
                leaf,
            } => Ok(Change::Grant {
                stamp: copy_of_stamp(alloc, stamp)?,
                body: *body,
                wish: Wish::copy_of(alloc, wish)?,
                serial: *serial,
                leaf: *leaf,
            }),
            Change::Hold { stamp, body, wish } => Ok(Change::Hold {
                stamp: copy_of_stamp(alloc, stamp)?,
                body: *body,
                wish: Wish::copy_of(alloc, wish)?,
            }),
            Change::Release { time, tid } => Ok(Change::Release {
                time: *time,
                tid: *tid,
            }),
            Change::Deny { time, tid } => Ok(Change::Deny {
                time: *time,
                tid: *tid,
            }),
            Change::Turned(stamp) => Ok(Change::Turned(copy_of_stamp(alloc, stamp)?)),
            Change::Polled(stamp) => Ok(Change::Polled(copy_of_stamp(alloc, stamp)?)),
            Change::Settled { stamp, accepted } => Ok(Change::Settled {
                stamp: copy_of_stamp(alloc, stamp)?,
                accepted: *accepted,
            }),
            Change::Revoke {
                stamp,
                serial,
                reason,
            } => Ok(Change::Revoke {
                stamp: copy_of_stamp(alloc, stamp)?,
                serial: *serial,
                reason: *reason,
            }),
            Change::Lapse { time, tid } => Ok(Change::Lapse {
                time: *time,
                tid: *tid,
            }),
        }
    }
}
