//! Mounts the history that a disk holds.
ghost use Rattle.std.specs.Prelude.{◌≡◌, ◌≢◌, ◌≤◌, ℕ, List, length, Some, None, Err, IfOk, IfErr, OnOk, IsErrOf, MatchResult};
ghost use Rattle.cmp_ports.specs.Disk.{Among, Every, LeavesOnly};
ghost use Rattle.cmp_ports.specs.Faults.{Rose};
ghost use Rattle.deal_changes.specs.Spelling.{spelling};
ghost use Rattle.deal_model.specs.Views.{AreTimely};
ghost use Rattle.deal_model.specs.Rules.{Allowed, Legal};
ghost use Rattle.desk.specs.History.{history_of};
ghost use Rattle.desk.specs.Images.{Recovers};
ghost use Rattle.desk.specs.Mounts.{IsStopped, Replays, Stands, Refuses};

use crate::desk::Desk;
use crate::founding::MAGIC;
use cmp_ports::{Disk, Octets};
use deal_model::{Change, ChangeFault, read_change};
use deal_rules::is_allowed;
use journal_core::{Journal, MountFault};
use std::alloc::Global;

/// The octets of a log before its first record.
const FRONT: u64 = 8;

/// The octets of a record before its payload: a gate, and four of length.
const HEAD: u64 = 5;

/// The change that the payload spells. `BadChange` exactly where it spells none that may come next.
fn next_change(alloc: Global, h: &[Change], payload: &[u8]) -> Result<Change, ChangeFault>
    requires { AreTimely h.now }
    ensures next { IfOk result (λ c. Allowed h.now c × (payload.now ≡ spelling c)) }
    ensures none { IsErrOf result ChangeFault.BadChange → IsStopped h.now payload.now }
{
    let change = match read_change(alloc, payload) {
        Ok(change) => change,
        Err(fault) => return Err(fault),
    };
    if is_allowed(h, &change) {
        Ok(change)
    } else {
        Err(ChangeFault::BadChange)
    }
}

/// The changes that the payloads spell, or the offset of the first record that spells none which may come next.
fn replay(alloc: Global, payloads: &[Octets]) -> Result<Vec<Change>, MountFault>
    ensures { Replays (λ v. v.items) payloads.now result }
{
    let mut history: Vec<Change> = Vec::new(alloc);
    let mut at = FRONT;
    for payload in payloads {
        let change = match next_change(alloc, &history, payload.as_slice()) {
            Ok(change) => change,
            Err(ChangeFault::BadChange) => return Err(MountFault::Damaged { at }),
            Err(ChangeFault::NoMemory) => return Err(MountFault::NoMemory),
        };
        if history.push(change).is_err() {
            return Err(MountFault::NoMemory);
        }
        at += HEAD + payload.len() as u64;
    }
    if history.is_empty() {
        return Err(MountFault::Damaged { at });
    }
    Ok(history)
}

/// The history that a disk holds, with no desk over it; nothing is written. Its faults are those of `Desk::mount`.
pub fn history_on<D: Disk>(alloc: Global, disk: &mut D) -> Result<Vec<Change>, MountFault>
    // The history that the content recovers to, or why there is none.
    ensures told { (f : List ℕ) → D.content disk.old ≡ Some f → MatchResult result (λ v. Stands f v.items) (λ fault. Refuses f fault) }
    // Each image of the disk recovers to it.
    ensures stands { IfOk result (λ v. Every (D.images disk.new) (λ c. Recovers c v.items)) }
    ensures legal { IfOk result (λ v. Legal v.items) }
    ensures timely { IfOk result (λ v. AreTimely v.items) }
    ensures bounded { IfOk result (λ v. length v.items ≤ 262144) }
    ensures same { D.content disk.new ≡ D.content disk.old }
    ensures crash { Among (D.images disk.old) (D.images disk.new) }
    // A stop at any moment leaves an image from before the call.
    ensures moments { LeavesOnly D.moment D.left_since disk.old disk.new (D.images disk.old) }
    ensures fault { IsErrOf result MountFault.DiskFault → Rose (D.faults disk.old) (D.faults disk.new) }
    ensures kept { OnOk result (D.faults disk.new ≡ D.faults disk.old) }
    ensures exact { result ≢ Err MountFault.DiskFault → D.faults disk.new ≡ D.faults disk.old }
    ensures later { D.faults disk.old ≤ D.faults disk.new }
    ensures loan { D.loan disk.new ≡ D.loan disk.old }
{
    let (_, payloads) = Journal::mount(alloc, disk, &MAGIC)?;
    let history = replay(alloc, payloads.as_slice())?;
    Ok(history)
}

impl<D: Disk> Desk<D> {
    /// Mounts the service that a disk holds. `NotFounded` where the disk has under nine octets or its first octet isn't 1.
    /// `Damaged` where its log is damaged, with the journal's offset; or where a record spells no change that may come
    /// next, with the offset of its gate; or where there is no record, with the offset 8. The disk comes back beside a fault.
    pub fn mount(alloc: Global, disk: D) -> Result<Desk<D>, (D, MountFault)>
        // The history that the content recovers to, or why there is none.
        ensures told { (f : List ℕ) → D.content disk ≡ Some f → MatchResult result (λ d. Stands f (history_of d)) (λ r. Refuses f r.1) }
        ensures clear { IfOk result (λ d. d.doubt ≡ None) }
        ensures same { MatchResult result (λ d. D.content d.disk ≡ D.content disk) (λ r. D.content r.0 ≡ D.content disk) }
        ensures crash { MatchResult result (λ d. Among (D.images disk) (D.images d.disk)) (λ r. Among (D.images disk) (D.images r.0)) }
        // A stop at any moment leaves an image from before the call.
        ensures moments { MatchResult result (λ d. LeavesOnly D.moment D.left_since disk d.disk (D.images disk)) (λ r. LeavesOnly D.moment D.left_since disk r.0 (D.images disk)) }
        ensures fault { IfErr result (λ r. r.1 ≡ MountFault.DiskFault → Rose (D.faults disk) (D.faults r.0)) }
        ensures later { MatchResult result (λ d. D.faults d.disk ≡ D.faults disk) (λ r. D.faults disk ≤ D.faults r.0) }
        ensures exact { IfErr result (λ r. r.1 ≢ MountFault.DiskFault → D.faults r.0 ≡ D.faults disk) }
        ensures loan { MatchResult result (λ d. D.loan d.disk ≡ D.loan disk) (λ r. D.loan r.0 ≡ D.loan disk) }
        ensures mark { IfOk result (λ d. d.mark ≡ None) }
    {
        let mut disk = disk;
        let (journal, payloads) = match Journal::mount(alloc, &mut disk, &MAGIC) {
            Ok(mounted) => mounted,
            Err(fault) => return Err((disk, fault)),
        };
        match replay(alloc, payloads.as_slice()) {
            Ok(history) => Ok(Desk {
                disk,
                journal,
                history,
                doubt: None,
                mark: None,
            }),
            Err(fault) => Err((disk, fault)),
        }
    }
}
