//! Founds a service on an empty disk.
ghost use Rattle.std.specs.Prelude.{◌≡◌, ◌≢◌, ◌↔◌, ◌≤◌, ℕ, List, [], ◌∷◌, length, Some, None, Err, true, false, IfOk, IfErr, IsErrOf, MatchResult};
ghost use Rattle.cmp_ports.specs.Disk.{Among, LeavesOnly};
ghost use Rattle.cmp_ports.specs.Faults.{Rose};
ghost use Rattle.journal_core.specs.Log.{is_founded};
ghost use Rattle.journal_core.specs.Journal.{IsAtRest};
ghost use Rattle.deal_changes.specs.Spelling.{spelling, IsWriteable};
ghost use Rattle.deal_model.specs.Rules.{Allowed};
ghost use Rattle.desk.specs.History.{history_of};
ghost use Rattle.desk.specs.Images.{magic};
ghost use Rattle.desk.specs.Founded.{founding, IsPrepared, IsBegun};

use crate::answers::FoundFault;
use crate::desk::Desk;
use cmp_ports::{Disk, Octets};
use deal_model::{Change, Settings, write_change};
use journal_core::{BeginFault, Journal, PrepareFault};
use std::alloc::{AllocError, Global};

/// The first seven octets behind the first gate.
pub(crate) const MAGIC: [u8; 7] = *b"CMPLOG1";

// The history of a service that is founded now, and the octets of its one change.
fn first_change(
    alloc: Global,
    settings: &Settings,
    now: u64,
) -> Result<(Vec<Change>, Octets), AllocError>
    requires { IsWriteable (founding settings.now now) }
    ensures history { IfOk result (λ r. r.0.items ≡ founding settings.now now ∷ []) }
    ensures octets { IfOk result (λ r. r.1 ≡ spelling (founding settings.now now)) }
{
    let change = Change::Found(Settings {
        time: now,
        name: Octets::copy_of(alloc, settings.name.as_slice())?,
        issue_key: settings.issue_key,
        reply_key: settings.reply_key,
        wait: settings.wait,
        skew: settings.skew,
        rounds: settings.rounds,
        check_after: settings.check_after,
        days: settings.days,
    });
    let octets = write_change(alloc, &change)?;
    let mut history = Vec::new(alloc);
    history.push(change)?;
    Ok((history, octets))
}

fn unprepared(fault: PrepareFault) -> FoundFault
    ensures already { (result ≡ FoundFault.Already) ↔ (fault ≡ PrepareFault.Already) }
    ensures failed { (result ≡ FoundFault.DiskFault) ↔ (fault ≡ PrepareFault.DiskFault) }
{
    match fault {
        PrepareFault::Already => FoundFault::Already,
        PrepareFault::DiskFault => FoundFault::DiskFault,
    }
}

fn unfounded(fault: BeginFault) -> FoundFault
    ensures already { result ≢ FoundFault.Already }
    ensures failed { (result ≡ FoundFault.DiskFault) ↔ (fault ≡ BeginFault.DiskFault) }
{
    match fault {
        BeginFault::DiskFault => FoundFault::DiskFault,
        BeginFault::NoMemory => FoundFault::NoMemory,
    }
}

// Makes the disk ready, and begins the journal on it.
fn begin<D: Disk>(alloc: Global, disk: &mut D, first: &[u8]) -> Result<Journal, FoundFault>
    requires { length first.now ≤ 1073741824 }
    ensures told { (f : List ℕ) → D.content disk.old ≡ Some f → IsPrepared f result }
    ensures founded { IfOk result (λ j. IsAtRest magic (first.now ∷ []) j (D.images disk.new)) }
    ensures moments { LeavesOnly D.moment D.left_since disk.old disk.new (IsBegun (D.images disk.old) first.now) }
    ensures same { IsErrOf result FoundFault.Already → D.content disk.new ≡ D.content disk.old }
    ensures crash { IsErrOf result FoundFault.Already → Among (D.images disk.old) (D.images disk.new) }
    ensures untouched { IsErrOf result FoundFault.Already → LeavesOnly D.moment D.left_since disk.old disk.new (D.images disk.old) }
    ensures spared { (f : List ℕ) → D.content disk.old ≡ Some f → is_founded f ≡ true
        → (D.content disk.new ≡ D.content disk.old) × Among (D.images disk.old) (D.images disk.new) × LeavesOnly D.moment D.left_since disk.old disk.new (D.images disk.old) }
    ensures fault { IsErrOf result FoundFault.DiskFault → Rose (D.faults disk.old) (D.faults disk.new) }
    ensures later { D.faults disk.old ≤ D.faults disk.new }
    ensures exact { result ≢ Err FoundFault.DiskFault → D.faults disk.new ≡ D.faults disk.old }
    ensures loan { D.loan disk.new ≡ D.loan disk.old }
{
    match Journal::prepare(disk) {
        Ok(()) => {}
        Err(fault) => return Err(unprepared(fault)),
    }
    match Journal::found(alloc, disk, &MAGIC, first) {
        Ok(journal) => Ok(journal),
        Err(fault) => Err(unfounded(fault)),
    }
}

impl<D: Disk> Desk<D> {
    /// Founds a service with these settings at this time, on a disk that isn't founded. The disk comes back beside a fault.
    pub fn found(
        alloc: Global,
        disk: D,
        settings: &Settings,
        now: u64,
    ) -> Result<Desk<D>, (D, FoundFault)>
        // The change that founds the service may come first: its numbers and keys are in their ranges, and its name is one.
        requires { Allowed [] (founding settings.now now) }

        ensures founded { IfOk result (λ d. (history_of d ≡ founding settings.now now ∷ []) × (d.doubt ≡ None)) }
        // Already exactly where the disk is founded.
        ensures told { (f : List ℕ) → D.content disk ≡ Some f → MatchResult result (λ _. is_founded f ≡ false) (λ r. IsPrepared {T = Unit {0}} f (Err r.1)) }
        // A stop at any moment leaves an image from before the call, a disk that isn't founded, or one with this change.
        ensures moments { MatchResult result (λ d. LeavesOnly D.moment D.left_since disk d.disk (IsBegun (D.images disk) (spelling (founding settings.now now)))) (λ r. LeavesOnly D.moment D.left_since disk r.0 (IsBegun (D.images disk) (spelling (founding settings.now now)))) }
        // A founded disk stays as it was, whatever the answer.
        ensures spared { IfErr result (λ r. (f : List ℕ) → D.content disk ≡ Some f → is_founded f ≡ true
            → (D.content r.0 ≡ D.content disk) × Among (D.images disk) (D.images r.0) × LeavesOnly D.moment D.left_since disk r.0 (D.images disk)) }
        // So does one that tells no content, where it is founded already.
        ensures same { IfErr result (λ r. r.1 ≡ FoundFault.Already → D.content r.0 ≡ D.content disk) }
        ensures crash { IfErr result (λ r. r.1 ≡ FoundFault.Already → Among (D.images disk) (D.images r.0)) }
        ensures untouched { IfErr result (λ r. r.1 ≡ FoundFault.Already → LeavesOnly D.moment D.left_since disk r.0 (D.images disk)) }
        ensures fault { IfErr result (λ r. r.1 ≡ FoundFault.DiskFault → Rose (D.faults disk) (D.faults r.0)) }
        ensures later { MatchResult result (λ d. D.faults d.disk ≡ D.faults disk) (λ r. D.faults disk ≤ D.faults r.0) }
        ensures exact { IfErr result (λ r. r.1 ≢ FoundFault.DiskFault → D.faults r.0 ≡ D.faults disk) }
        ensures loan { MatchResult result (λ d. D.loan d.disk ≡ D.loan disk) (λ r. D.loan r.0 ≡ D.loan disk) }
        ensures mark { IfOk result (λ d. d.mark ≡ None) }
    {
        let mut disk = disk;
        let (history, octets) = match first_change(alloc, settings, now) {
            Ok(first) => first,
            Err(_) => return Err((disk, FoundFault::NoMemory)),
        };
        match begin(alloc, &mut disk, octets.as_slice()) {
            Ok(journal) => Ok(Desk {
                disk,
                journal,
                history,
                doubt: None,
                mark: None,
            }),
            Err(fault) => Err((disk, fault)),
        }
    }
}
