//! Makes a disk ready, and begins a log on it.
ghost use Rattle.std.specs.Prelude.{◌≡◌, ◌≢◌, ◌⊎◌, ◌+◌, ◌<◌, ◌≤◌, ◌^◌, ℕ, List, [], ◌∷◌, ◌++◌, length, true, false, Some, Err, IfOk, OnOk, OnErr, IsErrOf};
ghost use Rattle.cmp_ports.specs.Disk.{Every, Among, Settled, LeavesOnly};
ghost use Rattle.cmp_ports.specs.Faults.{Rose, HasCause};
ghost use Rattle.journal_core.specs.Log.{framed, is_open, is_founded, ClosedAfter, Recovers};
ghost use Rattle.journal_core.specs.Mounted.{IsPrepared, prepared};

use crate::fault::{BeginFault, PrepareFault};
use crate::journal::{Doubt, Journal};
use crate::record::octets_of;
use crate::seal::{seal, write_through};
use cmp_ports::{Disk, Failed};
use std::alloc::{AllocError, Global};

// The size, and whether the first octet is 1, after a sync.
fn look<D: Disk>(disk: &mut D) -> Result<(u64, bool), Failed>
    ensures told { IfOk result (λ r. (f : List ℕ) → D.content disk.old ≡ Some f → (r.0 ≡ length f) × (r.1 ≡ is_open f)) }
    ensures settled { OnOk result (Settled (D.content disk.new) (D.images disk.new)) }
    ensures same { D.content disk.new ≡ D.content disk.old }
    ensures crash { Among (D.images disk.old) (D.images disk.new) }
    ensures moments { LeavesOnly D.moment D.left_since disk.old disk.new (D.images disk.old) }
    ensures cause { HasCause (D.faults disk.old) (D.faults disk.new) result }
    ensures loan { D.loan disk.new ≡ D.loan disk.old }
{
    disk.sync()?;
    let size = disk.size()?;
    let open = first_is_one(disk)?;
    Ok((size, open))
}

// Whether the first octet is 1.
fn first_is_one<D: Disk>(disk: &mut D) -> Result<bool, Failed>
    ensures told { IfOk result (λ r. (f : List ℕ) → D.content disk.old ≡ Some f → r ≡ is_open f) }
    ensures same { D.content disk.new ≡ D.content disk.old }
    ensures crash { Among (D.images disk.old) (D.images disk.new) }
    ensures moments { LeavesOnly D.moment D.left_since disk.old disk.new (D.images disk.old) }
    ensures cause { HasCause (D.faults disk.old) (D.faults disk.new) result }
    ensures loan { D.loan disk.new ≡ D.loan disk.old }
{
    let mut first = [0u8; 1];
    let count = disk.read_at(0, &mut first)?;
    Ok(count > 0 && first[0] == 1)
}

// The magic, an open gate, the first payload behind its length, and a closed gate.
fn beginning(alloc: Global, magic: &[u8; 7], first: &[u8]) -> Result<Vec<u8>, AllocError>
    requires { length first.now ≤ 1073741824 }
    ensures spelled { IfOk result (λ v. v.items ≡ (magic.now ++ 1 ∷ framed first.now) ++ 0 ∷ []) }
    ensures size { IfOk result (λ v. length v.items ≡ length first.now + 13) }
    ensures magic { length magic.now ≡ 7 }
{
    let mut octets = magic.to_vec(alloc)?;
    octets.push(1)?;
    octets.extend_from_slice(&octets_of(alloc, first)?)?;
    Ok(octets)
}

impl Journal {
    ghost use Rattle.journal_core.specs.Journal.{IsSound, IsAtRest};

    /// Makes a disk ready to be founded: syncs it, and writes its first octet as 0 where it has under nine octets.
    /// `Already` exactly where the disk is founded, that is has nine octets or more and the first is 1. Takes no memory.
    pub fn prepare<D: Disk>(disk: &mut D) -> Result<(), PrepareFault>
        ensures told { (f : List ℕ) → D.content disk.old ≡ Some f → IsPrepared f result }
        ensures prepared { OnOk result (Every (D.images disk.new) (ClosedAfter [])) }

        // After Ok the gate is 0, and no other octet is written.
        ensures gate { OnOk result ((f : List ℕ) → D.content disk.old ≡ Some f → D.content disk.new ≡ Some (prepared f)) }

        // A founded disk stays as it was, whatever the answer.
        ensures spared { (f : List ℕ) → D.content disk.old ≡ Some f → is_founded f ≡ true
            → (D.content disk.new ≡ D.content disk.old) × Among (D.images disk.old) (D.images disk.new) × LeavesOnly D.moment D.left_since disk.old disk.new (D.images disk.old) }
        ensures already { IsErrOf result PrepareFault.Already → D.content disk.new ≡ D.content disk.old }
        ensures crash { IsErrOf result PrepareFault.Already → Among (D.images disk.old) (D.images disk.new) }
        ensures untouched { IsErrOf result PrepareFault.Already → LeavesOnly D.moment D.left_since disk.old disk.new (D.images disk.old) }

        // A stop at any moment leaves an image from before it, or one that isn't founded.
        ensures moments { LeavesOnly D.moment D.left_since disk.old disk.new (λ c. D.images disk.old c ⊎ (is_founded c ≡ false)) }

        ensures fault { IsErrOf result PrepareFault.DiskFault → Rose (D.faults disk.old) (D.faults disk.new) }
        ensures later { D.faults disk.old ≤ D.faults disk.new }
        ensures kept { OnOk result (D.faults disk.new ≡ D.faults disk.old) }
        ensures exact { result ≢ Err PrepareFault.DiskFault → D.faults disk.new ≡ D.faults disk.old }
        ensures loan { D.loan disk.new ≡ D.loan disk.old }
    {
        let (size, open) = match look(disk) {
            Ok(seen) => seen,
            Err(_) => return Err(PrepareFault::DiskFault),
        };
        if size >= 9 {
            return if open {
                Err(PrepareFault::Already)
            } else {
                Ok(())
            };
        }
        match write_through(disk, 0, &[0]) {
            Ok(()) => Ok(()),
            Err(_) => Err(PrepareFault::DiskFault),
        }
    }

    /// Begins a log with this magic and this first payload, on a disk that was prepared. Until it answers Ok the disk
    /// may be not founded. `NoMemory` leaves the disk as it was.
    pub fn found<D: Disk>(
        alloc: Global,
        disk: &mut D,
        magic: &[u8; 7],
        first: &[u8],
    ) -> Result<Journal, BeginFault>
        requires prepared { Every (D.images disk.old) (ClosedAfter []) }
        requires small { length first.now ≤ 1073741824 }

        ensures founded { IfOk result (λ j. IsAtRest magic.now (first.now ∷ []) j (D.images disk.new)) }
        ensures sound { IfOk result (λ j. IsSound j (D.images disk.new)) }

        // A stop at any moment leaves a disk that isn't founded, or one that recovers to the first payload.
        ensures moments { LeavesOnly D.moment D.left_since disk.old disk.new (λ c. ClosedAfter [] c ⊎ Recovers magic.now c (first.now ∷ [])) }

        ensures fault { IsErrOf result BeginFault.DiskFault → Rose (D.faults disk.old) (D.faults disk.new) }
        ensures later { D.faults disk.old ≤ D.faults disk.new }
        ensures kept { OnOk result (D.faults disk.new ≡ D.faults disk.old) }
        ensures memory { IsErrOf result BeginFault.NoMemory → disk.new ≡ disk.old }
        ensures loan { D.loan disk.new ≡ D.loan disk.old }
    {
        let octets = match beginning(alloc, magic, first) {
            Ok(octets) => octets,
            Err(_) => return Err(BeginFault::NoMemory),
        };
        match seal(disk, 0, &octets) {
            Ok(()) => Ok(Journal {
                end: octets.len() as u64,
                count: 1,
                doubt: Doubt::Clear,
            }),
            Err(_) => Err(BeginFault::DiskFault),
        }
    }
}
