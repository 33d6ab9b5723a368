//! The two writes that make octets count: the octets with a closed gate behind them, and then the open gate.
ghost use Rattle.std.specs.Prelude.{◌≡◌, ◌⊎◌, ◌+◌, ◌^◌, ◌<◌, ◌≤◌, ℕ, List, length, Some, option_map, OnOk, IsErrOf};
ghost use Rattle.cmp_ports.specs.Disk.{Torn, Follows, Reached, Every, LeavesOnly, overwritten};
ghost use Rattle.cmp_ports.specs.Faults.{HasCause};
ghost use Rattle.journal_core.specs.Log.{ClosedAfter};
ghost use Rattle.journal_core.specs.Staged.{StagedAfter};
ghost use Rattle.journal_core.specs.Seal.{IsBodyFor, IsSealed};

use cmp_ports::{Disk, Failed};

/// The octets aren't sealed.
#[derive(Clone, Copy)]
pub(crate) enum Unsealed {
    /// The gate's write wasn't begun.
    Before,
    /// The gate's write or its sync failed.
    Gate,
}

// Writes octets, and brings them to the disk.
pub(crate) fn write_through<D: Disk>(disk: &mut D, at: u64, octets: &[u8]) -> Result<(), Failed>
    requires inside { (f : List ℕ) → D.content disk.old ≡ Some f → at ≤ length f }
    requires small { at + length octets.now ≤ 2 ^ 40 }
    ensures torn { Follows (Torn at (length octets.now)) (D.images disk.old) (D.images disk.new) }
    ensures written { OnOk result (Follows (λ d c. c ≡ overwritten at octets.now d) (D.images disk.old) (D.images disk.new)) }
    ensures content { OnOk result (D.content disk.new ≡ option_map (overwritten at octets.now) (D.content disk.old)) }
    ensures moments { LeavesOnly D.moment D.left_since disk.old disk.new (Reached (Torn at (length octets.now)) (D.images disk.old)) }
    ensures cause { HasCause (D.faults disk.old) (D.faults disk.new) result }
    ensures loan { D.loan disk.new ≡ D.loan disk.old }
{
    disk.write_at(at, octets)?;
    disk.sync()
}

// Puts octets behind the closed gate at this offset, and opens it. The octets are a body and a closed gate.
pub(crate) fn seal<D: Disk>(disk: &mut D, gate: u64, octets: &[u8]) -> Result<(), Unsealed>
    requires inside { Every (D.images disk.old) (λ c. gate < length c) }
    requires small { gate + 1 + length octets.now ≤ 2 ^ 40 }
    ensures outcome { (front body : List ℕ) → IsBodyFor front body octets.now gate (D.images disk.old)
        → IsSealed front body result (D.images disk.new) }
    ensures moments { (front body : List ℕ) → IsBodyFor front body octets.now gate (D.images disk.old)
        → LeavesOnly D.moment D.left_since disk.old disk.new (λ c. ClosedAfter front c ⊎ StagedAfter front body c) }
    ensures before { (front body : List ℕ) → IsBodyFor front body octets.now gate (D.images disk.old)
        → IsErrOf result Unsealed.Before → LeavesOnly D.moment D.left_since disk.old disk.new (ClosedAfter front) }
    ensures cause { HasCause (D.faults disk.old) (D.faults disk.new) result }
    ensures loan { D.loan disk.new ≡ D.loan disk.old }
{
    // On the disk before the gate is opened: what stands behind an open gate counts.
    match write_through(disk, gate + 1, octets) {
        Ok(()) => {}
        Err(_) => return Err(Unsealed::Before),
    }
    match write_through(disk, gate, &[1]) {
        Ok(()) => Ok(()),
        Err(_) => Err(Unsealed::Gate),
    }
}
