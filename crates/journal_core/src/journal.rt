//! A journal: where the log on the disk ends, and whether a payload is in doubt.
ghost use Rattle.std.specs.Prelude.{◌≡◌, ◌+◌, ◌≤◌, ◌↔◌, ℕ, List, length, true, false, IsTrue, IsErrOf, OnOk, MatchResult};

use crate::fault::{AppendFault, DiskFault};
use crate::limit::is_full;
use crate::record::Record;
use crate::seal::{Unsealed, seal, write_through};
use cmp_ports::Disk;

/// How far the last append came.
#[derive(Clone, Copy, Debug, PartialEq, Eq)]
pub(crate) enum Doubt {
    /// To its end, or to nothing: no payload is in doubt.
    Clear,
    /// Not to the gate, which is still closed.
    Before,
    /// To the gate, which may be open or not.
    Gate,
}

/// A journal of payloads on a disk. It keeps no payload in memory.
#[derive(Debug, Drop)]
pub struct Journal {
    pub(crate) end: u64,
    pub(crate) count: u64,
    pub(crate) doubt: Doubt,
}

impl Journal {
    ghost use Rattle.cmp_ports.specs.Disk.{Every, LeavesOnly};
    ghost use Rattle.cmp_ports.specs.Faults.{Rose, HasCause};
    ghost use Rattle.journal_core.specs.Log.{log_of, IsBeforeOrAfter, IsWithout};
    ghost use Rattle.journal_core.specs.Journal.{is_doubtful, has_begun_gate, is_past_limit, IsKept, IsSound, IsAtRest, IsAppended};

    /// Adds a payload to the log. After Ok each image of the disk has it. After `DiskFault` it is in doubt, and
    /// `settle` has to come before the next append. `Full` exactly where 262,144 payloads stand, or the log would
    /// pass 2^30 octets. Writes twice and syncs twice, and takes no memory.
    pub fn append<D: Disk>(&mut self, disk: &mut D, entry: &Record) -> Result<(), AppendFault>
        // The disk is as this journal's last call left it, and nothing is in doubt.
        requires sound { IsSound self.old (D.images disk.old) }
        requires clear { is_doubtful self.old ≡ false }

        ensures sound { IsSound self.new (D.images disk.new) }
        ensures clear { OnOk result (is_doubtful self.new ≡ false) }
        ensures outcome { (magic : List ℕ) (payloads : List (List ℕ)) → IsAtRest magic payloads self.old (D.images disk.old)
            → IsAppended magic payloads entry.now result self.old self.new (D.images disk.new) }
        ensures full { (magic : List ℕ) (payloads : List (List ℕ)) → IsAtRest magic payloads self.old (D.images disk.old)
            → (result ≡ Err AppendFault.Full) ↔ IsTrue (is_past_limit (length payloads) (length (log_of magic payloads)) (length entry.now + 5)) }

        // Full leaves the disk alone.
        ensures untouched { IsErrOf result AppendFault.Full → disk.new ≡ disk.old }

        // Where it fails before it begins to write the gate, no image of any moment of the call has the payload.
        ensures unbegun { (magic : List ℕ) (payloads : List (List ℕ)) → IsAtRest magic payloads self.old (D.images disk.old)
            → IsErrOf result AppendFault.DiskFault → has_begun_gate self.new ≡ false → LeavesOnly D.moment D.left_since disk.old disk.new (IsWithout magic payloads entry.now) }

        // A stop at any moment of the call leaves the payloads from before it, with the new one or without.
        ensures moments { (magic : List ℕ) (payloads : List (List ℕ)) → IsAtRest magic payloads self.old (D.images disk.old)
            → LeavesOnly D.moment D.left_since disk.old disk.new (IsBeforeOrAfter magic payloads entry.now) }

        ensures fault { IsErrOf result AppendFault.DiskFault → Rose (D.faults disk.old) (D.faults disk.new) }
        ensures later { D.faults disk.old ≤ D.faults disk.new }
        ensures kept { OnOk result (D.faults disk.new ≡ D.faults disk.old) }
        ensures loan { D.loan disk.new ≡ D.loan disk.old }
    {
        let octets = entry.octets();
        let growth = octets.len() as u64;
        if is_full(self.count, self.end, growth) {
            return Err(AppendFault::Full);
        }
        match seal(disk, self.end, octets) {
            Ok(()) => {
                self.end += growth;
                self.count += 1;
                Ok(())
            }
            Err(Unsealed::Before) => {
                self.doubt = Doubt::Before;
                Err(AppendFault::DiskFault)
            }
            Err(Unsealed::Gate) => {
                self.doubt = Doubt::Gate;
                Err(AppendFault::DiskFault)
            }
        }
    }

    /// Takes the doubtful payload out of the log: closes the gate where append had begun to write it, and syncs.
    /// After Ok nothing is in doubt, and no image has that payload. After `DiskFault` the doubt stays. Takes no memory.
    pub fn settle<D: Disk>(&mut self, disk: &mut D) -> Result<(), DiskFault>
        // The disk is as this journal's last call left it.
        requires { IsSound self.old (D.images disk.old) }

        ensures sound { IsSound self.new (D.images disk.new) }
        ensures clear { OnOk result (is_doubtful self.new ≡ false) }
        ensures outcome { (magic : List ℕ) (payloads : List (List ℕ)) (payload : List ℕ) → IsKept magic payloads payload self.old (D.images disk.old)
            → MatchResult result (λ _. IsAtRest magic payloads self.new (D.images disk.new)) (λ _. IsKept magic payloads payload self.new (D.images disk.new) × (self.new ≡ self.old)) }

        // After Ok no image has the payload that was in doubt.
        ensures gone { (magic : List ℕ) (payloads : List (List ℕ)) (payload : List ℕ) → IsKept magic payloads payload self.old (D.images disk.old)
            → OnOk result (Every (D.images disk.new) (IsWithout magic payloads payload)) }

        // Where append hadn't begun to write its gate, no image of any moment of the call has it.
        ensures unbegun { (magic : List ℕ) (payloads : List (List ℕ)) (payload : List ℕ) → IsKept magic payloads payload self.old (D.images disk.old)
            → has_begun_gate self.old ≡ false → LeavesOnly D.moment D.left_since disk.old disk.new (IsWithout magic payloads payload) }

        // A stop at any moment of the call leaves the payloads, with the doubtful one or without.
        ensures moments { (magic : List ℕ) (payloads : List (List ℕ)) (payload : List ℕ) → IsKept magic payloads payload self.old (D.images disk.old)
            → LeavesOnly D.moment D.left_since disk.old disk.new (IsBeforeOrAfter magic payloads payload) }

        ensures cause { HasCause (D.faults disk.old) (D.faults disk.new) result }
        ensures loan { D.loan disk.new ≡ D.loan disk.old }
    {
        match self.doubt {
            Doubt::Gate => match write_through(disk, self.end, &[0]) {
                Ok(()) => {
                    self.doubt = Doubt::Clear;
                    Ok(())
                }
                Err(_) => Err(DiskFault),
            },
            _ => match disk.sync() {
                Ok(()) => {
                    self.doubt = Doubt::Clear;
                    Ok(())
                }
                Err(_) => Err(DiskFault),
            },
        }
    }

    /// Whether a payload is in doubt: the last append failed, and no settle has succeeded since.
    pub fn doubt(&self) -> bool
        ensures { result ≡ is_doubtful self.now }
    {
        match self.doubt {
            Doubt::Clear => false,
            Doubt::Before | Doubt::Gate => true,
        }
    }
}
