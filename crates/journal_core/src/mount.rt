//! Mounts the journal that a disk holds.
ghost use Rattle.std.specs.Prelude.{◌≡◌, ◌≢◌, ◌≤◌, ℕ, List, Some, Err, IfOk, OnOk, IsErrOf};
ghost use Rattle.cmp_ports.specs.Disk.{Among, LeavesOnly};
ghost use Rattle.cmp_ports.specs.Faults.{Rose};
ghost use Rattle.journal_core.specs.Mounted.{Reads};

use crate::fault::MountFault;
use crate::image::{ImageFault, read_image};
use crate::journal::{Doubt, Journal};
use crate::payloads::Payloads;
use crate::reading::read_log;
use cmp_ports::Disk;
use std::alloc::Global;

impl Journal {
    ghost use Rattle.journal_core.specs.Journal.{IsSound, IsAtRest};

    /// The journal of this magic on a disk, and its payloads, after a sync. `NotFounded` where the disk has under nine
    /// octets or its first octet isn't 1; `Damaged` where the magic is another or a record isn't whole. Reads the disk
    /// once, in large pieces, and changes nothing.
    pub fn mount<D: Disk>(
        alloc: Global,
        disk: &mut D,
        magic: &[u8; 7],
    ) -> Result<(Journal, Payloads), MountFault>
        ensures told { (f : List ℕ) → D.content disk.old ≡ Some f → Reads (λ r. r.1) magic.now f result }
        ensures rest { IfOk result (λ r. IsAtRest magic.now r.1 r.0 (D.images disk.new)) }
        ensures sound { IfOk result (λ r. IsSound r.0 (D.images disk.new)) }
        ensures same { D.content disk.new ≡ D.content disk.old }
        ensures crash { Among (D.images disk.old) (D.images disk.new) }

        // A stop at any moment leaves an image from before it.
        ensures moments { LeavesOnly D.moment D.left_since disk.old disk.new (D.images disk.old) }

        ensures fault { IsErrOf result MountFault.DiskFault → Rose (D.faults disk.old) (D.faults disk.new) }
        ensures later { D.faults disk.old ≤ D.faults disk.new }
        ensures kept { OnOk result (D.faults disk.new ≡ D.faults disk.old) }
        ensures exact { result ≢ Err MountFault.DiskFault → D.faults disk.new ≡ D.faults disk.old }
        ensures loan { D.loan disk.new ≡ D.loan disk.old }
    {
        match disk.sync() {
            Ok(()) => {}
            Err(_) => return Err(MountFault::DiskFault),
        }
        let image = match read_image(alloc, disk) {
            Ok(image) => image,
            Err(ImageFault::Failed) => return Err(MountFault::DiskFault),
            Err(ImageFault::NoMemory) => return Err(MountFault::NoMemory),
        };
        let (end, payloads) = read_log(alloc, &image, magic)?;
        let count = payloads.len() as u64;
        let journal = Journal {
            end,
            count,
            doubt: Doubt::Clear,
        };
        Ok((journal, Payloads::of(payloads)))
    }
}
