//! Adds one change to the history: first on the disk, then in memory.
ghost use Rattle.std.specs.Prelude.{◌≡◌, ◌≢◌, ◌<◌, ◌≤◌, ◌^◌, ◌++◌, ◌∷◌, [], length, MatchOption, IfOk, OnOk, OnErr, IfSome, IsSome, Some, None, vec_len, vec_capacity};
ghost use Rattle.cmp_ports.specs.Disk.{LeavesOnly};
ghost use Rattle.cmp_ports.specs.Faults.{Rose, HasCause};
ghost use Rattle.deal_changes.specs.Spelling.{spelling, IsWriteable};
ghost use Rattle.desk.specs.History.{history_of};
ghost use Rattle.desk.specs.Images.{RecoversWith, IsDoubt, DoubtOr, MayCome};
ghost use Rattle.desk.specs.Calls.{Fits, IsAdded};

use crate::answers::Added;
use crate::desk::Desk;
use crate::mark::FaultMark;
use cmp_ports::Disk;
use deal_model::{Change, write_change};
use journal_core::{AppendFault, DiskFault, Record};
use std::alloc::{AllocError, Global};
use std::snapshot::Snapshot;

/// The most octets of a payload.
const MOST_OCTETS: usize = 0x4000_0000;

/// The record of a change, or none where it has more octets than a log may have.
fn record_of(alloc: Global, c: &Change) -> Result<Option<Record>, AllocError>
    requires { IsWriteable c.now }
    ensures { IfOk result (λ r. MatchOption r (1073741824 < length (spelling c.now)) (λ entry. entry ≡ spelling c.now)) }
{
    let octets = write_change(alloc, c)?;
    if octets.len() > MOST_OCTETS {
        return Ok(None);
    }
    Ok(Some(Record::new(alloc, octets.as_slice())?))
}

impl<D: Disk> Desk<D> {
    /// Settles that what is in doubt doesn't stand on the disk.
    pub(crate) fn settle(&mut self) -> Result<(), DiskFault>
        ensures same { self.new.history ≡ self.old.history }
        ensures clear { OnOk result (self.new.doubt ≡ None) }
        ensures still { OnErr result (IsSome self.old.doubt × (self.new.doubt ≡ self.old.doubt)) }
        ensures moments { LeavesOnly D.moment D.left_since self.old.disk self.new.disk (RecoversWith (history_of self.old) (IsDoubt self.old.doubt)) }
        ensures cause { HasCause (D.faults self.old.disk) (D.faults self.new.disk) result }
        ensures loan { D.loan self.new.disk ≡ D.loan self.old.disk }
        ensures mark { self.new.mark ≡ self.old.mark }
    {
        if self.doubt.is_none() {
            return Ok(());
        }
        match self.journal.settle(&mut self.disk) {
            Ok(()) => {
                self.doubt = None;
                Ok(())
            }
            Err(fault) => Err(fault),
        }
    }

    /// Appends the record of a change where nothing is in doubt. Takes no memory.
    fn append(&mut self, c: Change, entry: &Record) -> Added
        requires fits { Fits (history_of self.old) c }
        requires clear { self.old.doubt ≡ None }
        requires spelled { entry.now ≡ spelling c }
        requires room { vec_len self.old.history < vec_capacity self.old.history }
        ensures ends { IsAdded (history_of self.old) None c result (history_of self.new) self.new.doubt }
        ensures some { result ≢ Added.NoMemory }
        ensures doubt { IfSome self.new.doubt (MayCome (λ x. x ≡ c) (history_of self.old)) }
        ensures moments { LeavesOnly D.moment D.left_since self.old.disk self.new.disk (RecoversWith (history_of self.old) (MayCome (λ x. x ≡ c) (history_of self.old))) }
        ensures fault { result ≡ Added.DiskFault → Rose (D.faults self.old.disk) (D.faults self.new.disk) }
        ensures later { D.faults self.old.disk ≤ D.faults self.new.disk }
        ensures exact { result ≢ Added.DiskFault → D.faults self.new.disk ≡ D.faults self.old.disk }
        ensures loan { D.loan self.new.disk ≡ D.loan self.old.disk }
        ensures mark { self.new.mark ≡ self.old.mark }
    {
        match self.journal.append(&mut self.disk, entry) {
            Ok(()) => match self.history.push(c) {
                Ok(()) => Added::Done,
                Err(_) => unreachable!(),
            },
            Err(AppendFault::Full) => Added::Full,
            Err(AppendFault::DiskFault) => {
                self.doubt = Some(c);
                Added::DiskFault
            }
        }
    }

    /// Adds a change that may come next. What is in doubt is settled first, and all memory is taken before.
    pub(crate) fn add(&mut self, c: Change) -> Added
        requires { Fits (history_of self.old) c }
        ensures ends { IsAdded (history_of self.old) self.old.doubt c result (history_of self.new) self.new.doubt }
        ensures doubt { IfSome self.new.doubt (DoubtOr self.old.doubt (MayCome (λ x. x ≡ c) (history_of self.old))) }
        ensures moments { LeavesOnly D.moment D.left_since self.old.disk self.new.disk (RecoversWith (history_of self.old) (DoubtOr self.old.doubt (MayCome (λ x. x ≡ c) (history_of self.old)))) }
        ensures fault { result ≡ Added.DiskFault → Rose (D.faults self.old.disk) (D.faults self.new.disk) }
        ensures later { D.faults self.old.disk ≤ D.faults self.new.disk }
        ensures exact { result ≢ Added.DiskFault → D.faults self.new.disk ≡ D.faults self.old.disk }
        ensures loan { D.loan self.new.disk ≡ D.loan self.old.disk }
        ensures mark { self.new.mark ≡ self.old.mark }
    {
        let alloc = *self.history.allocator();
        let record = match record_of(alloc, &c) {
            Ok(Some(record)) => record,
            Ok(None) => return Added::Full,
            Err(_) => return Added::NoMemory,
        };
        if self.history.reserve(1).is_err() {
            return Added::NoMemory;
        }
        match self.settle() {
            Ok(()) => self.append(c, &record),
            Err(_) => Added::DiskFault,
        }
    }

    /// Adds a change that may come next, and keeps a mark where the disk failed.
    pub(crate) fn add_marked(&mut self, c: Change) -> Added
        requires { Fits (history_of self.old) c }
        ensures ends { IsAdded (history_of self.old) self.old.doubt c result (history_of self.new) self.new.doubt }
        ensures doubt { IfSome self.new.doubt (DoubtOr self.old.doubt (MayCome (λ x. x ≡ c) (history_of self.old))) }
        ensures moments { LeavesOnly D.moment D.left_since self.old.disk self.new.disk (RecoversWith (history_of self.old) (DoubtOr self.old.doubt (MayCome (λ x. x ≡ c) (history_of self.old)))) }
        ensures fault { result ≡ Added.DiskFault → Rose (D.faults self.old.disk) (D.faults self.new.disk) }
        ensures later { D.faults self.old.disk ≤ D.faults self.new.disk }
        ensures exact { result ≢ Added.DiskFault → D.faults self.new.disk ≡ D.faults self.old.disk }
        ensures loan { D.loan self.new.disk ≡ D.loan self.old.disk }
        ensures mark { MatchOption self.new.mark (result ≢ Added.DiskFault) (λ m. (result ≡ Added.DiskFault) × (m.before.value ≡ self.old.disk) × (m.after.value ≡ self.new.disk)) }
    {
        let before = Snapshot::of(&self.disk);
        let added = self.add(c);
        self.mark = match added {
            Added::DiskFault => Some(FaultMark::of(before, Snapshot::of(&self.disk))),
            _ => None,
        };
        added
    }
}
