//! Marks of a disk that failed.
ghost use Rattle.std.specs.Prelude.{◌≡◌, ◌≤◌, ◌+◌, ◌-◌, ◌^◌, ℕ, min};
ghost use Rattle.cmp_ports.specs.Faults.{Rose};

use cmp_ports::Disk;
use std::marker::Model;
use std::snapshot::Snapshot;

/// Says that its disk failed under one call of a desk: the count of the disk's faults rose from the start of the call to its end.
/// Only such a call makes one, and it can't be copied.
#[derive(Drop)]
pub struct FaultMark<D: Disk> {
    pub(crate) before: Snapshot<D>,
    pub(crate) after: Snapshot<D>,
    ghost rose: { Rose (D.faults before.value) (D.faults after.value) },
}

impl<D: Disk> FaultMark<D> {
    /// The mark of a call.
    pub(crate) fn of(before: Snapshot<D>, after: Snapshot<D>) -> FaultMark<D>
        requires { Rose (D.faults before.value) (D.faults after.value) }
        ensures before { result.before ≡ before }
        ensures after { result.after ≡ after }
    {
        FaultMark { before, after }
    }

    /// What a mark says.
    pub fn disk_failed(&self)
        ensures { Rose (D.faults self.now.before.value) (D.faults self.now.after.value) }
    {}
}

/// How many marks were handed in. The count stays at the greatest u64.
#[derive(Debug, Drop)]
pub struct FaultMarks {
    count: u64,
}

impl Model for FaultMarks {
    ghost Value = { ℕ };

    ghost view = { λ m. m.count };
}

impl FaultMarks {
    /// No marks.
    pub fn none() -> FaultMarks
        ensures { result ≡ 0 }
    {
        FaultMarks { count: 0 }
    }

    /// Takes a mark.
    pub fn add<D: Disk>(&mut self, mark: FaultMark<D>)
        ensures count { self.new ≡ min (self.old + 1) (2 ^ 64 - 1) }
        ensures later { self.old ≤ self.new }
    {
        drop(mark);
        self.count = self.count.saturating_add(1);
    }

    /// Takes the marks of another count.
    pub fn join(&mut self, other: FaultMarks)
        ensures count { self.new ≡ min (self.old + other) (2 ^ 64 - 1) }
        ensures later { self.old ≤ self.new }
    {
        self.count = self.count.saturating_add(other.count);
    }

    /// How many there are.
    pub fn count(&self) -> u64
        ensures { result ≡ self.now }
    {
        self.count
    }
}
