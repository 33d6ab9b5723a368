//! A desk: one history, on its disk and in memory.
ghost use Rattle.std.specs.Prelude.{◌≡◌, ◌-◌, ◌≤◌, length, IfSome, Some, None, slice_get};
ghost use Rattle.deal_model.specs.Rules.{Allowed, Legal};
ghost use Rattle.desk.specs.Images.{Keeps, Images};

use crate::mark::FaultMark;
use cmp_ports::Disk;
use deal_model::Change;
use journal_core::Journal;

/// The history of a service, on a disk that the desk keeps. After a call that failed at the disk one change may be in
/// doubt: it may stand on the disk or not, and the next call that writes settles that it doesn't.
#[derive(Drop)]
pub struct Desk<D: Disk> {
    pub(crate) disk: D,
    pub(crate) journal: Journal,
    pub(crate) history: Vec<Change>,
    pub(crate) doubt: Option<Change>,
    pub(crate) mark: Option<FaultMark<D>>,
    ghost kept: { ∥ Keeps history.items doubt journal (D.images disk) ∥₁ },
    ghost lawful: { ∥ Legal history.items × IfSome doubt (Allowed history.items) ∥₁ },
}

impl<D: Disk> Desk<D> {
    ghost use Rattle.desk.specs.History.{history_of};

    /// The number of changes.
    pub fn length(&self) -> u64
        ensures { result ≡ length (history_of self.now) }
    {
        self.history.len() as u64
    }

    /// The change at a place, from 1 on.
    pub fn change_at(&self, place: u64) -> &Change
        requires low { 1 ≤ place }
        requires high { place ≤ length (history_of self.now) }
        ensures { slice_get (history_of self.now) (place - 1) ≡ Some result.now }
    {
        &self.history[place as usize - 1]
    }

    /// What a desk is: each image of its disk recovers to its history, or to that with the change in doubt behind it. The
    /// history is legal, and the change in doubt may come next.
    pub fn stands_for_its_disk(&self)
        ensures images { Images (D.images self.now.disk) (history_of self.now) self.now.doubt }
        ensures lawful { ∥ Legal (history_of self.now) × IfSome self.now.doubt (Allowed (history_of self.now)) ∥₁ }
    {}

    /// The mark of the last decide, lapse or order, where the disk failed under it and its mark wasn't taken yet.
    pub fn fault(&mut self) -> Option<FaultMark<D>>
        ensures taken { result ≡ self.old.mark }
        ensures none { self.new.mark ≡ None }
        ensures disk { self.new.disk ≡ self.old.disk }
        ensures history { self.new.history ≡ self.old.history }
        ensures doubt { self.new.doubt ≡ self.old.doubt }
    {
        self.mark.take()
    }

    /// The disk.
    pub fn into_disk(self) -> D
        ensures { result ≡ self.disk }
    {
        self.disk
    }
}
