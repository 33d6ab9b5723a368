//! Decides messages that were checked.
ghost use Rattle.std.specs.Prelude.{◌≡◌, ◌≢◌, ◌≤◌, List, length, true, Some, is_some, IfSome, MatchOption, IfOk};
ghost use Rattle.cmp_ports.specs.Disk.{LeavesOnly};
ghost use Rattle.cmp_ports.specs.Faults.{Rose};
ghost use Rattle.deal_changes.specs.declared.change.Change.{Change};
ghost use Rattle.deal_changes.specs.Times.{stamp_of};
ghost use Rattle.deal_model.specs.Rules.{Allowed};
ghost use Rattle.deal_model.specs.Views.{AreTimely};
ghost use Rattle.deal_table.specs.History.{Begins, receipt_at};
ghost use Rattle.deal_table.specs.Message.{Letter};
ghost use Rattle.deal_table.specs.Carry.{FitsChecked, Carries, untold, HashIsTold};
ghost use Rattle.desk.specs.History.{history_of};
ghost use Rattle.desk.specs.Images.{RecoversWith, IsDoubt, DoubtOr, MayCome};
ghost use Rattle.desk.specs.Verdicts.{Decides, IsInTime, LeftMakes, IsLeft};
ghost use Rattle.desk.specs.Plans.{WillHave, IsPlan, IsReady, IsPlanned, IsMade, IsTold, IsFollowed};

use crate::answers::Added;
use crate::desk::Desk;
use crate::lapsing::event_time;
use crate::mark::FaultMark;
use crate::receipt::{Receipt, receipt_at, receipt_behind};
use crate::verdict::Verdict;
use cmp_ports::{Disk, FailInfo};
use deal_model::{Change, Checked};
use deal_rulings::{Ruling, ruling_on};
use std::alloc::{AllocError, Global};
use std::snapshot::Snapshot;

/// What is to be done of a message, with the memory that its answer takes.
#[derive(Drop)]
pub(crate) enum Plan {
    /// This change is made, whose receipt will be this one.
    Make {
        change: Change,
        receipt: Receipt,
    },
    /// Its reply is sent again.
    Repeat(Receipt),
    /// It is refused.
    Refuse {
        fail: FailInfo,
        is_guarded: bool,
        to_outer: bool,
    },
    /// Its certHash is to be compared first with the certificate of the Grant at this place.
    Ask {
        place: u64,
    },
}

// The receipt of a change of a message, once it stands behind the history.
fn receipt_of_made(alloc: Global, h: &[Change], c: &Change) -> Result<Receipt, AllocError>
    requires room { length h.now ≤ 262144 }
    requires stamped { is_some (stamp_of c.now) ≡ true }
    ensures { IfOk result (WillHave h.now c.now) }
{
    match receipt_behind(alloc, h, c) {
        Ok(Some(receipt)) => Ok(receipt),
        Ok(None) => unreachable!(),
        Err(fault) => Err(fault),
    }
}

// The receipt at a place where a message made a change.
fn receipt_of_repeated(alloc: Global, h: &[Change], place: u64) -> Result<Receipt, AllocError>
    requires room { length h.now ≤ 262144 }
    requires low { 1 ≤ place }
    requires high { place ≤ length h.now }
    requires stands { is_some (receipt_at h.now place) ≡ true }
    ensures { IfOk result (λ r. (receipt_at h.now place ≡ Some r) × (r.place ≡ place)) }
{
    match receipt_at(alloc, h, place) {
        Ok(Some(receipt)) => Ok(receipt),
        Ok(None) => unreachable!(),
        Err(fault) => Err(fault),
    }
}

// What is to be done of a message, by what is left of it.
fn plan_of(
    alloc: Global,
    h: &[Change],
    checked: &Checked<'_>,
    now: u64,
    words: &[u8; 32],
) -> Result<Plan, AllocError>
    requires timely { AreTimely h.now }
    requires room { length h.now ≤ 262144 }
    ensures { IfOk result (IsPlan h.now checked.now now words.now) }
{
    match ruling_on(alloc, h, checked, now, words) {
        Ok(Ruling::Makes(change)) => match receipt_of_made(alloc, h, &change) {
            Ok(receipt) => Ok(Plan::Make { change, receipt }),
            Err(fault) => Err(fault),
        },
        Ok(Ruling::Repeats { place }) => match receipt_of_repeated(alloc, h, place) {
            Ok(receipt) => Ok(Plan::Repeat(receipt)),
            Err(fault) => Err(fault),
        },
        Ok(
            Ruling::Refuses {
                fail,
                is_guarded,
                to_outer,
            },
        ) => Ok(Plan::Refuse {
            fail,
            is_guarded,
            to_outer,
        }),
        Ok(Ruling::Asks { place }) => Ok(Plan::Ask { place }),
        Err(fault) => Err(fault),
    }
}

impl<D: Disk> Desk<D> {
    /// Makes the change of a message, whose receipt will be this one.
    fn make(&mut self, change: Change, receipt: Receipt) -> Verdict
        requires { Allowed (history_of self.old) change }
        ensures ends { IsMade (history_of self.old) self.old.doubt change receipt result (history_of self.new) self.new.doubt }
        ensures doubt { IfSome self.new.doubt (DoubtOr self.old.doubt (MayCome (λ c. c ≡ change) (history_of self.old))) }
        ensures moments { LeavesOnly D.moment D.left_since self.old.disk self.new.disk (RecoversWith (history_of self.old) (DoubtOr self.old.doubt (MayCome (λ c. c ≡ change) (history_of self.old)))) }
        ensures fault { result ≡ Verdict.DiskFault → Rose (D.faults self.old.disk) (D.faults self.new.disk) }
        ensures later { D.faults self.old.disk ≤ D.faults self.new.disk }
        ensures exact { result ≢ Verdict.DiskFault → D.faults self.new.disk ≡ D.faults self.old.disk }
        ensures loan { D.loan self.new.disk ≡ D.loan self.old.disk }
        ensures mark { MatchOption self.new.mark (result ≢ Verdict.DiskFault) (λ m. (result ≡ Verdict.DiskFault) × (m.before.value ≡ self.old.disk) × (m.after.value ≡ self.new.disk)) }
    {
        match self.add_marked(change) {
            Added::Done => Verdict::Done(receipt),
            Added::Full => unreachable!(),
            Added::DiskFault => Verdict::DiskFault,
            Added::NoMemory => Verdict::NoMemory,
        }
    }

    /// Tells a verdict by which nothing is made, once nothing is in doubt.
    fn tell(&mut self, told: Verdict) -> Verdict
        requires { told ≢ Verdict.DiskFault }
        ensures ends { IsTold (history_of self.old) self.old.doubt told result (history_of self.new) self.new.doubt }
        ensures moments { LeavesOnly D.moment D.left_since self.old.disk self.new.disk (RecoversWith (history_of self.old) (IsDoubt self.old.doubt)) }
        ensures fault { result ≡ Verdict.DiskFault → Rose (D.faults self.old.disk) (D.faults self.new.disk) }
        ensures later { D.faults self.old.disk ≤ D.faults self.new.disk }
        ensures exact { result ≢ Verdict.DiskFault → D.faults self.new.disk ≡ D.faults self.old.disk }
        ensures loan { D.loan self.new.disk ≡ D.loan self.old.disk }
        ensures mark { MatchOption self.new.mark (result ≢ Verdict.DiskFault) (λ m. (result ≡ Verdict.DiskFault) × (m.before.value ≡ self.old.disk) × (m.after.value ≡ self.new.disk)) }
    {
        let before = Snapshot::of(&self.disk);
        match self.settle() {
            Ok(()) => {
                self.mark = None;
                told
            }
            Err(_) => {
                self.mark = Some(FaultMark::of(before, Snapshot::of(&self.disk)));
                Verdict::DiskFault
            }
        }
    }

    /// Does what is to be done.
    fn follow(&mut self, plan: Plan, now: u64) -> Verdict
        requires { IsReady (history_of self.old) plan }
        ensures ends { IsFollowed (history_of self.old) self.old.doubt now plan result (history_of self.new) self.new.doubt }
        ensures doubt { IfSome self.new.doubt (DoubtOr self.old.doubt (MayCome (IsPlanned plan) (history_of self.old))) }
        ensures moments { LeavesOnly D.moment D.left_since self.old.disk self.new.disk (RecoversWith (history_of self.old) (DoubtOr self.old.doubt (MayCome (IsPlanned plan) (history_of self.old)))) }
        ensures fault { result ≡ Verdict.DiskFault → Rose (D.faults self.old.disk) (D.faults self.new.disk) }
        ensures later { D.faults self.old.disk ≤ D.faults self.new.disk }
        ensures exact { result ≢ Verdict.DiskFault → D.faults self.new.disk ≡ D.faults self.old.disk }
        ensures loan { D.loan self.new.disk ≡ D.loan self.old.disk }
        ensures mark { MatchOption self.new.mark (result ≢ Verdict.DiskFault) (λ m. (result ≡ Verdict.DiskFault) × (m.before.value ≡ self.old.disk) × (m.after.value ≡ self.new.disk)) }
    {
        let place = self.length();
        let time = event_time(self.changes(), now);
        match plan {
            Plan::Make { change, receipt } => self.make(change, receipt),
            Plan::Repeat(receipt) => self.tell(Verdict::Again {
                receipt,
                place,
                time,
            }),
            Plan::Refuse {
                fail,
                is_guarded,
                to_outer,
            } => self.tell(Verdict::Refused {
                fail,
                place,
                time,
                guarded: is_guarded,
                to_outer,
            }),
            Plan::Ask { place } => self.tell(Verdict::Stale { place }),
        }
    }

    /// Decides a message that was checked, over the history as it stands now, by the clock's reading in seconds since 1970 and
    /// 32 words drawn for the reply. What is in doubt is settled first, and all memory is taken before the first call of the
    /// disk. At most one change is added. After `DiskFault` the history is as before, and one change may be in doubt.
    pub fn decide(&mut self, checked: &Checked<'_>, now: u64, words: &[u8; 32]) -> Verdict
        requires clock { now ≤ 250000000000 }
        requires fits { FitsChecked checked.now }
        // Each message that the Checked carries, by a history that its maker has seen, is decided so.
        ensures verdict { (l : Letter) (looked seen : List Change) → Begins looked seen → Begins seen (history_of self.old) → Carries l (untold checked.now) looked → HashIsTold l checked.now seen → Decides l checked.now (history_of self.old) (history_of self.new) now words.now result }
        ensures ends { IsLeft checked.now now words.now (history_of self.old) self.old.doubt result (history_of self.new) self.new.doubt }
        // Only the change that was in doubt, or the call's own that may come next, is in doubt afterwards.
        ensures doubt { IfSome self.new.doubt (DoubtOr self.old.doubt (MayCome (LeftMakes (history_of self.old) checked.now now words.now) (history_of self.old))) }
        // A stop at any moment of the call leaves the history, with the change in doubt behind it, with the message's, or alone.
        ensures moments { LeavesOnly D.moment D.left_since self.old.disk self.new.disk (RecoversWith (history_of self.old) (DoubtOr self.old.doubt (MayCome (LeftMakes (history_of self.old) checked.now now words.now) (history_of self.old)))) }
        ensures fault { result ≡ Verdict.DiskFault → Rose (D.faults self.old.disk) (D.faults self.new.disk) }
        ensures later { D.faults self.old.disk ≤ D.faults self.new.disk }
        ensures exact { result ≢ Verdict.DiskFault → D.faults self.new.disk ≡ D.faults self.old.disk }
        ensures loan { D.loan self.new.disk ≡ D.loan self.old.disk }
        ensures mark { MatchOption self.new.mark (result ≢ Verdict.DiskFault) (λ m. (result ≡ Verdict.DiskFault) × (m.before.value ≡ self.old.disk) × (m.after.value ≡ self.new.disk)) }
        ensures time { IsInTime result }
    {
        self.mark = None;
        let alloc = *self.history.allocator();
        match plan_of(alloc, self.changes(), checked, now, words) {
            Ok(plan) => self.follow(plan, now),
            Err(_) => Verdict::NoMemory,
        }
    }
}
