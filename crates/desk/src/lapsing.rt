//! Takes back the next certificate that wasn't confirmed in time.
ghost use Rattle.std.specs.Prelude.{◌≡◌, ◌≢◌, ◌≤◌, length, IfSome, MatchOption};
ghost use Rattle.cmp_ports.specs.Disk.{LeavesOnly};
ghost use Rattle.cmp_ports.specs.Faults.{Rose};
ghost use Rattle.deal_model.specs.Views.{AreTimely, is_empty, time_of};
ghost use Rattle.desk.specs.History.{history_of};
ghost use Rattle.desk.specs.Images.{RecoversWith, DoubtOr, MayCome};
ghost use Rattle.desk.specs.Due.{event_time, AllAfter, IsDue, IsLapse};
ghost use Rattle.desk.specs.Calls.{IsLapsed, lapse_end};

use crate::answers::{Added, Lapsed};
use crate::desk::Desk;
use crate::due::{Due, next_due};
use cmp_ports::{Disk, Short};
use deal_model::Change;

/// The time of the last change.
#[tactic(auto, using(crate::proofs::LawfulLemmas::last_time))]
fn time_of(h: &[Change]) -> u64
    ensures { result ≡ time_of h.now }
{
    match h {
        [] => 0,
        [.., last] => last.time(),
    }
}

/// The time of an event: the clock's reading, or that of the last change where it is later.
pub(crate) fn event_time(h: &[Change], now: u64) -> u64
    ensures { result ≡ event_time h.now now }
{
    now.max(time_of(h))
}

/// The certificate that lapses at this time.
fn due_by(h: &[Change], time: u64) -> Option<Due>
    requires { AreTimely h.now }
    ensures { MatchOption result (AllAfter h.now time h.now) (λ due. IsDue h.now time due.tid) }
{
    match next_due(h) {
        None => None,
        Some(due) => {
            if due.deadline <= time {
                Some(due)
            } else {
                None
            }
        }
    }
}

// How a lapse ends whose change was added so, where the history has so many changes then.
fn lapse_end(added: Added, place: u64, tid: Short) -> Lapsed
    ensures { result ≡ lapse_end added place tid }
{
    match added {
        Added::Done => Lapsed::Done { place, tid },
        Added::Full => Lapsed::Full,
        Added::DiskFault => Lapsed::DiskFault,
        Added::NoMemory => Lapsed::NoMemory,
    }
}

impl<D: Disk> Desk<D> {
    /// The changes, none of which is later than any clock may say, and of which there are so many at most.
    pub(crate) fn changes(&self) -> &[Change]
        ensures value { result.now ≡ history_of self.now }
        ensures timely { AreTimely result.now }
        ensures bounded { length result.now ≤ 262144 }
    {
        self.history.as_slice()
    }

    /// Takes back the certificate with the least deadline that has come, of equal ones the one that was granted first. The
    /// time is a clock's reading in seconds since 1970.
    pub fn lapse(&mut self, now: u64) -> Lapsed
        requires { now ≤ 250000000000 }
        ensures ends { IsLapsed (history_of self.old) self.old.doubt (event_time (history_of self.old) now) result (history_of self.new) self.new.doubt }
        // Only the change that was in doubt, or the call's own that may come next, is in doubt afterwards.
        ensures doubt { IfSome self.new.doubt (DoubtOr self.old.doubt (MayCome (IsLapse (history_of self.old) (event_time (history_of self.old) now)) (history_of self.old))) }
        // A stop at any moment of the call leaves the history, with the change in doubt behind it, with the lapse, or alone.
        ensures moments { LeavesOnly D.moment D.left_since self.old.disk self.new.disk (RecoversWith (history_of self.old) (DoubtOr self.old.doubt (MayCome (IsLapse (history_of self.old) (event_time (history_of self.old) now)) (history_of self.old)))) }
        ensures fault { result ≡ Lapsed.DiskFault → Rose (D.faults self.old.disk) (D.faults self.new.disk) }
        ensures later { D.faults self.old.disk ≤ D.faults self.new.disk }
        ensures exact { result ≢ Lapsed.DiskFault → D.faults self.new.disk ≡ D.faults self.old.disk }
        ensures loan { D.loan self.new.disk ≡ D.loan self.old.disk }
        ensures mark { MatchOption self.new.mark (result ≢ Lapsed.DiskFault) (λ m. (result ≡ Lapsed.DiskFault) × (m.before.value ≡ self.old.disk) × (m.after.value ≡ self.new.disk)) }
    {
        self.mark = None;
        let changes = self.changes();
        let time = event_time(changes, now);
        let Some(due) = due_by(changes, time) else {
            return Lapsed::Nothing;
        };
        let added = self.add_marked(Change::Lapse { time, tid: due.tid });
        lapse_end(added, self.length(), due.tid)
    }
}
