//! Obeys the operator's orders on held requests.
ghost use Rattle.std.specs.Prelude.{◌≡◌, ◌≢◌, ◌≤◌, ◌↔◌, IsTrue, IfSome, MatchOption};
ghost use Rattle.cmp_ports.specs.Disk.{LeavesOnly};
ghost use Rattle.cmp_ports.specs.Faults.{Rose};
ghost use Rattle.deal_model.specs.declared.states.DealState.TheVariants.{Held};
ghost use Rattle.deal_model.specs.Views.{AreTimely};
ghost use Rattle.desk.specs.History.{history_of};
ghost use Rattle.desk.specs.Images.{RecoversWith, DoubtOr, MayCome};
ghost use Rattle.desk.specs.Due.{event_time};
ghost use Rattle.desk.specs.Calls.{Awaits, IsOrder, IsOrdered, order_end};

use crate::answers::{Added, Ordered};
use crate::desk::Desk;
use crate::lapsing::event_time;
use cmp_ports::{Disk, Order};
use deal_answers::transaction_state;
use deal_model::{Change, DealState};

fn is_held(state: DealState) -> bool
    ensures { IsTrue result ↔ (state ≡ Held) }
{
    match state {
        DealState::Held => true,
        _ => false,
    }
}

// The change of an order whose request is held.
fn held_change(h: &[Change], order: &Order, time: u64) -> Option<Change>
    requires { AreTimely h.now }
    ensures { MatchOption result (Awaits h.now order.now → ⊥) (λ c. Awaits h.now order.now × IsOrder order.now time c) }
{
    match order {
        Order::Release(tid) => {
            if is_held(transaction_state(h, tid.as_slice())) {
                Some(Change::Release { time, tid: *tid })
            } else {
                None
            }
        }
        Order::Deny(tid) => {
            if is_held(transaction_state(h, tid.as_slice())) {
                Some(Change::Deny { time, tid: *tid })
            } else {
                None
            }
        }
        Order::Bad => None,
    }
}

// How an order ends whose change was added so, where the history has so many changes then.
fn order_end(added: Added, place: u64) -> Ordered
    ensures { result ≡ order_end added place }
{
    match added {
        Added::Done => Ordered::Done { place },
        Added::Full => Ordered::Full,
        Added::DiskFault => Ordered::DiskFault,
        Added::NoMemory => Ordered::NoMemory,
    }
}

impl<D: Disk> Desk<D> {
    /// Releases or denies a held request. The time is a clock's reading in seconds since 1970.
    pub fn order(&mut self, order: &Order, now: u64) -> Ordered
        requires { now ≤ 250000000000 }
        ensures ends { IsOrdered (history_of self.old) self.old.doubt order.now (event_time (history_of self.old) now) result (history_of self.new) self.new.doubt }
        // Only the change that was in doubt, or the call's own that may come next, is in doubt afterwards.
        ensures doubt { IfSome self.new.doubt (DoubtOr self.old.doubt (MayCome (IsOrder order.now (event_time (history_of self.old) now)) (history_of self.old))) }
        // A stop at any moment of the call leaves the history, with the change in doubt behind it, with the order's, or alone.
        ensures moments { LeavesOnly D.moment D.left_since self.old.disk self.new.disk (RecoversWith (history_of self.old) (DoubtOr self.old.doubt (MayCome (IsOrder order.now (event_time (history_of self.old) now)) (history_of self.old)))) }
        ensures fault { result ≡ Ordered.DiskFault → Rose (D.faults self.old.disk) (D.faults self.new.disk) }
        ensures later { D.faults self.old.disk ≤ D.faults self.new.disk }
        ensures exact { result ≢ Ordered.DiskFault → D.faults self.new.disk ≡ D.faults self.old.disk }
        ensures loan { D.loan self.new.disk ≡ D.loan self.old.disk }
        ensures mark { MatchOption self.new.mark (result ≢ Ordered.DiskFault) (λ m. (result ≡ Ordered.DiskFault) × (m.before.value ≡ self.old.disk) × (m.after.value ≡ self.new.disk)) }
    {
        self.mark = None;
        let changes = self.changes();
        let time = event_time(changes, now);
        let Some(change) = held_change(changes, order, time) else {
            return Ordered::NotHeld;
        };
        let added = self.add_marked(change);
        order_end(added, self.length())
    }
}
