//! What no message asks for: the operator's orders, and what lapses.
ghost use Rattle.std.specs.Prelude.{◌≡◌, ◌≢◌, ◌∷◌, [], Some};
ghost use Rattle.cmp_ports.specs.Faults.{Rose};
ghost use Rattle.rounds.specs.Rounds.{IsRound};
ghost use Rattle.rounds.specs.Stays.{Stays};
ghost use Rattle.workers.specs.Badges.{IsAtRest};
ghost use Rattle.workers.specs.Upkeeps.{IsKeptUp};

use atomic_table::Badge;
use clerk::SharedClerk;
use cmp_ports::{Clock, Disk, Gate, Orders, Point};
use deal_model::Change;
use desk::{Clerk, Desk, FaultMarks};
use rounds::{Round, Stop, lapse_due, take_orders};
use std::mem;
use std::sync::Wait;
use std::sync::atomic::{AtomicU64, Ordering};
use turnstile::view::View;
use turnstile::{Seat, Turnstile};

/// What the worker without a station leaves: its badge, which holds no turn, the marks of a disk that failed, and its round.
#[derive(Drop)]
pub struct Upkeep {
    pub badge: Badge<View<Change>>,
    pub marks: FaultMarks,
    pub round: Round,
}

/// Takes back what is due, and then takes orders until none is left.
fn go_round<K: Clerk, O: Orders, C: Clock>(clerk: &mut K, orders: &mut O, clock: &mut C) -> Round
    ensures round { IsRound (record { seen = K.seen clerk.old; mine = K.mine clerk.old; left = O.left orders.old; coming = C.readings clock.old }) (record { seen = K.seen clerk.new; mine = K.mine clerk.new; left = O.left orders.new; coming = C.readings clock.new }) result }
    ensures stays { Stays K.Clerk clerk.old clerk.new }
    ensures clock { C.loan clock.new ≡ C.loan clock.old }
    ensures read_fault { result.stop ≡ Some Stop.ReadFault → Rose (O.faults orders.old) (O.faults orders.new) }
    ensures read { result.stop ≢ Some Stop.ReadFault → O.faults orders.new ≡ O.faults orders.old }
    ensures disk_fault { result.stop ≡ Some Stop.DiskFault → Rose (K.faults clerk.old) (K.faults clerk.new) }
    ensures disk { result.stop ≢ Some Stop.DiskFault → K.faults clerk.new ≡ K.faults clerk.old }
{
    let lapses = lapse_due(clerk, clock);
    if lapses.stop.is_some() {
        return lapses;
    }
    let taken = take_orders(clerk, orders, clock);
    lapses.followed_by(taken)
}

/// Goes round until no worker is left or a round stopped before its end. Where there is nothing to do the gate is passed.
fn keep_up<K: Clerk, O: Orders, C: Clock, G: Gate, R: Wait>(
    rt: &R,
    left: &AtomicU64,
    clerk: &mut K,
    orders: &mut O,
    clock: &mut C,
    gate: &mut G,
) -> Round
    ensures round { IsRound (record { seen = K.seen clerk.old; mine = K.mine clerk.old; left = O.left orders.old; coming = C.readings clock.old }) (record { seen = K.seen clerk.new; mine = K.mine clerk.new; left = O.left orders.new; coming = C.readings clock.new }) result }
    ensures stays { Stays K.Clerk clerk.old clerk.new }
    ensures clock { C.loan clock.new ≡ C.loan clock.old }
    ensures read_fault { result.stop ≡ Some Stop.ReadFault → Rose (O.faults orders.old) (O.faults orders.new) }
    ensures read { result.stop ≢ Some Stop.ReadFault → O.faults orders.new ≡ O.faults orders.old }
    ensures disk_fault { result.stop ≡ Some Stop.DiskFault → Rose (K.faults clerk.old) (K.faults clerk.new) }
    ensures disk { result.stop ≢ Some Stop.DiskFault → K.faults clerk.new ≡ K.faults clerk.old }
{
    let mut round = Round::none();
    for _ in rt.forever() {
        round = round.followed_by(go_round(clerk, orders, clock));
        if round.stop.is_some() || left.load(Ordering::SeqCst) == 0 {
            return round;
        }
        gate.pass(Point::Idle);
    }
    unreachable!()
}

/// Goes round by a badge at a turnstile, until no worker is left or a round stopped before its end.
pub fn keep_up_by<D: Disk + Drop, O: Orders, C: Clock, G: Gate, R: Wait>(
    rt: &R,
    stile: &Turnstile<Desk<D>>,
    left: &AtomicU64,
    badge: &mut Badge<View<Change>>,
    orders: &mut O,
    clock: &mut C,
    gate: &mut G,
) -> Upkeep
    requires { IsAtRest stile.now.table.shared.table_id badge.old.table_id badge.old.views }
    ensures kept { IsKeptUp stile.now.table.shared.table_id badge.old.views (O.left orders.old) (O.left orders.new) (C.readings clock.old) (C.readings clock.new) result }
    ensures read_fault { result.round.stop ≡ Some Stop.ReadFault → Rose (O.faults orders.old) (O.faults orders.new) }
    ensures read { result.round.stop ≢ Some Stop.ReadFault → O.faults orders.new ≡ O.faults orders.old }
    ensures disk_fault { result.round.stop ≡ Some Stop.DiskFault → Rose 0 result.marks }
    ensures disk { result.round.stop ≢ Some Stop.DiskFault → result.marks ≡ 0 }
    ensures clock { C.loan clock.new ≡ C.loan clock.old }
{
    let badge = mem::replace(badge, Badge::blank());
    let seat: Seat<Desk<D>> = badge.into_seat();
    let mut clerk = SharedClerk::new(rt, stile, seat);
    let round = keep_up(rt, left, &mut clerk, orders, clock, gate);
    let (seat, marks) = clerk.shut();
    Upkeep {
        badge: seat.into_badge(),
        marks,
        round,
    }
}
