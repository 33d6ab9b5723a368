//! Rounds of both, orders and lapses.
ghost use Rattle.std.specs.Prelude.{◌≡◌, ◌≢◌, Some, None};
ghost use Rattle.cmp_ports.specs.Faults.{Rose};
ghost use Rattle.rounds.specs.Rounds.{IsMixedRound, IsLastRound, IsUsedUp};
ghost use Rattle.rounds.specs.Stays.{Stays};

use crate::lapses::{lapse_all, lapse_due};
use crate::orders::take_orders;
use crate::round::{Round, Stop};
use cmp_ports::{Clock, Orders};
use desk::Clerk;

/// A round while others are at work: what is due lapses first, and then orders are taken until none is left.
pub fn work_once<K: Clerk, O: Orders, C: Clock>(
    clerk: &mut K,
    orders: &mut O,
    clock: &mut C,
) -> Round
    ensures round { IsMixedRound (record { seen = K.seen clerk.old; mine = K.mine clerk.old; left = O.left orders.old; coming = C.readings clock.old }) (record { seen = K.seen clerk.new; mine = K.mine clerk.new; left = O.left orders.new; coming = C.readings clock.new }) result }
    ensures none { result.stop ≡ None → IsUsedUp (O.left orders.old) (O.left orders.new) }
    ensures stays { Stays K.Clerk clerk.old clerk.new }
    ensures clock { C.loan clock.new ≡ C.loan clock.old }
    ensures read_fault { result.stop ≡ Some Stop.ReadFault → Rose (O.faults orders.old) (O.faults orders.new) }
    ensures read { result.stop ≢ Some Stop.ReadFault → O.faults orders.new ≡ O.faults orders.old }
    ensures disk_fault { result.stop ≡ Some Stop.DiskFault → Rose (K.faults clerk.old) (K.faults clerk.new) }
    ensures disk { result.stop ≢ Some Stop.DiskFault → K.faults clerk.new ≡ K.faults clerk.old }
{
    let lapsed = lapse_due(clerk, clock);
    if lapsed.stop.is_some() {
        return lapsed;
    }
    let ordered = take_orders(clerk, orders, clock);
    lapsed.followed_by(ordered)
}

/// The last round, once all others have ended: orders are taken until none is left, and then what is due at the clock's next reading
/// lapses.
pub fn work_last<K: Clerk, O: Orders, C: Clock>(
    clerk: &mut K,
    orders: &mut O,
    clock: &mut C,
) -> Round
    ensures round { IsLastRound (record { seen = K.seen clerk.old; mine = K.mine clerk.old; left = O.left orders.old; coming = C.readings clock.old }) (record { seen = K.seen clerk.new; mine = K.mine clerk.new; left = O.left orders.new; coming = C.readings clock.new }) result }
    ensures none { result.stop ≡ None → IsUsedUp (O.left orders.old) (O.left orders.new) }
    ensures stays { Stays K.Clerk clerk.old clerk.new }
    ensures clock { C.loan clock.new ≡ C.loan clock.old }
    ensures read_fault { result.stop ≡ Some Stop.ReadFault → Rose (O.faults orders.old) (O.faults orders.new) }
    ensures read { result.stop ≢ Some Stop.ReadFault → O.faults orders.new ≡ O.faults orders.old }
    ensures disk_fault { result.stop ≡ Some Stop.DiskFault → Rose (K.faults clerk.old) (K.faults clerk.new) }
    ensures disk { result.stop ≢ Some Stop.DiskFault → K.faults clerk.new ≡ K.faults clerk.old }
{
    let ordered = take_orders(clerk, orders, clock);
    if ordered.stop.is_some() {
        return ordered;
    }
    let now = clock.now();
    let lapsed = lapse_all(clerk, now);
    ordered.followed_by(lapsed)
}
