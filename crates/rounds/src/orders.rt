//! A round of the operator's orders.
ghost use Rattle.std.specs.Prelude.{◌≡◌, ◌≢◌, ◌≤◌, List, [], ◌∷◌, Option, Some, None};
ghost use Rattle.cmp_ports.specs.Faults.{Rose};
ghost use Rattle.cmp_ports.specs.declared.order.Order.{Order};
ghost use Rattle.rounds.specs.Rounds.{IsOrderRound, IsUsedUp, TakesAll, order_round};
ghost use Rattle.rounds.specs.Stays.{Stays};

use crate::round::{Round, Stop};
use cmp_ports::{Clock, Order, Orders};
use desk::{Clerk, Ordered};

/// The round of one order that ended so.
fn round_of(ordered: Ordered) -> Round
    ensures round { result ≡ order_round ordered }
    ensures no_order { result.stop ≢ Some Stop.ReadFault }
    ensures disk_fault { result.stop ≡ Some Stop.DiskFault → ordered ≡ Ordered.DiskFault }
    ensures disk { result.stop ≢ Some Stop.DiskFault → ordered ≢ Ordered.DiskFault }
{
    match ordered {
        Ordered::Done { .. } => Round {
            done: 1,
            refused: 0,
            stop: None,
        },
        Ordered::NotHeld | Ordered::Full => Round {
            done: 0,
            refused: 1,
            stop: None,
        },
        Ordered::DiskFault => Round::stopped(Stop::DiskFault),
        Ordered::NoMemory => Round::stopped(Stop::NoMemory),
    }
}

/// Obeys an order that was taken, at the clock's next reading.
fn obey<K: Clerk, C: Clock>(clerk: &mut K, order: &Order, clock: &mut C) -> Round
    ensures round { (before after : Option (List Order)) → TakesAll before after (order.now ∷ []) → IsOrderRound (record { seen = K.seen clerk.old; mine = K.mine clerk.old; left = before; coming = C.readings clock.old }) (record { seen = K.seen clerk.new; mine = K.mine clerk.new; left = after; coming = C.readings clock.new }) result }
    ensures stays { Stays K.Clerk clerk.old clerk.new }
    ensures clock { C.loan clock.new ≡ C.loan clock.old }
    ensures no_order { result.stop ≢ Some Stop.ReadFault }
    ensures disk_fault { result.stop ≡ Some Stop.DiskFault → Rose (K.faults clerk.old) (K.faults clerk.new) }
    ensures disk { result.stop ≢ Some Stop.DiskFault → K.faults clerk.new ≡ K.faults clerk.old }
{
    let now = clock.now();
    let ordered = clerk.order(order, now);
    round_of(ordered)
}

/// Takes orders until none is left, and releases or denies the requests that they are of. The clock is read once an order.
pub fn take_orders<K: Clerk, O: Orders, C: Clock>(
    clerk: &mut K,
    orders: &mut O,
    clock: &mut C,
) -> Round
    ensures round { IsOrderRound (record { seen = K.seen clerk.old; mine = K.mine clerk.old; left = O.left orders.old; coming = C.readings clock.old }) (record { seen = K.seen clerk.new; mine = K.mine clerk.new; left = O.left orders.new; coming = C.readings clock.new }) result }
    ensures none { result.stop ≡ None → IsUsedUp (O.left orders.old) (O.left orders.new) }
    ensures stays { Stays K.Clerk clerk.old clerk.new }
    ensures clock { C.loan clock.new ≡ C.loan clock.old }
    ensures read_fault { result.stop ≡ Some Stop.ReadFault → Rose (O.faults orders.old) (O.faults orders.new) }
    ensures read { result.stop ≢ Some Stop.ReadFault → O.faults orders.new ≡ O.faults orders.old }
    ensures disk_fault { result.stop ≡ Some Stop.DiskFault → Rose (K.faults clerk.old) (K.faults clerk.new) }
    ensures disk { result.stop ≢ Some Stop.DiskFault → K.faults clerk.new ≡ K.faults clerk.old }
{
    let mut round = Round::none();
    for _ in 0..u64::MAX {
        let order = match orders.next() {
            Ok(Some(order)) => order,
            Ok(None) => return round,
            Err(_) => return round.followed_by(Round::stopped(Stop::ReadFault)),
        };
        round = round.followed_by(obey(clerk, &order, clock));
        if round.stop.is_some() {
            return round;
        }
    }
    round.followed_by(Round::stopped(Stop::NoMemory))
}
