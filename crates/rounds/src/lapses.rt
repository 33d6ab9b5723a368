//! Rounds of lapses.
ghost use Rattle.std.specs.Prelude.{◌≡◌, ◌≢◌, ◌≤◌, List, Option, Some};
ghost use Rattle.cmp_ports.specs.Faults.{Rose};
ghost use Rattle.cmp_ports.specs.declared.order.Order.{Order};
ghost use Rattle.rounds.specs.Rounds.{IsLapseRound, IsLapsing, lapse_round};
ghost use Rattle.rounds.specs.Stays.{Stays};

use crate::round::{Round, Stop};
use cmp_ports::Clock;
use desk::{Clerk, Lapsed};

/// How a call that ended so ends the round; none where the next one follows.
fn end_of(lapsed: Lapsed) -> Option<Round>
    ensures { result ≡ lapse_round lapsed }
{
    match lapsed {
        Lapsed::Done { .. } => None,
        Lapsed::Nothing | Lapsed::Full => Some(Round::none()),
        Lapsed::DiskFault => Some(Round::stopped(Stop::DiskFault)),
        Lapsed::NoMemory => Some(Round::stopped(Stop::NoMemory)),
    }
}

/// Takes back certificates as long as a deadline has come. The clock is read once a call of the clerk.
pub fn lapse_due<K: Clerk, C: Clock>(clerk: &mut K, clock: &mut C) -> Round
    // whatever orders are left
    ensures round { (left : Option (List Order)) → IsLapseRound (record { seen = K.seen clerk.old; mine = K.mine clerk.old; left = left; coming = C.readings clock.old }) (record { seen = K.seen clerk.new; mine = K.mine clerk.new; left = left; coming = C.readings clock.new }) result }
    ensures stays { Stays K.Clerk clerk.old clerk.new }
    ensures clock { C.loan clock.new ≡ C.loan clock.old }
    ensures no_order { result.stop ≢ Some Stop.ReadFault }
    ensures disk_fault { result.stop ≡ Some Stop.DiskFault → Rose (K.faults clerk.old) (K.faults clerk.new) }
    ensures disk { result.stop ≢ Some Stop.DiskFault → K.faults clerk.new ≡ K.faults clerk.old }
{
    loop {
        let now = clock.now();
        let lapsed = clerk.lapse(now);
        if let Some(round) = end_of(lapsed) {
            return round;
        }
    }
}

/// Takes back the certificates whose deadline has come at this time, in seconds since 1970.
pub fn lapse_all<K: Clerk>(clerk: &mut K, now: u64) -> Round
    requires { now ≤ 250000000000 }
    ensures round { IsLapsing (K.seen clerk.old) (K.seen clerk.new) now (K.mine clerk.old) (K.mine clerk.new) result }
    ensures stays { Stays K.Clerk clerk.old clerk.new }
    ensures no_order { result.stop ≢ Some Stop.ReadFault }
    ensures disk_fault { result.stop ≡ Some Stop.DiskFault → Rose (K.faults clerk.old) (K.faults clerk.new) }
    ensures disk { result.stop ≢ Some Stop.DiskFault → K.faults clerk.new ≡ K.faults clerk.old }
{
    loop {
        let lapsed = clerk.lapse(now);
        if let Some(round) = end_of(lapsed) {
            return round;
        }
    }
}
