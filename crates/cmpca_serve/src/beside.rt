//! Workers at their stations, and beside them one that takes orders and takes back what is due.
ghost use Rattle.std.specs.Prelude.{◌≡◌, ◌≢◌, ◌<◌, length};
ghost use Rattle.std.specs.Thread.{IsSync, IsSend};

use atomic_table::Badge;
use cmp_ports::{Clock, Disk, Gate, Orders};
use deal_model::Change;
use desk::Desk;
use std::sync::Wait;
use std::sync::atomic::AtomicU64;
use std::thread::{Threads, join_mut};
use turnstile::Turnstile;
use turnstile::view::View;
use workers::{Crew, Upkeep, keep_up_by, work_all};

/// Who keeps up by a badge `B` with orders `O` and with what is due by a clock `C`, passes a gate `G` meanwhile, and leaves `U`.
pub trait Keeper<B, O, C, G, U> {
    /// The badge is good at this keeper's place.
    ghost good: { Self → B → Type 0 };

    /// By this badge the orders and the clock became those, and this was left.
    ghost keeps: { Self → B → O → O → C → C → U → Type 0 };

    /// Keeps up until no worker is left. What is left in the place of the badge is none.
    fn keep_up(&self, badge: &mut B, orders: &mut O, clock: &mut C, gate: &mut G) -> U
        requires { good self.now badge.old }
        ensures { keeps self.now badge.old orders.old orders.new clock.old clock.new result };
}

/// Keeps up at a turnstile, while workers are left.
#[derive(Drop)]
pub struct Keeping<'a, D: Disk + Drop, R> {
    rt: &'a R,
    stile: &'a Turnstile<Desk<D>>,
    left: &'a AtomicU64,
}

impl<'a, D: Disk + Drop, R> Keeping<'a, D, R> {
    /// At this turnstile, while this count of workers isn't 0.
    pub fn new(rt: &'a R, stile: &'a Turnstile<Desk<D>>, left: &'a AtomicU64) -> Keeping<'a, D, R>
        ensures { result.stile.now ≡ stile.now }
    {
        Keeping { rt, stile, left }
    }
}

impl<'a, D: Disk + Drop, O: Orders, C: Clock, G: Gate, R: Wait> Keeper<
    Badge<View<Change>>,
    O,
    C,
    G,
    Upkeep,
> for Keeping<'a, D, R> {
    ghost use Rattle.std.specs.Prelude.{◌≡◌, ◌≢◌, Some};
    ghost use Rattle.cmp_ports.specs.Faults.{Rose};
    ghost use Rattle.rounds.specs.declared.round.Stop.TheVariants.{ReadFault};
    ghost use Rattle.workers.specs.Badges.{IsAtRest};
    ghost use Rattle.workers.specs.Upkeeps.{IsKeptUp};

    ghost good = { λ k b. IsAtRest k.stile.now.table.shared.table_id b.table_id b.views };

    ghost keeps = { λ k b orders orders' clock clock' u. IsKeptUp k.stile.now.table.shared.table_id b.views (O.left orders) (O.left orders') (C.readings clock) (C.readings clock') u × (u.round.stop ≡ Some ReadFault → Rose (O.faults orders) (O.faults orders')) × (u.round.stop ≢ Some ReadFault → O.faults orders' ≡ O.faults orders) };

    fn keep_up(
        &self,
        badge: &mut Badge<View<Change>>,
        orders: &mut O,
        clock: &mut C,
        gate: &mut G,
    ) -> Upkeep {
        keep_up_by(self.rt, self.stile, self.left, badge, orders, clock, gate)
    }
}

/// Works at the stations by one badge, and keeps up beside that by the other, in threads. The keeper is the first of the two: where no
/// thread can be made the first is called last, and it goes round until no worker is left.
pub(crate) fn attend_and_keep_up<
    B: Send + Drop,
    S: Send,
    A: Send,
    W: Crew<B, S, A> + Sync,
    O: Send,
    C: Send,
    G: Send,
    U: Send,
    K: Keeper<B, O, C, G, U> + Sync,
    R: Threads + Sync,
>(
    rt: &R,
    crew: &W,
    badge: &mut B,
    stations: &mut [S],
    keeper: &K,
    own: &mut B,
    orders: &mut O,
    clock: &mut C,
    gate: &mut G,
) -> (U, A)
    requires some { 0 < length stations.old }
    requires badge { W.good crew.now badge.old × (W.share crew.now badge.old ≡ (length stations.old)) }
    requires own { K.good keeper.now own.old }
    ensures accounts { W.accounts crew.now badge.old stations.old stations.new result.1 }
    ensures keeps { K.keeps keeper.now own.old orders.old orders.new clock.old clock.new result.0 }
{
    let mut beside = || -> U
        requires { K.good keeper.now own.now }
        ensures { K.keeps keeper.entry.now own.entry.now orders.entry.now orders.exit.now clock.entry.now clock.exit.now result }
    { keeper.keep_up(own, orders, clock, gate) };
    let mut at_stations = || -> A
        requires { IsSync R.row × IsSync W.row × IsSend B.row × IsSend S.row × IsSend A.row × (0 < length stations.now) × W.good crew.now badge.now × (W.share crew.now badge.now ≡ (length stations.now)) }
        ensures { W.accounts crew.entry.now badge.entry.now stations.entry.now stations.exit.now result }
    { work_all(rt, crew, badge, stations) };
    join_mut(rt, &mut beside, &mut at_stations)
}
