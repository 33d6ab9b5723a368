//! All that is done behind a turnstile.
ghost use Rattle.std.specs.Prelude.{◌≡◌, ◌≢◌, ◌⊎◌, ◌+◌, ◌≤◌, [], length, Err, IfOk};
ghost use Rattle.cmp_ports.specs.Faults.{Rose};
ghost use Rattle.deal_model.specs.Views.{settings_of};
ghost use Rattle.deal_table.specs.History.{IsFounded};
ghost use Rattle.front.specs.Fronts.{replier_by};
ghost use Rattle.turnstile.specs.Steps.{Rests};
ghost use Rattle.workers.specs.Stations.{AnyPair};
ghost use Rattle.cmpca_serve.specs.Serving.{IsServedBehind};

use crate::beside::{Keeping, attend_and_keep_up};
use crate::closing::{Closing, close_work};
use crate::trouble::Trouble;
use crate::words::ServePlan;
use cmp_links::Door;
use cmp_ports::{Clock, Disk, Entropy, Gate, Orders};
use deal_table::what_is_made_is_allowed;
use desk::{Desk, FaultMarks};
use reply_maker::Keys;
use std::alloc::Global;
use std::sync::Wait;
use std::sync::atomic::AtomicU64;
use std::thread::Threads;
use turnstile::{Seat, Turnstile};
use workers::{Station, Workers};

/// Works behind a turnstile by a seat that counts for each worker and for one more: the workers serve at their stations, beside them
/// orders are taken and what is due is taken back, and in the end the last round is made.
pub(crate) fn work_behind<
    D: Disk + Send + Drop,
    S: Door + Send,
    C: Clock + Send,
    E: Entropy + Send,
    G: Gate + Send,
    O: Orders + Send,
    R: Threads + Wait + Sync,
>(
    alloc: Global,
    rt: &R,
    plan: ServePlan,
    keys: &Keys,
    stile: &Turnstile<Desk<D>>,
    seat: Seat<Desk<D>>,
    stations: &mut [Station<S, C, E, G>],
    orders: &mut O,
    clock: &mut C,
    gate: &mut G,
    marks: &mut FaultMarks,
) -> Result<Closing<D>, Trouble>
where
    S::Joined: Send,
    requires own { seat.table_id ≡ stile.now.table.shared.table_id }
    requires rests { Rests seat.me }
    requires unused { seat.me.0.mine ≡ [] }
    requires founded { IsFounded seat.me.0.seen }
    requires settings { settings_of seat.me.0.seen ≡ keys.now.settings }
    requires some { 1 ≤ plan.workers }
    requires stations { length stations.old ≡ plan.workers }
    requires share { seat.me.0.share ≡ plan.workers + 1 }
    ensures own { IfOk result (λ c. c.seat.table_id ≡ stile.now.table.shared.table_id) }
    ensures rests { IfOk result (λ c. Rests c.seat.me) }
    ensures share { IfOk result (λ c. c.seat.me.0.share ≡ plan.workers + 1) }
    ensures served { IfOk result (λ c. IsServedBehind S.Joined.Link S.Door C.Clock E.Entropy (replier_by keys.now) seat.me.0.seen c.seat.me.0 c.round plan stations.old stations.new (O.left orders.old) (O.left orders.new) (C.readings clock.old) (C.readings clock.new)) }
    ensures marks { IfOk result (λ _. marks.new ≡ marks.old) }
    ensures disk { result ≡ Err Trouble.Disk → Rose marks.old marks.new }
    ensures read { result ≡ Err Trouble.Read → Rose (O.faults orders.old) (O.faults orders.new) ⊎ (AnyPair (λ s t. Rose (S.faults s.door) (S.faults t.door)) stations.old stations.new ⊎ AnyPair (λ s t. Rose (E.faults s.entropy) (E.faults t.entropy)) stations.old stations.new) }
{
    what_is_made_is_allowed();
    let mut rest = seat;
    let own = stile.split(&mut rest);
    let mut own = own.into_badge();
    let mut badge = rest.into_badge();
    let left = AtomicU64::new(u64::from(plan.workers));
    let workers = Workers::new(alloc, rt, keys, stile, plan.connections, &left);
    let keeping = Keeping::new(rt, stile, &left);
    let (upkeep, account) = attend_and_keep_up(
        rt, &workers, &mut badge, stations, &keeping, &mut own, orders, clock, gate,
    );
    close_work(rt, stile, account, upkeep, orders, clock, marks)
}
