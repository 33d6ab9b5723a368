//! The last round, once all that was served has ended.
ghost use Rattle.std.specs.Prelude.{◌≡◌, ◌≢◌, ◌⊎◌, ◌++◌, true, None, Some, Err, IfOk};
ghost use Rattle.cmp_ports.specs.Faults.{Rose};
ghost use Rattle.turnstile.specs.Steps.{Rests};
ghost use Rattle.workers.specs.Badges.{IsAtRest};
ghost use Rattle.cmpca_serve.specs.Closings.{IsClosed, IsClosing};

use crate::trouble::{Trouble, take_marks, trouble_in};
use clerk::SharedClerk;
use cmp_ports::{Clock, Disk, Orders};
use desk::{Desk, FaultMarks};
use rounds::{Round, Stop, work_last};
use std::sync::Wait;
use turnstile::{Seat, Turnstile};
use workers::{Account, Upkeep};

/// What is left behind a turnstile once all rounds are made: a seat that holds no turn, and what became of the orders.
#[derive(Drop)]
pub(crate) struct Closing<D: Disk + Drop> {
    pub(crate) seat: Seat<Desk<D>>,
    pub(crate) round: Round,
}

/// Makes the last round, by the seat that counts for all.
fn last_round<D: Disk + Drop, O: Orders, C: Clock, R: Wait>(
    rt: &R,
    stile: &Turnstile<Desk<D>>,
    seat: Seat<Desk<D>>,
    first: Round,
    orders: &mut O,
    clock: &mut C,
    marks: &mut FaultMarks,
) -> Result<Closing<D>, Trouble>
    requires own { seat.table_id ≡ stile.now.table.shared.table_id }
    requires rests { Rests seat.me }
    ensures own { IfOk result (λ c. c.seat.table_id ≡ stile.now.table.shared.table_id) }
    ensures rests { IfOk result (λ c. Rests c.seat.me) }
    ensures closed { IfOk result (λ c. IsClosed seat.me.0 c.seat.me.0 first c.round (O.left orders.old) (O.left orders.new) (C.readings clock.old) (C.readings clock.new)) }
    ensures marks { IfOk result (λ _. marks.new ≡ marks.old) }
    ensures disk { result ≡ Err Trouble.Disk → Rose marks.old marks.new }
    ensures read { first.stop ≡ None → result ≡ Err Trouble.Read → Rose (O.faults orders.old) (O.faults orders.new) }
{
    let mut clerk = SharedClerk::new(rt, stile, seat);
    let last = work_last(&mut clerk, orders, clock);
    let (seat, lost) = clerk.shut();
    if take_marks(marks, lost) {
        return Err(Trouble::Disk);
    }
    let round = first.followed_by(last);
    match round.stop {
        Some(stop) => Err(Trouble::of(stop)),
        None => Ok(Closing { seat, round }),
    }
}

/// Joins all that was done behind a turnstile, by workers and beside them, and makes the last round where none of it failed.
pub(crate) fn close_work<D: Disk + Drop, O: Orders, C: Clock, R: Wait>(
    rt: &R,
    stile: &Turnstile<Desk<D>>,
    account: Account,
    upkeep: Upkeep,
    orders: &mut O,
    clock: &mut C,
    marks: &mut FaultMarks,
) -> Result<Closing<D>, Trouble>
    requires served { IsAtRest stile.now.table.shared.table_id account.badge.table_id account.badge.views }
    requires kept { IsAtRest stile.now.table.shared.table_id upkeep.badge.table_id upkeep.badge.views }
    ensures own { IfOk result (λ c. c.seat.table_id ≡ stile.now.table.shared.table_id) }
    ensures rests { IfOk result (λ c. Rests c.seat.me) }
    ensures closing { IfOk result (λ c. IsClosing account upkeep c.seat.me.0 c.round (O.left orders.old) (O.left orders.new) (C.readings clock.old) (C.readings clock.new)) }
    ensures marks { IfOk result (λ _. marks.new ≡ marks.old) }
    ensures disk { result ≡ Err Trouble.Disk → Rose marks.old marks.new }
    ensures read { result ≡ Err Trouble.Read → ((account.door ≡ true) ⊎ ((account.entropy ≡ true) ⊎ ((upkeep.round.stop ≡ Some Stop.ReadFault) × (orders.new ≡ orders.old)))) ⊎ ((upkeep.round.stop ≡ None) × Rose (O.faults orders.old) (O.faults orders.new)) }
{
    let trouble = trouble_in(&account, upkeep.round.stop);
    let under_workers = take_marks(marks, account.marks);
    if take_marks(marks, upkeep.marks) || under_workers {
        return Err(Trouble::Disk);
    }
    if let Some(trouble) = trouble {
        return Err(trouble);
    }
    let mut seat: Seat<Desk<D>> = account.badge.into_seat();
    stile.join(&mut seat, upkeep.badge.into_seat());
    last_round(rt, stile, seat, upkeep.round, orders, clock, marks)
}
