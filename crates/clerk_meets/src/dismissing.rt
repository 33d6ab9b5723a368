ghost use Rattle.std.specs.Prelude.{◌≡◌, None};
ghost use Rattle.deal_table.specs.Carry.{FitsChecked};
ghost use Rattle.turnstile.specs.Lists.{Extends};
ghost use Rattle.turnstile.specs.Steps.{Rests};
ghost use Rattle.desk.specs.History.{history_of};

use crate::desks::{LISTED, NOW, mounted};
use crate::meeting::{Heard, Told, outcome_of};
use crate::requests::{Request, checked_of};
use clerk::SharedClerk;
use cmp_ports::{FailInfo, MemDisk, Short};
use deal_model::{Checked, Kind};
use desk::{Clerk, Desk, Listing};
use std::alloc::Global;
use std::sync::Wait;
use std::test::Fail;
use turnstile::{Seat, Turnstile};

// Dismisses a reference, and tells whether that made a change.
fn dismiss(desk: &mut Desk<MemDisk>, kid: &Short) -> bool
    ensures grown { Extends (history_of desk.old) (history_of desk.new) }
    ensures mark { desk.new.mark ≡ desk.old.mark }
{
    match desk.dismiss(Kind::Mac, kid, NOW) {
        Listing::Done { .. } => true,
        _ => false,
    }
}

// The same in a turn of a seat.
fn dismiss_in_turn<R: Wait>(
    rt: &R,
    stile: &Turnstile<Desk<MemDisk>>,
    mut seat: Seat<Desk<MemDisk>>,
    kid: &Short,
) -> (bool, Seat<Desk<MemDisk>>)
    requires own { seat.table_id ≡ stile.now.table.shared.table_id }
    requires rests { Rests seat.me }
    ensures own { result.1.table_id ≡ seat.table_id }
    ensures rests { Rests result.1.me }
    ensures share { result.1.me.0.share ≡ seat.me.0.share }
{
    let mut desk = stile.enter(rt, &mut seat);
    let is_dismissed = dismiss(&mut desk, kid);
    stile.leave(&mut seat, desk);
    (is_dismissed, seat)
}

// A clerk looks, its sender is dismissed by another seat, and then it decides.
fn decided_after_dismissal<R: Wait>(
    rt: &R,
    stile: &Turnstile<Desk<MemDisk>>,
    mut seat: Seat<Desk<MemDisk>>,
    checked: &Checked<'_>,
) -> (Heard, bool, Seat<Desk<MemDisk>>)
    requires own { seat.table_id ≡ stile.now.table.shared.table_id }
    requires rests { Rests seat.me }
    requires two { seat.me.0.share ≡ 2 }
    requires fits { FitsChecked checked.now }
    ensures own { result.2.table_id ≡ seat.table_id }
    ensures rests { Rests result.2.me }
    ensures share { result.2.me.0.share ≡ 2 }
{
    let other = stile.split(&mut seat);
    let mut clerk = SharedClerk::new(rt, stile, seat);
    let looked = clerk.look(&checked.ask, NOW).place;
    let (is_dismissed, other) = dismiss_in_turn(rt, stile, other, &checked.ask.kid);
    let told = outcome_of(clerk.decide(checked, NOW, &[7; 32]));
    let (mut seat, _marks) = clerk.shut();
    stile.join(&mut seat, other);
    (Heard { looked, told }, is_dismissed, seat)
}

// What a clerk tells of the request of a sender who is dismissed after its look, and how many changes stand then.
fn told_after_dismissal<R: Wait>(
    rt: &R,
    alloc: Global,
    desk: Desk<MemDisk>,
) -> Option<(Heard, bool, u64)>
    requires { desk.mark ≡ None }
{
    let Some(checked) = checked_of(alloc, Request::One) else {
        return None;
    };
    let Ok((stile, seat)) = Turnstile::new(alloc, desk, 2) else {
        return None;
    };
    let (heard, is_dismissed, seat) = decided_after_dismissal(rt, &stile, seat, &checked);
    let desk = stile.close(seat);
    Some((heard, is_dismissed, desk.length()))
}

// The look saw two changes. Nothing protects a refusal to one who is dismissed, and it adds no change.
#[test]
fn who_is_dismissed_after_the_look_is_refused(rt: HostRuntime) -> Result<(), Fail> {
    let desk = mounted(rt.alloc(), LISTED)?;
    let refused = Heard {
        looked: 2,
        told: Told::Refused {
            fail: FailInfo::NotAuthorized,
            guarded: false,
        },
    };
    let told = told_after_dismissal(&rt, rt.alloc(), desk);
    assert!(rt; told == Some((refused, true, 3)));
    Ok(())
}
