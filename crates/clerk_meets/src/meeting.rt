ghost use Rattle.std.specs.Prelude.{◌≡◌, None};
ghost use Rattle.turnstile.specs.Steps.{Rests};

use crate::desks::{LISTED, NOW, mounted};
use crate::requests::{Request, checked_of, request_of};
use clerk::SharedClerk;
use cmp_ports::{FailInfo, MemDisk};
use deal_model::Change;
use desk::{Clerk, Desk, Verdict};
use std::alloc::Global;
use std::sync::{Barrier, Wait};
use std::test::Fail;
use std::thread::{Threads, join};
use turnstile::{Seat, Turnstile};

/// A verdict without its receipt.
#[derive(Clone, Copy, PartialEq, Eq)]
pub(crate) enum Told {
    Done { place: u64 },
    Again { place: u64 },
    Refused { fail: FailInfo, guarded: bool },
    Other,
}

pub(crate) fn outcome_of(verdict: Verdict) -> Told {
    match verdict {
        Verdict::Done(receipt) => Told::Done {
            place: receipt.place(),
        },
        Verdict::Again { receipt, .. } => Told::Again {
            place: receipt.place(),
        },
        Verdict::Refused { fail, guarded, .. } => Told::Refused { fail, guarded },
        _ => Told::Other,
    }
}

/// What a clerk told of a request: how many changes stood when it looked, and what it decided.
#[derive(Clone, Copy, PartialEq, Eq)]
pub(crate) struct Heard {
    pub(crate) looked: u64,
    pub(crate) told: Told,
}

// A clerk looks, waits until the other has looked, and then decides. It tells nothing where there was no memory for the request.
fn look_meet_decide<K: Clerk, R: Wait>(
    rt: &R,
    alloc: Global,
    mut clerk: K,
    both: &Barrier,
    request: Request,
) -> (Option<Heard>, K)
    ensures table { K.table result.1 ≡ K.table clerk }
    ensures share { K.share result.1 ≡ K.share clerk }
{
    let Some(checked) = checked_of(alloc, request) else {
        both.wait(rt);
        return (None, clerk);
    };
    let looked = clerk.look(&checked.ask, NOW).place;
    both.wait(rt);
    let told = outcome_of(clerk.decide(&checked, NOW, &[7; 32]));
    (Some(Heard { looked, told }), clerk)
}

/// What two clerks told, and the clerks.
struct Met<K> {
    one: K,
    first: Option<Heard>,
    another: K,
    second: Option<Heard>,
}

// Two clerks on two threads, the second with this request.
fn meet<K: Clerk + Drop + Send, R: Threads + Wait + Sync>(
    rt: &R,
    alloc: Global,
    one: K,
    another: K,
    request: Request,
) -> Met<K>
    ensures one { (K.table result.one ≡ K.table one) × (K.share result.one ≡ K.share one) }
    ensures another { (K.table result.another ≡ K.table another) × (K.share result.another ≡ K.share another) }
{
    let both = Barrier::new(2);
    let both = &both;
    let ((first, one), (second, another)) = join(
        rt,
        move || look_meet_decide(rt, alloc, one, both, Request::One),
        move || look_meet_decide(rt, alloc, another, both, request),
    );
    Met {
        one,
        first,
        another,
        second,
    }
}

// Two clerks with a seat each, which are joined then.
fn meet_at<R: Threads + Wait + Sync>(
    rt: &R,
    alloc: Global,
    stile: &Turnstile<Desk<MemDisk>>,
    mut seat: Seat<Desk<MemDisk>>,
    request: Request,
) -> (Option<Heard>, Option<Heard>, Seat<Desk<MemDisk>>)
    requires own { seat.table_id ≡ stile.now.table.shared.table_id }
    requires rests { Rests seat.me }
    requires two { seat.me.0.share ≡ 2 }
    ensures own { result.2.table_id ≡ seat.table_id }
    ensures rests { Rests result.2.me }
    ensures share { result.2.me.0.share ≡ 2 }
{
    let other = stile.split(&mut seat);
    let one = SharedClerk::new(rt, stile, seat);
    let another = SharedClerk::new(rt, stile, other);
    let Met {
        one,
        first,
        another,
        second,
    } = meet(rt, alloc, one, another, request);
    let (mut seat, _marks) = one.shut();
    let (other, _marks) = another.shut();
    stile.join(&mut seat, other);
    (first, second, seat)
}

// Which request was granted at this place, if one was.
fn granted_at(desk: &Desk<MemDisk>, place: u64) -> Option<Request> {
    if place == 0 || place > desk.length() {
        return None;
    }
    match desk.change_at(place) {
        Change::Grant { stamp, .. } => request_of(&stamp.tid),
        _ => None,
    }
}

/// What two clerks told, and which requests were granted behind the first two changes.
#[derive(Clone, Copy)]
struct Meeting {
    first: Heard,
    second: Heard,
    third_change: Option<Request>,
    fourth_change: Option<Request>,
}

// A meeting at this desk; none where there was no memory.
fn met_at<R: Threads + Wait + Sync>(
    rt: &R,
    alloc: Global,
    desk: Desk<MemDisk>,
    request: Request,
) -> Option<Meeting>
    requires { desk.mark ≡ None }
{
    let Ok((stile, seat)) = Turnstile::new(alloc, desk, 2) else {
        return None;
    };
    let (first, second, seat) = meet_at(rt, alloc, &stile, seat, request);
    let desk = stile.close(seat);
    Some(Meeting {
        first: first?,
        second: second?,
        third_change: granted_at(&desk, 3),
        fourth_change: granted_at(&desk, 4),
    })
}

// Both have looked before either decides. Who comes first makes the Grant, and the other is told of it: there is one certificate.
#[test]
fn one_request_is_granted_by_one_clerk(rt: HostRuntime) -> Result<(), Fail> {
    let desk = mounted(rt.alloc(), LISTED)?;
    let Some(met) = met_at(&rt, rt.alloc(), desk, Request::One) else {
        return Err("no memory")?;
    };
    let done = Heard {
        looked: 2,
        told: Told::Done { place: 3 },
    };
    let again = Heard {
        looked: 2,
        told: Told::Again { place: 3 },
    };
    let told = (met.first, met.second);
    assert!(rt; told == (done, again) || told == (again, done));
    assert!(rt; met.third_change == Some(Request::One));
    assert!(rt; met.fourth_change.is_none());
    Ok(())
}

// Both have looked before either decides. Each makes its own Grant, and both stand in the one history.
#[test]
fn two_requests_are_granted_by_two_clerks(rt: HostRuntime) -> Result<(), Fail> {
    let desk = mounted(rt.alloc(), LISTED)?;
    let Some(met) = met_at(&rt, rt.alloc(), desk, Request::Another) else {
        return Err("no memory")?;
    };
    let earlier = Heard {
        looked: 2,
        told: Told::Done { place: 3 },
    };
    let later = Heard {
        looked: 2,
        told: Told::Done { place: 4 },
    };
    let told = (met.first, met.second);
    let (third, fourth) = if told == (earlier, later) {
        (Request::One, Request::Another)
    } else {
        (Request::Another, Request::One)
    };
    assert!(rt; told == (earlier, later) || told == (later, earlier));
    assert!(rt; met.third_change == Some(third));
    assert!(rt; met.fourth_change == Some(fourth));
    Ok(())
}
