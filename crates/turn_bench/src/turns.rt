//! Turns through a turnstile.
ghost use Rattle.std.specs.Prelude.{◌≡◌, ◌<◌};
ghost use Rattle.turnstile.specs.Steps.{Rests};
ghost use denote.Param.Send.{IsSync};

use crate::counter::Counter;
use std::sync::Wait;
use std::thread::{Threads, join};
use turnstile::{Seat, Turnstile};

// So many turns of one seat.
fn take<R: Wait>(
    rt: &R,
    stile: &Turnstile<Counter>,
    mut seat: Seat<Counter>,
    turns: u64,
) -> Seat<Counter>
    requires own { seat.table_id ≡ stile.now.table.shared.table_id }
    requires rests { Rests seat.me }
    ensures own { result.table_id ≡ seat.table_id }
    ensures rests { Rests result.me }
    ensures share { result.me.0.share ≡ seat.me.0.share }
{
    for turn in 0..turns {
        let mut counter = stile.enter(rt, &mut seat);
        counter.add();
        stile.leave(&mut seat, counter);
    }
    seat
}

/// So many turns of each of as many threads as the seat counts for.
pub fn take_all<R: Threads + Wait + Sync>(
    rt: &R,
    stile: &Turnstile<Counter>,
    mut seat: Seat<Counter>,
    threads: u32,
    turns: u64,
) -> Seat<Counter>
    requires own { seat.table_id ≡ stile.now.table.shared.table_id }
    requires rests { Rests seat.me }
    requires threads { seat.me.0.share ≡ threads }
    ensures own { result.table_id ≡ seat.table_id }
    ensures rests { Rests result.me }
    ensures share { result.me.0.share ≡ threads }
{
    if threads <= 1 {
        return take(rt, stile, seat, turns);
    }
    let one = stile.split(&mut seat);
    let rest = threads - 1;
    let (one, mut seat) = join(
        rt,
        move || -> Seat<Counter>
            requires { (one.table_id ≡ stile.now.table.shared.table_id) × Rests one.me × (one.me.0.share ≡ 1) }
            ensures { (result.table_id ≡ one.table_id) × Rests result.me × (result.me.0.share ≡ 1) }
        { take(rt, stile, one, turns) },
        move || -> Seat<Counter>
            requires { IsSync R.row × (seat.table_id ≡ stile.now.table.shared.table_id) × Rests seat.me × (seat.me.0.share ≡ rest) }
            ensures { (result.table_id ≡ seat.table_id) × Rests result.me × (result.me.0.share ≡ rest) }
        { take_all(rt, stile, seat, rest, turns) },
    );
    stile.join(&mut seat, one);
    seat
}
