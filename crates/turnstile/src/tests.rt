// A toy history: a list of numbers that only grows.
ghost use Rattle.std.specs.Prelude.{◌≡◌, length};
ghost use Rattle.turnstile.specs.Lists.{Extends};
ghost use Rattle.turnstile.specs.Steps.{Rests};

use crate::{Chronicle, Seat, Turnstile};
use std::alloc::Global;
use std::sync::Wait;
use std::test::Fail;
use std::thread::{Threads, join};

#[derive(Drop)]
struct Tally {
    entries: Vec<u64>,
}

impl Chronicle for Tally {
    type Entry = u64;

    ghost history = { λ t. t.entries.items };

    ghost kept = { λ _. Unit {0} };

    fn length(&self) -> u64 {
        self.entries.len() as u64
    }
}

impl Tally {
    fn new(alloc: Global) -> Tally {
        Tally {
            entries: Vec::new(alloc),
        }
    }

    // Whether there was memory.
    fn add(&mut self, entry: u64) -> bool
        ensures { Extends self.old.entries.items self.new.entries.items }
    {
        self.entries.push(entry).is_ok()
    }
}

// One turn, in which the seat adds the number. Whether there was memory.
fn add<R: Wait>(rt: &R, stile: &Turnstile<Tally>, seat: &mut Seat<Tally>, entry: u64) -> bool
    requires own { seat.old.table_id ≡ stile.now.table.shared.table_id }
    requires rests { Rests seat.old.me }
    ensures own { seat.new.table_id ≡ seat.old.table_id }
    ensures rests { Rests seat.new.me }
    ensures share { seat.new.me.0.share ≡ seat.old.me.0.share }
{
    let mut tally = stile.enter(rt, seat);
    let is_added = tally.add(entry);
    stile.leave(seat, tally);
    is_added
}

// So many turns.
fn add_all<R: Wait>(
    rt: &R,
    stile: &Turnstile<Tally>,
    mut seat: Seat<Tally>,
    count: u64,
) -> Seat<Tally>
    requires own { seat.table_id ≡ stile.now.table.shared.table_id }
    requires rests { Rests seat.me }
    ensures own { result.table_id ≡ seat.table_id }
    ensures rests { Rests result.me }
    ensures share { result.me.0.share ≡ seat.me.0.share }
{
    for entry in 0..count {
        let _is_added = add(rt, stile, &mut seat, entry);
    }
    seat
}

// Two threads at once, each with its seat.
fn add_by_two<R: Threads + Wait + Sync>(
    rt: &R,
    stile: &Turnstile<Tally>,
    mut first: Seat<Tally>,
    count: u64,
) -> Seat<Tally>
    requires own { first.table_id ≡ stile.now.table.shared.table_id }
    requires rests { Rests first.me }
    requires two { first.me.0.share ≡ 2 }
    ensures own { result.table_id ≡ first.table_id }
    ensures rests { Rests result.me }
    ensures share { result.me.0.share ≡ 2 }
{
    let second = stile.split(&mut first);
    let (mut first, second) = join(
        rt,
        move || add_all(rt, stile, first, count),
        move || add_all(rt, stile, second, count),
    );
    stile.join(&mut first, second);
    first
}

#[test]
fn one_seat_gets_its_value_back(rt: HostRuntime) -> Result<(), Fail> {
    let mut tally = Tally::new(rt.alloc());
    assert!(rt; tally.add(7));
    let (stile, mut seat) = Turnstile::new(rt.alloc(), tally, 1)?;
    let tally = stile.enter(&rt, &mut seat);
    stile.leave(&mut seat, tally);
    let tally = stile.close(seat);
    assert!(rt; tally.entries.as_slice() == [7].as_slice());
    Ok(())
}

#[test]
fn two_seats_add_to_one_history(rt: HostRuntime) -> Result<(), Fail> {
    let (stile, mut first) = Turnstile::new(rt.alloc(), Tally::new(rt.alloc()), 2)?;
    let mut second = stile.split(&mut first);
    assert!(rt; add(&rt, &stile, &mut first, 1));
    assert!(rt; add(&rt, &stile, &mut second, 2));
    assert!(rt; add(&rt, &stile, &mut first, 3));
    stile.join(&mut first, second);
    let tally = stile.close(first);
    assert!(rt; tally.entries.as_slice() == [1, 2, 3].as_slice());
    Ok(())
}

#[test]
fn two_threads_add_a_hundred_each(rt: HostRuntime) -> Result<(), Fail> {
    let (stile, seat) = Turnstile::new(rt.alloc(), Tally::new(rt.alloc()), 2)?;
    let seat = add_by_two(&rt, &stile, seat, 100);
    let tally = stile.close(seat);
    assert!(rt; tally.length() == 200);
    Ok(())
}
