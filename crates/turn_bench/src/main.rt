//! Turns through a turnstile, at 1, 2, 4 and 8 seats, beside a plain mutex.
//!
//! With no word it takes a thousand turns a seat, and says how many were counted. With a number of turns a seat it measures.
#![tactic(auto)]

mod counter;
mod locked;
mod turns;

use counter::Counter;
use std::alloc::Global;
use std::sync::{Mutex, Wait};
use std::thread::Threads;
use std::time::{Clock, Instant};
use std::{env, io};
use turnstile::Turnstile;

// The turns a seat when nothing is measured.
const FEW: u64 = 1000;

// How long the turns took, in microseconds, and how many were counted.
#[derive(Clone, Copy)]
struct Run {
    micros: u64,
    count: u64,
}

fn micros_since<R: Clock>(rt: &R, start: &Instant) -> io::Result<u64> {
    let micros = start.elapsed(rt)?.as_micros();
    Ok(u64::try_from(micros).unwrap_or(u64::MAX))
}

fn through_turnstile<R: Threads + Wait + Sync + Clock>(
    rt: &R,
    alloc: Global,
    seats: u32,
    turns: u64,
) -> io::Result<Run> {
    if seats == 0 {
        return Ok(Run {
            micros: 0,
            count: 0,
        });
    }
    let Ok((stile, seat)) = Turnstile::new(alloc, Counter::new(), seats) else {
        return Err(io::Error::from(io::ErrorKind::OutOfMemory));
    };
    let start = Instant::now(rt)?;
    let seat = turns::take_all(rt, &stile, seat, seats, turns);
    let micros = micros_since(rt, &start)?;
    let counter = stile.close(seat);
    Ok(Run {
        micros,
        count: counter.turns,
    })
}

fn through_mutex<R: Threads + Wait + Sync + Clock>(
    rt: &R,
    seats: u32,
    turns: u64,
) -> io::Result<Run> {
    let lock = Mutex::new(Counter::new());
    let start = Instant::now(rt)?;
    locked::take_all(rt, &lock, seats, turns);
    let micros = micros_since(rt, &start)?;
    Ok(Run {
        micros,
        count: lock.into_inner().turns,
    })
}

// Turns a second, 0 where it took no time that the clock shows.
fn rate(run: &Run) -> u64 {
    let turns = u128::from(run.count) * 1_000_000;
    let rate = turns.checked_div(u128::from(run.micros)).unwrap_or(0);
    u64::try_from(rate).unwrap_or(u64::MAX)
}

fn main(rt: HostRuntime) -> io::Result<()> {
    let asked = env::args(&rt)?.nth(1);
    let measured = asked.and_then(|word| word.as_str().parse::<u64>().ok());
    let turns = measured.unwrap_or(FEW);
    for seats in [1, 2, 4, 8] {
        let ours = through_turnstile(&rt, rt.alloc(), seats, turns)?;
        let plain = through_mutex(&rt, seats, turns)?;
        let (counted, locked) = (ours.count, plain.count);
        if measured.is_none() {
            println!(rt;
                "{seats} seats: {counted} turns through the turnstile, {locked} through the mutex"
            )?;
            continue;
        }
        let (rate, plain_rate) = (rate(&ours), rate(&plain));
        let percent = u128::from(rate) * 100;
        let percent = percent.checked_div(u128::from(plain_rate)).unwrap_or(0);
        println!(rt;
            "{seats} seats: {rate} turns a second, mutex {plain_rate}, ratio {percent} %"
        )?;
    }
    Ok(())
}
