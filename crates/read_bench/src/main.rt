//! Times the reading of messages. With the word `time` and paths of files that hold a message each, it prints a line for
//! each of them: the path, a tab, and the nanoseconds of one reading, the least of some turns. With any other words it
//! prints nothing.
#![tactic(auto)]

ghost use Rattle.std.specs.Prelude.{◌<◌};

use pki_message::read_message;
use std::alloc::Global;
use std::time::{Clock, Instant};
use std::{env, fs, io};

/// How many turns a message has.
const TURNS: u32 = 2000;

/// How many octets are read in a turn, at least.
const OCTETS: usize = 20_000;

/// Copies of a message, one behind the other, so that no two readings in a turn are of the same octets.
fn copies(alloc: Global, message: &[u8]) -> io::Result<Vec<u8>> {
    let mut octets = Vec::new(alloc);
    let count = OCTETS.checked_div(message.len()).unwrap_or(0);
    for _ in 0..=count {
        octets.extend_from_slice(message)?;
    }
    Ok(octets)
}

/// Reads each of the copies, and gives how many they are. `seen` gathers what came out.
fn read_all(octets: &[u8], length: usize, seen: &mut u64) -> io::Result<u64>
    requires { 0 < length }
{
    let mut count = 0u64;
    for message in octets.chunks_exact(length) {
        let Ok(read) = read_message(message) else {
            return Err(io::Error::from(io::ErrorKind::InvalidData));
        };
        *seen = seen.wrapping_add(read.body_bytes.len() as u64);
        count = count.saturating_add(1);
    }
    Ok(count)
}

/// The nanoseconds of one reading of the message, the least of the turns.
fn least<C: Clock>(clock: &C, alloc: Global, message: &[u8], seen: &mut u64) -> io::Result<u128> {
    if message.is_empty() {
        return Err(io::Error::from(io::ErrorKind::InvalidData));
    }
    let octets = copies(alloc, message)?;
    let mut least = u128::MAX;
    for _ in 0..TURNS {
        let start = Instant::now(clock)?;
        let count = read_all(octets.as_slice(), message.len(), seen)?;
        let nanos = start.elapsed(clock)?.as_nanos();
        least = least.min(nanos / u128::from(count.max(1)));
    }
    Ok(least)
}

fn main(rt: HostRuntime) -> io::Result<()> {
    let mut words = env::args(&rt)?.skip(1);
    if words.next().as_deref() != Some("time") {
        return Ok(());
    }
    let mut seen = 0;
    for path in words {
        let message = fs::read(&rt, path.as_str())?;
        let nanos = least(&rt, rt.alloc(), message.as_slice(), &mut seen)?;
        println!(rt; "{path}\t{nanos}")?;
    }
    println!(rt; "seen {seen}")?;
    Ok(())
}
