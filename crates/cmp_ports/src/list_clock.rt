//! A clock in memory.
ghost use Rattle.std.specs.Prelude.{◌≡◌, ◌≤◌, Some, vec_len};

use crate::clock::Clock;

// The last second that a clock reads.
pub const LATEST: u64 = 250_000_000_000;

/// A clock that reads the times of a list. Where the list is used up it repeats its last reading, and an empty one
/// reads 0.
#[derive(Drop)]
pub struct ListClock {
    times: Vec<u64>,
    at: usize,
    last: u64,
    ghost within: { at ≤ vec_len times },
    ghost bound: { last ≤ 250000000000 },
}

impl ListClock {
    ghost use Rattle.cmp_ports.specs.Lists.{readings_of};
    ghost use Rattle.cmp_ports.specs.Coming.{reading};

    /// A clock that reads these times, in seconds since 1970.
    pub fn new(times: Vec<u64>) -> ListClock
        ensures { readings_of result ≡ reading 0 times.items }
    {
        ListClock {
            times,
            at: 0,
            last: 0,
        }
    }
}

impl Clock for ListClock {
    ghost use Rattle.cmp_ports.specs.Lists.{readings_of};

    ghost readings = { λ c. Some (readings_of c) };

    ghost loan = { λ _. 0 };

    fn now(&mut self) -> u64 {
        if self.at < self.times.len() {
            self.last = self.times[self.at].min(LATEST);
            self.at += 1;
        }
        self.last
    }
}
