//! The clock of the system. What it reads is not told.
ghost use Rattle.std.specs.Prelude.{None};

use crate::clock::Clock;
use crate::list_clock::LATEST;
use std::rt;

/// The clock of this runtime. A time that the system can't tell reads 0, as one before 1970 does.
#[derive(Drop)]
pub struct SysClock<R: rt::Clock + Drop> {
    clock: R,
}

impl<R: rt::Clock + Drop> SysClock<R> {
    /// The runtime's clock.
    pub fn new(clock: R) -> SysClock<R> {
        SysClock { clock }
    }
}

impl<R: rt::Clock + Drop> Clock for SysClock<R> {
    ghost readings = { λ _. None };

    ghost loan = { λ _. 0 };

    fn now(&mut self) -> u64 {
        match self.clock.since_1970() {
            Ok(time) => time.as_secs().min(LATEST),
            Err(_) => 0,
        }
    }
}
