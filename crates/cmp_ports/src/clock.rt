//! The time of day.
ghost use Rattle.std.specs.Prelude.{◌≡◌, ℕ, Option, Some, ◌≤◌};
ghost use Rattle.cmp_ports.specs.Coming.{Gives, latest};

/// A clock. It may go back, and it never fails.
pub trait Clock {
    // The readings to come, by their number from 0 on, where the object tells them.
    ghost readings: { Self → Option (ℕ → ℕ) };

    // The loan by which a lent clock is held, by its number; that of a clock that is owned stays the same number.
    ghost loan: { Self → ℕ };

    /// Seconds since 1970. A time before 1970 reads 0, and one above 250,000,000,000 reads that number.
    fn now(&mut self) -> u64
        ensures bound { result ≤ latest }
        ensures reads { Gives (readings self.old) (readings self.new) result }
        ensures loan { loan self.new ≡ loan self.old };
}

/// A clock that is lent.
impl<C: Clock> Clock for &mut C {
    ghost readings = { λ c. C.readings c.now };

    ghost loan = { λ c. c.ghost_name };

    fn now(&mut self) -> u64 {
        (**self).now()
    }
}
