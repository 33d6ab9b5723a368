//! What went amiss as streams were served.
ghost use Rattle.std.specs.Prelude.{◌≡◌};
ghost use Rattle.workers.specs.Tallies.{both, nothing};

/// What a front met at a door.
#[derive(Clone, Copy, Debug, PartialEq, Eq)]
pub struct Tally {
    /// Whether the door failed, so that streams are missing.
    pub door: bool,
    /// Whether memory ran out in a session.
    pub memory: bool,
    /// How many answers told that the service failed. It stays at the greatest u64.
    pub failures: u64,
}

impl Tally {
    /// Nothing went amiss.
    pub(crate) fn nothing() -> Tally
        ensures { result ≡ nothing }
    {
        Tally {
            door: false,
            memory: false,
            failures: 0,
        }
    }

    /// What was met before and then.
    pub(crate) fn followed_by(self, next: Tally) -> Tally
        ensures { result ≡ both self next }
    {
        Tally {
            door: self.door || next.door,
            memory: self.memory || next.memory,
            failures: self.failures.saturating_add(next.failures),
        }
    }
}
