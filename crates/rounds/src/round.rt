//! How a round ended, and how many orders it took.
ghost use Rattle.std.specs.Prelude.{◌≡◌, IsTrue, ◌↔◌};

/// Why a round stopped before its end.
#[derive(Clone, Copy, Debug, PartialEq, Eq)]
pub enum Stop {
    /// The orders failed.
    ReadFault,
    /// The disk failed.
    DiskFault,
    /// Memory ran out; or more orders were taken than a count of 64 bits holds.
    NoMemory,
}

/// How many orders a round took, and how it ended.
#[derive(Clone, Copy, Debug, PartialEq, Eq)]
pub struct Round {
    /// The orders that released or denied a held request.
    pub done: u64,
    /// The orders that were taken and made no change.
    pub refused: u64,
    /// Why the round stopped before its end; none where it came to its end.
    pub stop: Option<Stop>,
}

impl Round {
    ghost use Rattle.rounds.specs.Rounds.{none_yet, stopped, both, has_room};

    /// The round in which nothing was done.
    pub fn none() -> Round
        ensures { result ≡ none_yet }
    {
        Round {
            done: 0,
            refused: 0,
            stop: None,
        }
    }

    /// The round that stopped before anything was done.
    pub fn stopped(stop: Stop) -> Round
        ensures { result ≡ stopped stop }
    {
        Round {
            done: 0,
            refused: 0,
            stop: Some(stop),
        }
    }

    /// Both rounds as one, which ends as the second does. Where a count is past its last value, it stays there, and the round has
    /// stopped for want of memory.
    pub fn followed_by(self, next: Round) -> Round
        ensures { result ≡ both self next }
    {
        let stop = match next.stop {
            Some(stop) => Some(stop),
            None if self.has_room(next) => None,
            None => Some(Stop::NoMemory),
        };
        Round {
            done: self.done.saturating_add(next.done),
            refused: self.refused.saturating_add(next.refused),
            stop,
        }
    }

    /// Whether the counts of both have room.
    fn has_room(self, next: Round) -> bool
        ensures { result ≡ has_room self next }
    {
        self.done <= u64::MAX - next.done && self.refused <= u64::MAX - next.refused
    }
}
