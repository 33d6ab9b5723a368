//! What the turns change: a number, which counts them.
ghost use Rattle.std.specs.Prelude.{◌≡◌, length};
ghost use Rattle.turn_bench.specs.Entries.{entries};
ghost use Rattle.turnstile.specs.Lists.{Extends};

use turnstile::Chronicle;

/// How many turns were taken. Its history has an entry, 0, for each turn.
#[derive(Drop)]
pub struct Counter {
    pub turns: u64,
}

impl Chronicle for Counter {
    type Entry = u64;

    ghost history = { λ c. entries c.turns };

    ghost kept = { λ _. Unit {0} };

    fn length(&self) -> u64 {
        self.turns
    }
}

impl Counter {
    pub fn new() -> Counter {
        Counter { turns: 0 }
    }

    /// One turn more, but at the end of the numbers.
    #[tactic(auto, using(crate::proofs::EntryLemmas::one_more_turn, crate::proofs::EntryLemmas::no_turn))]
    pub fn add(&mut self)
        ensures { Extends (entries self.old.turns) (entries self.new.turns) }
    {
        if self.turns < u64::MAX {
            self.turns += 1;
        }
    }
}
