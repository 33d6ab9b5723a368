//! Which calls of an object in memory fail.
ghost use Rattle.std.specs.Prelude.{◌≡◌, ◌↔◌, ◌≤◌, [], IsErr, IsTrue};
ghost use Rattle.cmp_ports.specs.Faults.{CountedOnce, HasCause, Rose};
ghost use Rattle.cmp_ports.specs.Schedule.{is_due, is_among, listed_of, counted};

use crate::faults::Failed;

/// The numbers of the calls that are to fail, counted from 1, with the calls and the faults so far. Both counts stay
/// at the greatest u64.
#[derive(Drop)]
pub struct Schedule {
    fails: Option<Vec<u64>>,
    calls: u64,
    faults: u64,
}

impl Schedule {
    /// No call fails.
    pub fn none() -> Schedule
        ensures fails { listed_of result ≡ [] }
        ensures calls { result.calls ≡ 0 }
        ensures faults { result.faults ≡ 0 }
    {
        Schedule {
            fails: None,
            calls: 0,
            faults: 0,
        }
    }

    /// The calls with these numbers fail.
    pub fn of(fails: Vec<u64>) -> Schedule
        ensures fails { listed_of result ≡ fails.items }
        ensures calls { result.calls ≡ 0 }
        ensures faults { result.faults ≡ 0 }
    {
        Schedule {
            fails: Some(fails),
            calls: 0,
            faults: 0,
        }
    }

    /// Counts a call, which fails exactly where its number is listed.
    pub fn call(&mut self) -> Result<(), Failed>
        ensures due { IsErr result ↔ IsTrue (is_due self.old) }
        ensures cause { HasCause self.old.faults self.new.faults result }
        ensures once { CountedOnce self.old.faults self.new.faults result }
        ensures calls { self.new.calls ≡ counted self.old.calls }
        ensures fails { listed_of self.new ≡ listed_of self.old }
    {
        let number = self.calls.saturating_add(1);
        self.calls = number;
        if self.lists(number) {
            return Err(self.fault());
        }
        Ok(())
    }

    /// Whether the call with this number is one that fails.
    fn lists(&self, number: u64) -> bool
        ensures { result ≡ is_among (listed_of self.now) number }
    {
        match &self.fails {
            Some(fails) => fails.contains(&number),
            None => false,
        }
    }

    /// Counts a fault.
    pub fn fault(&mut self) -> Failed
        ensures once { self.new.faults ≡ counted self.old.faults }
        ensures rose { Rose self.old.faults self.new.faults }
        ensures later { self.old.faults ≤ self.new.faults }
        ensures calls { self.new.calls ≡ self.old.calls }
        ensures fails { listed_of self.new ≡ listed_of self.old }
    {
        self.faults = self.faults.saturating_add(1);
        Failed
    }

    /// How many calls failed.
    pub fn faults(&self) -> u64
        ensures { result ≡ self.now.faults }
    {
        self.faults
    }
}
