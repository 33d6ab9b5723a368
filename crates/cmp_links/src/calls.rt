//! Which calls of a link or a door in memory fail.
ghost use Rattle.std.specs.Prelude.{◌≡◌, ◌↔◌, ◌≤◌, [], IsErr, IsTrue};
ghost use Rattle.cmp_ports.specs.Faults.{CountedOnce, HasCause, Rose, counted};
ghost use Rattle.cmp_ports.specs.Schedule.{is_among};
ghost use Rattle.cmp_links.specs.Calls.{is_due, listed_of};

use cmp_ports::Failed;

/// The numbers of the calls that are to fail, counted from 1, with the calls and the faults so far. Both counts stay
/// at the greatest u64.
#[derive(Drop)]
pub struct Calls {
    fails: Option<Vec<u64>>,
    made: u64,
    faults: u64,
}

impl Calls {
    /// No call fails.
    pub fn none() -> Calls
        ensures fails { listed_of result ≡ [] }
        ensures made { result.made ≡ 0 }
        ensures faults { result.faults ≡ 0 }
    {
        Calls {
            fails: None,
            made: 0,
            faults: 0,
        }
    }

    /// The calls with these numbers fail.
    pub fn of(fails: Vec<u64>) -> Calls
        ensures fails { listed_of result ≡ fails.items }
        ensures made { result.made ≡ 0 }
        ensures faults { result.faults ≡ 0 }
    {
        Calls {
            fails: Some(fails),
            made: 0,
            faults: 0,
        }
    }

    /// Counts a call, which fails exactly where its number is listed.
    pub fn call(&mut self) -> Result<(), Failed>
        ensures due { IsErr result ↔ IsTrue (is_due self.old) }
        ensures cause { HasCause self.old.faults self.new.faults result }
        ensures once { CountedOnce self.old.faults self.new.faults result }
        ensures made { self.new.made ≡ counted self.old.made }
        ensures fails { listed_of self.new ≡ listed_of self.old }
    {
        let number = self.made.saturating_add(1);
        self.made = number;
        if self.lists(number) {
            return Err(self.fault());
        }
        Ok(())
    }

    /// Whether the call with this number is one that fails.
    fn lists(&self, number: u64) -> bool
        ensures { result ≡ is_among (listed_of self.now) number }
    {
        match &self.fails {
            Some(fails) => fails.contains(&number),
            None => false,
        }
    }

    /// Counts a fault.
    pub fn fault(&mut self) -> Failed
        ensures once { self.new.faults ≡ counted self.old.faults }
        ensures rose { Rose self.old.faults self.new.faults }
        ensures later { self.old.faults ≤ self.new.faults }
        ensures made { self.new.made ≡ self.old.made }
        ensures fails { listed_of self.new ≡ listed_of self.old }
    {
        self.faults = self.faults.saturating_add(1);
        Failed
    }

    /// How many calls failed.
    pub fn faults(&self) -> u64
        ensures { result ≡ self.now.faults }
    {
        self.faults
    }
}
