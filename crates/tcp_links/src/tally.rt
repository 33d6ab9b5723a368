//! The faults of a socket: how many there were, and why the last one came.
ghost use Rattle.std.specs.Prelude.{◌≡◌, ◌≤◌, IfOk, IsErr, MatchResult, Ok, Some};
ghost use Rattle.cmp_ports.specs.Faults.{CountedOnce, HasCause, Rose, counted};

use cmp_ports::Failed;
use std::io;

/// How many calls failed, and the error of the last of them.
#[derive(Drop)]
pub(crate) struct Tally {
    count: u64,
    last: Option<io::Error>,
}

impl Tally {
    /// No call failed.
    pub(crate) fn new() -> Tally
        ensures { result.count ≡ 0 }
    {
        Tally {
            count: 0,
            last: None,
        }
    }

    /// The answer, and a fault more where it is an error.
    pub(crate) fn note<T>(&mut self, answer: io::Result<T>) -> Result<T, Failed>
        ensures value { IfOk result (λ v. answer ≡ Ok v) }
        ensures fails { IsErr answer → IsErr result }
        ensures cause { HasCause self.old.count self.new.count result }
        ensures once { CountedOnce self.old.count self.new.count result }
        ensures why { MatchResult answer (λ _. self.new.last ≡ self.old.last) (λ error. self.new.last ≡ Some error) }
    {
        match answer {
            Ok(value) => Ok(value),
            Err(error) => Err(self.fault(error)),
        }
    }

    /// A fault more.
    pub(crate) fn fault(&mut self, error: io::Error) -> Failed
        ensures once { self.new.count ≡ counted self.old.count }
        ensures rose { Rose self.old.count self.new.count }
        ensures later { self.old.count ≤ self.new.count }
        ensures why { self.new.last ≡ Some error }
    {
        self.count = self.count.saturating_add(1);
        self.last = Some(error);
        Failed
    }

    /// The error of the last call that failed.
    pub(crate) fn why(&self) -> Option<io::Error>
        ensures { result ≡ self.now.last }
    {
        self.last
    }
}
