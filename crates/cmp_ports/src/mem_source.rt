//! A source in memory.
ghost use Rattle.std.specs.Prelude.{◌≡◌, ◌↔◌, ◌≤◌, min, length, IfOk, IsErr, IsTrue, [], Some, vec_len};
ghost use Rattle.std.specs.Io.{ReadsAtMost};
ghost use Rattle.std.specs.Io.KnownBytes.{ReadConsumes};

use crate::faults::Failed;
use crate::schedule::Schedule;
use crate::source::Source;

/// Octets in memory, read from the front to the end. Calls whose numbers are listed fail, and no other call does.
#[derive(Drop)]
pub struct MemSource {
    content: Vec<u8>,
    at: usize,
    schedule: Schedule,
    ghost within: { at ≤ vec_len content },
}

impl MemSource {
    ghost use Rattle.cmp_ports.specs.MemSource.{left_of, faults_of, listed_of, calls_of};

    /// The content, of which no read fails.
    pub fn new(content: Vec<u8>) -> MemSource
        ensures left { left_of result ≡ content.items }
        ensures faults { faults_of result ≡ 0 }
        ensures fails { listed_of result ≡ [] }
        ensures calls { calls_of result ≡ 0 }
    {
        MemSource {
            content,
            at: 0,
            schedule: Schedule::none(),
        }
    }

    /// The content, of which the reads with these numbers fail, counted from 1.
    pub fn failing(content: Vec<u8>, fails: Vec<u64>) -> MemSource
        ensures left { left_of result ≡ content.items }
        ensures faults { faults_of result ≡ 0 }
        ensures fails { listed_of result ≡ fails.items }
        ensures calls { calls_of result ≡ 0 }
    {
        MemSource {
            content,
            at: 0,
            schedule: Schedule::of(fails),
        }
    }

    /// The octets that were not read yet.
    pub fn left(&self) -> &[u8]
        ensures { result.now ≡ left_of self.now }
    {
        let (_, left) = self.content.split_at(self.at);
        left
    }

    /// How many reads failed.
    pub fn faults(&self) -> u64
        ensures { result ≡ faults_of self.now }
    {
        self.schedule.faults()
    }
}

impl Source for MemSource {
    ghost use Rattle.cmp_ports.specs.MemSource.{left_of, faults_of, listed_of, calls_of, is_due};
    ghost use Rattle.cmp_ports.specs.Schedule.{counted};
    ghost use Rattle.cmp_ports.specs.Faults.{CountedOnce, HasCause};

    ghost left = { λ s. Some (left_of s) };

    ghost faults = { λ s. faults_of s };

    /// Reads as many octets as are left and fit.
    fn read(&mut self, into: &mut [u8]) -> Result<usize, Failed>
        ensures bound { ReadsAtMost result into.new }
        ensures bytes { ReadConsumes (Some (left_of self.old)) (Some (left_of self.new)) result into.new }
        ensures cause { HasCause (faults_of self.old) (faults_of self.new) result }
        ensures once { CountedOnce (faults_of self.old) (faults_of self.new) result }
        ensures fails { IsErr result ↔ IsTrue (is_due self.old) }
        ensures listed { listed_of self.new ≡ listed_of self.old }
        ensures calls { calls_of self.new ≡ counted (calls_of self.old) }
        ensures whole { IfOk result (λ n. n ≡ min (length into.old) (length (left_of self.old))) }
    {
        self.schedule.call()?;
        let count = into.len().min(self.content.len() - self.at);
        let (_, left) = self.content.split_at(self.at);
        let (given, _) = left.split_at(count);
        into[..count].copy_from_slice(given);
        self.at += count;
        Ok(count)
    }
}
