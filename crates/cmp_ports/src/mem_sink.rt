//! A sink in memory.
ghost use Rattle.std.specs.Prelude.{◌≡◌, ◌<◌, [], length, IfOk, IsErr, IsTrue, Some};
ghost use Rattle.std.specs.Io.{WritesAtMost};
ghost use Rattle.std.specs.Io.KnownBytes.{WriteAppends};

use crate::faults::Failed;
use crate::schedule::Schedule;
use crate::sink::Sink;
use std::alloc::Global;

/// Octets in memory, of which there are none at first. A write fails where its number is listed, or where the memory
/// for it is refused.
#[derive(Drop)]
pub struct MemSink {
    content: Vec<u8>,
    schedule: Schedule,
}

impl MemSink {
    ghost use Rattle.cmp_ports.specs.MemSink.{written_of, faults_of, listed_of, calls_of};

    /// Nothing is written yet, and no write fails but for want of memory.
    pub fn new(alloc: Global) -> MemSink
        ensures written { written_of result ≡ [] }
        ensures faults { faults_of result ≡ 0 }
        ensures fails { listed_of result ≡ [] }
        ensures calls { calls_of result ≡ 0 }
    {
        MemSink {
            content: Vec::new(alloc),
            schedule: Schedule::none(),
        }
    }

    /// Nothing is written yet, and the writes with these numbers fail, counted from 1.
    pub fn failing(alloc: Global, fails: Vec<u64>) -> MemSink
        ensures written { written_of result ≡ [] }
        ensures faults { faults_of result ≡ 0 }
        ensures fails { listed_of result ≡ fails.items }
        ensures calls { calls_of result ≡ 0 }
    {
        MemSink {
            content: Vec::new(alloc),
            schedule: Schedule::of(fails),
        }
    }

    /// What was written.
    pub fn written(&self) -> &[u8]
        ensures { result.now ≡ written_of self.now }
    {
        self.content.as_slice()
    }

    /// How many writes failed.
    pub fn faults(&self) -> u64
        ensures { result ≡ faults_of self.now }
    {
        self.schedule.faults()
    }
}

impl Sink for MemSink {
    ghost use Rattle.cmp_ports.specs.MemSink.{written_of, faults_of, listed_of, calls_of, is_due};
    ghost use Rattle.cmp_ports.specs.Schedule.{counted};
    ghost use Rattle.cmp_ports.specs.Faults.{CountedOnce, HasCause};

    ghost written = { λ s. Some (written_of s) };

    ghost faults = { λ s. faults_of s };

    /// Writes all of `bytes`.
    fn write(&mut self, bytes: &[u8]) -> Result<usize, Failed>
        ensures bound { WritesAtMost result bytes.now }
        ensures some { IfOk result (λ n. 0 < length bytes.now → 0 < n) }
        ensures bytes { WriteAppends (Some (written_of self.old)) (Some (written_of self.new)) result bytes.now }
        ensures cause { HasCause (faults_of self.old) (faults_of self.new) result }
        ensures once { CountedOnce (faults_of self.old) (faults_of self.new) result }
        ensures fails { IsTrue (is_due self.old) → IsErr result }
        ensures listed { listed_of self.new ≡ listed_of self.old }
        ensures calls { calls_of self.new ≡ counted (calls_of self.old) }
        ensures whole { IfOk result (λ n. n ≡ length bytes.now) }
    {
        self.schedule.call()?;
        match self.content.extend_from_slice(bytes) {
            Ok(()) => Ok(bytes.len()),
            Err(_) => Err(self.schedule.fault()),
        }
    }
}
