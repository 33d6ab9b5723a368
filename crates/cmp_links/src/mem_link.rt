//! A link in memory.
ghost use Rattle.std.specs.Prelude.{◌≡◌, ◌↔◌, ◌<◌, ◌≤◌, min, length, IfOk, IsErr, IsTrue, [], Some, vec_len};
ghost use Rattle.std.specs.Io.{ReadsAtMost, WritesAtMost};
ghost use Rattle.std.specs.Io.KnownBytes.{Keeps, ReadConsumes, WriteAppends};

use crate::calls::Calls;
use crate::link::Link;
use cmp_ports::Failed;

/// Octets in memory, read from the front to the end, and octets that are written, of which there are none at first. A call whose number
/// is listed fails, the numbers counting reads and writes together, from 1; else only a write does, where the memory for it is refused.
#[derive(Drop)]
pub struct MemLink {
    content: Vec<u8>,
    at: usize,
    written: Vec<u8>,
    calls: Calls,
    ghost within: { at ≤ vec_len content },
}

impl MemLink {
    ghost use Rattle.cmp_links.specs.MemLink.{left_of, gave_of, written_of, faults_of, fails_of, calls_of};

    /// The content, of which no read fails, and no write but for want of memory.
    pub fn new(content: Vec<u8>) -> MemLink
        ensures left { left_of result ≡ content.items }
        ensures gave { gave_of result ≡ [] }
        ensures written { written_of result ≡ [] }
        ensures faults { faults_of result ≡ 0 }
        ensures fails { fails_of result ≡ [] }
        ensures calls { calls_of result ≡ 0 }
    {
        let written = Vec::new(*content.allocator());
        MemLink {
            content,
            at: 0,
            written,
            calls: Calls::none(),
        }
    }

    /// The content, and the calls with these numbers fail, counted from 1.
    pub fn failing(content: Vec<u8>, fails: Vec<u64>) -> MemLink
        ensures left { left_of result ≡ content.items }
        ensures gave { gave_of result ≡ [] }
        ensures written { written_of result ≡ [] }
        ensures faults { faults_of result ≡ 0 }
        ensures fails { fails_of result ≡ fails.items }
        ensures calls { calls_of result ≡ 0 }
    {
        let written = Vec::new(*content.allocator());
        MemLink {
            content,
            at: 0,
            written,
            calls: Calls::of(fails),
        }
    }

    /// The octets that were not read yet.
    pub fn left(&self) -> &[u8]
        ensures { result.now ≡ left_of self.now }
    {
        let (_, left) = self.content.split_at(self.at);
        left
    }

    /// The octets that were read.
    pub fn gave(&self) -> &[u8]
        ensures { result.now ≡ gave_of self.now }
    {
        let (gave, _) = self.content.split_at(self.at);
        gave
    }

    /// The octets that were written.
    pub fn written(&self) -> &[u8]
        ensures { result.now ≡ written_of self.now }
    {
        self.written.as_slice()
    }

    /// How many calls failed.
    pub fn faults(&self) -> u64
        ensures { result ≡ faults_of self.now }
    {
        self.calls.faults()
    }
}

impl Link for MemLink {
    ghost use Rattle.cmp_links.specs.MemLink.{left_of, gave_of, written_of, faults_of, fails_of, calls_of, is_call_due};
    ghost use Rattle.cmp_ports.specs.Faults.{CountedOnce, HasCause, counted};

    ghost left = { λ l. Some (left_of l) };

    ghost gave = { λ l. Some (gave_of l) };

    ghost written = { λ l. Some (written_of l) };

    ghost faults = { λ l. faults_of l };

    /// Reads as many octets as are left and fit.
    fn read(&mut self, into: &mut [u8]) -> Result<usize, Failed>
        ensures bound { ReadsAtMost result into.new }
        ensures bytes { ReadConsumes (Some (left_of self.old)) (Some (left_of self.new)) result into.new }
        ensures gave { WriteAppends (Some (gave_of self.old)) (Some (gave_of self.new)) result into.new }
        ensures written { Keeps (Some (written_of self.old)) (Some (written_of self.new)) }
        ensures cause { HasCause (faults_of self.old) (faults_of self.new) result }
        ensures once { CountedOnce (faults_of self.old) (faults_of self.new) result }
        ensures fails { IsErr result ↔ IsTrue (is_call_due self.old) }
        ensures listed { fails_of self.new ≡ fails_of self.old }
        ensures calls { calls_of self.new ≡ counted (calls_of self.old) }
        ensures whole { IfOk result (λ n. n ≡ min (length into.old) (length (left_of self.old))) }
    {
        self.calls.call()?;
        let count = into.len().min(self.content.len() - self.at);
        let (_, left) = self.content.split_at(self.at);
        let (given, _) = left.split_at(count);
        into[..count].copy_from_slice(given);
        self.at += count;
        Ok(count)
    }

    /// Writes all of `bytes`.
    fn write(&mut self, bytes: &[u8]) -> Result<usize, Failed>
        ensures bound { WritesAtMost result bytes.now }
        ensures some { IfOk result (λ n. 0 < length bytes.now → 0 < n) }
        ensures bytes { WriteAppends (Some (written_of self.old)) (Some (written_of self.new)) result bytes.now }
        ensures left { Keeps (Some (left_of self.old)) (Some (left_of self.new)) }
        ensures gave { Keeps (Some (gave_of self.old)) (Some (gave_of self.new)) }
        ensures cause { HasCause (faults_of self.old) (faults_of self.new) result }
        ensures once { CountedOnce (faults_of self.old) (faults_of self.new) result }
        ensures fails { IsTrue (is_call_due self.old) → IsErr result }
        ensures listed { fails_of self.new ≡ fails_of self.old }
        ensures calls { calls_of self.new ≡ counted (calls_of self.old) }
        ensures whole { IfOk result (λ n. n ≡ length bytes.now) }
    {
        self.calls.call()?;
        match self.written.extend_from_slice(bytes) {
            Ok(()) => Ok(bytes.len()),
            Err(_) => Err(self.calls.fault()),
        }
    }
}
