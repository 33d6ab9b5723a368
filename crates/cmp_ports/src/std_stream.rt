//! Real streams: the readers and writers of std as a source and a sink that count their faults.
//!
//! What a real stream gives or takes is told by no clause. These few lines are trusted to pass it on as it is.
ghost use Rattle.std.specs.Prelude.{◌≡◌, ◌⊎◌, ◌<◌, Ok, length, IfOk, OnErr};

use crate::again::{read_again, write_again};
use crate::counted::Tally;
use crate::faults::Failed;
use crate::sink::Sink;
use crate::source::Source;
use std::io::{self, ErrorKind, Read, Stdin, Stdout, Write};

/// Standard input as a source.
pub type StdSource = ReadSource<Stdin>;

/// Standard output as a sink.
pub type StdSink = WriteSink<Stdout>;

/// A reader of std as a source. A read that a signal interrupts is made again.
#[derive(Drop)]
pub struct ReadSource<R> {
    inner: R,
    tally: Tally,
}

/// A writer of std as a sink. A write that a signal interrupts is made again, and one that takes nothing of some octets is a fault.
#[derive(Drop)]
pub struct WriteSink<W> {
    inner: W,
    tally: Tally,
}

impl<R: Read> ReadSource<R> {
    /// The reader, with no fault so far.
    pub fn new(inner: R) -> ReadSource<R>
        ensures inner { result.inner ≡ inner }
        ensures faults { result.tally.count ≡ 0 }
    {
        ReadSource {
            inner,
            tally: Tally::new(),
        }
    }

    /// Why the last call that failed did.
    pub fn why(&self) -> Option<io::Error>
        ensures { result ≡ self.now.tally.last }
    {
        self.tally.why()
    }
}

impl<W: Write> WriteSink<W> {
    /// The writer, with no fault so far.
    pub fn new(inner: W) -> WriteSink<W>
        ensures inner { result.inner ≡ inner }
        ensures faults { result.tally.count ≡ 0 }
    {
        WriteSink {
            inner,
            tally: Tally::new(),
        }
    }

    /// Why the last call that failed did.
    pub fn why(&self) -> Option<io::Error>
        ensures { result ≡ self.now.tally.last }
    {
        self.tally.why()
    }
}

// The answer of a write, where it took some of the octets or there are none.
fn some_of(answer: io::Result<usize>, bytes: &[u8]) -> io::Result<usize>
    ensures value { IfOk result (λ n. answer ≡ Ok n) }
    ensures some { IfOk result (λ n. 0 < length bytes.now → 0 < n) }
    ensures none { OnErr result (IfOk answer (λ n. n ≡ 0)) }
    ensures took { IfOk answer (λ n. (0 < n) ⊎ (length bytes.now ≡ 0) → result ≡ Ok n) }
{
    match answer {
        Ok(count) if count > 0 || bytes.is_empty() => Ok(count),
        Ok(_) => Err(io::Error::from(ErrorKind::WriteZero)),
        Err(error) => Err(error),
    }
}

impl<R: Read> Source for ReadSource<R> {
    ghost left = { λ s. R.remaining s.inner };

    ghost faults = { λ s. s.tally.count };

    fn read(&mut self, into: &mut [u8]) -> Result<usize, Failed> {
        match read_again(&mut self.inner, into) {
            Ok(count) => Ok(count),
            Err(error) => Err(self.tally.fault(error)),
        }
    }
}

impl<W: Write> Sink for WriteSink<W> {
    ghost written = { λ s. W.contents s.inner };

    ghost faults = { λ s. s.tally.count };

    fn write(&mut self, bytes: &[u8]) -> Result<usize, Failed> {
        match some_of(write_again(&mut self.inner, bytes), bytes) {
            Ok(count) => Ok(count),
            Err(error) => Err(self.tally.fault(error)),
        }
    }
}
