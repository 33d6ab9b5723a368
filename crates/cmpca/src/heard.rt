//! What a program writes, heard by its main, which tells on standard error why a run ended as it did.
ghost use Rattle.std.specs.Prelude.{◌≡◌, ◌≤◌};

use cmp_ports::{Failed, Sink};

/// How many octets are kept. Each line that a run ends with is shorter.
const KEPT: usize = 128;

/// A sink behind another one, which keeps the first octets that were written.
#[derive(Drop)]
pub struct Heard<W> {
    out: W,
    first: [u8; KEPT],
    len: usize,
    ghost within: { len ≤ 128 },
}

impl<W: Sink> Heard<W> {
    /// Nothing was heard yet.
    pub fn new(out: W) -> Heard<W> {
        Heard {
            out,
            first: [0; KEPT],
            len: 0,
        }
    }

    /// The sink that is heard.
    pub fn out(&self) -> &W {
        &self.out
    }

    /// The first octets that were written, at most 128.
    pub fn first(&self) -> &[u8] {
        &self.first[..self.len]
    }

    // Keeps what is among the first octets.
    fn keep(&mut self, octets: &[u8])
        ensures { self.new.out ≡ self.old.out }
    {
        let count = octets.len().min(KEPT - self.len);
        self.first[self.len..self.len + count].copy_from_slice(&octets[..count]);
        self.len += count;
    }
}

impl<W: Sink> Sink for Heard<W> {
    ghost written = { λ s. W.written s.out };

    ghost faults = { λ s. W.faults s.out };

    fn write(&mut self, bytes: &[u8]) -> Result<usize, Failed> {
        let count = self.out.write(bytes)?;
        self.keep(&bytes[..count]);
        Ok(count)
    }
}
