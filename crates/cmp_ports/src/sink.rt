//! Where octets go.
ghost use Rattle.std.specs.Prelude.{ℕ, List, Option, ◌<◌, length, IfOk};
ghost use Rattle.std.specs.Io.{WritesAtMost};
ghost use Rattle.std.specs.Io.KnownBytes.{WriteAppends};
ghost use Rattle.cmp_ports.specs.Faults.{HasCause};

use crate::faults::Failed;

/// A stream of octets to be written.
pub trait Sink {
    // The octets that were written, where the object tells them.
    ghost written: { Self → Option (List ℕ) };

    // How many calls of the object failed. It never falls, and stays at the greatest u64.
    ghost faults: { Self → ℕ };

    /// Writes some of the first octets of `bytes`, at least one where there are any, and returns how many. A `Failed`
    /// writes none, and comes only where the count of faults rose.
    fn write(&mut self, bytes: &[u8]) -> Result<usize, Failed>
        ensures bound { WritesAtMost result bytes.now }
        ensures some { IfOk result (λ n. 0 < length bytes.now → 0 < n) }
        ensures bytes { WriteAppends (written self.old) (written self.new) result bytes.now }
        ensures cause { HasCause (faults self.old) (faults self.new) result };
}

/// A sink that is lent.
impl<W: Sink> Sink for &mut W {
    ghost written = { λ s. W.written s.now };

    ghost faults = { λ s. W.faults s.now };

    fn write(&mut self, bytes: &[u8]) -> Result<usize, Failed> {
        (**self).write(bytes)
    }
}
