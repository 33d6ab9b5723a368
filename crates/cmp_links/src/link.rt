//! Two-way streams.
ghost use Rattle.std.specs.Prelude.{ℕ, List, Option, ◌<◌, length, IfOk};
ghost use Rattle.std.specs.Io.{ReadsAtMost, WritesAtMost};
ghost use Rattle.std.specs.Io.KnownBytes.{Keeps, ReadConsumes, WriteAppends};
ghost use Rattle.cmp_ports.specs.Faults.{HasCause};

use cmp_ports::Failed;

/// A stream of octets to be read, and another to be written, with one count of faults for both.
pub trait Link: Drop {
    // The octets that reads will give from here on, where the object tells them.
    ghost left: { Self → Option (List ℕ) };

    // The octets that reads gave, where the object tells them.
    ghost gave: { Self → Option (List ℕ) };

    // The octets that were written, where the object tells them.
    ghost written: { Self → Option (List ℕ) };

    // How many calls of the object failed. It never falls, and stays at the greatest u64.
    ghost faults: { Self → ℕ };

    /// Reads some octets into the front of `into`, at most as many as it has room for, and returns how many. It is 0
    /// only at the end of the stream or where there is no room. A `Failed` takes no octets from the stream, and comes
    /// only where the count of faults rose. What was written stays.
    fn read(&mut self, into: &mut [u8]) -> Result<usize, Failed>
        ensures bound { ReadsAtMost result into.new }
        ensures bytes { ReadConsumes (left self.old) (left self.new) result into.new }
        ensures gave { WriteAppends (gave self.old) (gave self.new) result into.new }
        ensures written { Keeps (written self.old) (written self.new) }
        ensures cause { HasCause (faults self.old) (faults self.new) result };

    /// Writes some of the first octets of `bytes`, at least one where there are any, and returns how many. A `Failed`
    /// writes none, and comes only where the count of faults rose. What was given and what is left stay.
    fn write(&mut self, bytes: &[u8]) -> Result<usize, Failed>
        ensures bound { WritesAtMost result bytes.now }
        ensures some { IfOk result (λ n. 0 < length bytes.now → 0 < n) }
        ensures bytes { WriteAppends (written self.old) (written self.new) result bytes.now }
        ensures left { Keeps (left self.old) (left self.new) }
        ensures gave { Keeps (gave self.old) (gave self.new) }
        ensures cause { HasCause (faults self.old) (faults self.new) result };
}

/// A link that is lent.
impl<L: Link> Link for &mut L {
    ghost left = { λ l. L.left l.now };

    ghost gave = { λ l. L.gave l.now };

    ghost written = { λ l. L.written l.now };

    ghost faults = { λ l. L.faults l.now };

    fn read(&mut self, into: &mut [u8]) -> Result<usize, Failed> {
        (**self).read(into)
    }

    fn write(&mut self, bytes: &[u8]) -> Result<usize, Failed> {
        (**self).write(bytes)
    }
}
