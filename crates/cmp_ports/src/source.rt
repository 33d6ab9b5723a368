//! Where octets come from.
ghost use Rattle.std.specs.Prelude.{ℕ, List, Option};
ghost use Rattle.std.specs.Io.{ReadsAtMost};
ghost use Rattle.std.specs.Io.KnownBytes.{ReadConsumes};
ghost use Rattle.cmp_ports.specs.Faults.{HasCause};

use crate::faults::Failed;

/// A stream of octets to be read.
pub trait Source {
    // The octets that reads will give from here on, where the object tells them.
    ghost left: { Self → Option (List ℕ) };

    // How many calls of the object failed. It never falls, and stays at the greatest u64.
    ghost faults: { Self → ℕ };

    /// Reads some octets into the front of `into`, at most as many as it has room for, and returns how many. It is 0
    /// only at the end of the stream or where there is no room. A `Failed` takes no octets from the stream, and comes
    /// only where the count of faults rose.
    fn read(&mut self, into: &mut [u8]) -> Result<usize, Failed>
        ensures bound { ReadsAtMost result into.new }
        ensures bytes { ReadConsumes (left self.old) (left self.new) result into.new }
        ensures cause { HasCause (faults self.old) (faults self.new) result };
}

/// A source that is lent.
impl<S: Source> Source for &mut S {
    ghost left = { λ s. S.left s.now };

    ghost faults = { λ s. S.faults s.now };

    fn read(&mut self, into: &mut [u8]) -> Result<usize, Failed> {
        (**self).read(into)
    }
}
