//! Where streams come from.
ghost use Rattle.std.specs.Prelude.{ℕ, List, Option, ◌≡◌, ◌<◌, true, MatchResult, IfOk};
ghost use Rattle.cmp_ports.specs.Faults.{HasCause, counted};
ghost use Rattle.cmp_links.specs.Ends.{is_link_fault};
ghost use Rattle.cmp_links.specs.Links.{Adds, IsUntouched, Stays};
ghost use Rattle.cmp_links.specs.declared.end.SessionEnd.{SessionEnd};

use crate::end::SessionEnd;
use crate::link::Link;
use cmp_ports::Failed;

/// What accepts streams, and takes them back at their end.
pub trait Door {
    /// The streams that it accepts.
    type Joined: Link;

    // How many streams were accepted. It never falls, and stays at the greatest u64.
    ghost accepted: { Self → ℕ };

    // How many streams were taken back. It never falls, and stays at the greatest u64.
    ghost ended: { Self → ℕ };

    // How many calls of the object failed. It never falls, and stays at the greatest u64.
    ghost faults: { Self → ℕ };

    // The streams that were taken back, each with the end of its session, where the object tells them.
    ghost finished: { Self → Option (List (Self.Joined × SessionEnd)) };

    /// Waits for the next stream. It has no faults, has given nothing, and nothing was written to it. A `Failed` accepts
    /// none, and comes only where the count of faults rose.
    fn accept(&mut self) -> Result<Self::Joined, Failed>
        ensures accepted { MatchResult result (λ _. accepted self.new ≡ counted (accepted self.old)) (λ _. accepted self.new ≡ accepted self.old) }
        ensures fresh { IfOk result (λ l. IsUntouched (Self.Joined.faults l) (Self.Joined.gave l) (Self.Joined.written l)) }
        ensures ended { ended self.new ≡ ended self.old }
        ensures finished { Stays (finished self.old) (finished self.new) }
        ensures cause { HasCause (faults self.old) (faults self.new) result };

    /// Takes a stream back, with the end of the session over it. The end is a fault of the stream only where the stream
    /// has one. Takes no memory.
    fn finish(&mut self, link: Self::Joined, end: SessionEnd)
        requires { is_link_fault end.cause ≡ true → 0 < Self.Joined.faults link }
        ensures ended { ended self.new ≡ counted (ended self.old) }
        ensures finished { Adds (finished self.old) (finished self.new) (link, end) }
        ensures accepted { accepted self.new ≡ accepted self.old }
        ensures faults { faults self.new ≡ faults self.old };
}

/// A door that is lent.
impl<D: Door> Door for &mut D {
    type Joined = D::Joined;

    ghost accepted = { λ d. D.accepted d.now };

    ghost ended = { λ d. D.ended d.now };

    ghost faults = { λ d. D.faults d.now };

    ghost finished = { λ d. D.finished d.now };

    fn accept(&mut self) -> Result<D::Joined, Failed> {
        (**self).accept()
    }

    fn finish(&mut self, link: D::Joined, end: SessionEnd) {
        (**self).finish(link, end);
    }
}
