//! Random octets.
ghost use Rattle.std.specs.Prelude.{◌≡◌, ℕ, List, Option};
ghost use Rattle.cmp_ports.specs.Coming.{Gives, drawn};
ghost use Rattle.cmp_ports.specs.Faults.{HasCause};

use crate::faults::Failed;

/// A source of random octets. That nobody can guess them is told by no clause.
pub trait Entropy {
    // The draws to come, by their number from 0 on, where the object tells them: the octets, or nothing for a draw
    // that fails.
    ghost draws: { Self → Option (ℕ → Option (List ℕ)) };

    // How many calls of the object failed. It never falls, and stays at the greatest u64.
    ghost faults: { Self → ℕ };

    // The loan by which a lent object is held, by its number; that of one that is owned stays the same number.
    ghost loan: { Self → ℕ };

    /// Draws 32 octets. A `Failed` comes only where the count of faults rose.
    fn draw(&mut self, into: &mut [u8; 32]) -> Result<(), Failed>
        ensures draws { Gives (draws self.old) (draws self.new) (drawn result into.new) }
        ensures cause { HasCause (faults self.old) (faults self.new) result }
        ensures loan { loan self.new ≡ loan self.old };
}

/// A source of random octets that is lent.
impl<E: Entropy> Entropy for &mut E {
    ghost draws = { λ e. E.draws e.now };

    ghost faults = { λ e. E.faults e.now };

    ghost loan = { λ e. e.ghost_name };

    fn draw(&mut self, into: &mut [u8; 32]) -> Result<(), Failed> {
        (**self).draw(into)
    }
}
