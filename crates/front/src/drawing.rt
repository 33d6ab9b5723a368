//! Words for a reply.
ghost use Rattle.std.specs.Prelude.{◌≡◌};
ghost use Rattle.cmp_ports.specs.Coming.{Gives};
ghost use Rattle.front.specs.Fronts.{IsCounted};

use cmp_ports::Entropy;

/// Draws 32 words; none where the draw fails.
pub(crate) fn draw<E: Entropy>(entropy: &mut E) -> Option<[u8; 32]>
    ensures draws { Gives (E.draws entropy.old) (E.draws entropy.new) result }
    ensures counted { IsCounted result (E.faults entropy.old) (E.faults entropy.new) }
    ensures loan { E.loan entropy.new ≡ E.loan entropy.old }
{
    let mut words = [0; 32];
    match entropy.draw(&mut words) {
        Ok(()) => Some(words),
        Err(_) => None,
    }
}
