//! Draws of random octets in memory.
ghost use Rattle.std.specs.Prelude.{◌≡◌, ◌≤◌, [], Some, vec_len};

use crate::entropy::Entropy;
use crate::faults::Failed;
use crate::schedule::Schedule;

/// Draws from a list. A draw fails where its number is listed, and then takes nothing from the list, or where the list
/// is used up.
#[derive(Drop)]
pub struct ListEntropy {
    draws: Vec<[u8; 32]>,
    at: usize,
    schedule: Schedule,
    ghost within: { at ≤ vec_len draws },
}

impl ListEntropy {
    ghost use Rattle.cmp_ports.specs.Lists.{draws_of, draw_faults};
    ghost use Rattle.cmp_ports.specs.Coming.{draw_of};

    /// These draws, none of which fails before the list is used up.
    pub fn new(draws: Vec<[u8; 32]>) -> ListEntropy
        ensures draws { draws_of result ≡ draw_of [] 0 draws.items }
        ensures faults { draw_faults result ≡ 0 }
    {
        ListEntropy {
            draws,
            at: 0,
            schedule: Schedule::none(),
        }
    }

    /// These draws, and the calls with these numbers fail, counted from 1.
    pub fn failing(draws: Vec<[u8; 32]>, fails: Vec<u64>) -> ListEntropy
        ensures draws { draws_of result ≡ draw_of fails.items 0 draws.items }
        ensures faults { draw_faults result ≡ 0 }
    {
        ListEntropy {
            draws,
            at: 0,
            schedule: Schedule::of(fails),
        }
    }

    /// How many draws failed.
    pub fn faults(&self) -> u64
        ensures { result ≡ draw_faults self.now }
    {
        self.schedule.faults()
    }
}

impl Entropy for ListEntropy {
    ghost use Rattle.cmp_ports.specs.Coming.{Gives, drawn};
    ghost use Rattle.cmp_ports.specs.Faults.{CountedOnce, HasCause};
    ghost use Rattle.cmp_ports.specs.Lists.{draws_of, draw_faults, draw_loan};

    ghost draws = { λ e. Some (draws_of e) };

    ghost faults = { λ e. draw_faults e };

    ghost loan = { draw_loan };

    fn draw(&mut self, into: &mut [u8; 32]) -> Result<(), Failed>
        ensures draws { Gives (Some (draws_of self.old)) (Some (draws_of self.new)) (drawn result into.new) }
        ensures cause { HasCause (draw_faults self.old) (draw_faults self.new) result }
        ensures loan { draw_loan self.new ≡ draw_loan self.old }
        ensures once { CountedOnce (draw_faults self.old) (draw_faults self.new) result }
    {
        self.schedule.call()?;
        if self.at == self.draws.len() {
            return Err(self.schedule.fault());
        }
        *into = self.draws[self.at];
        self.at += 1;
        Ok(())
    }
}
