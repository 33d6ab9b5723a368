//! A desk is known by its history, and waits for its next turn without a mark.
ghost use Rattle.std.specs.Prelude.{◌≡◌, None, length};

use crate::desk::Desk;
use cmp_ports::Disk;
use deal_model::Change;
use turnstile::Chronicle;

impl<D: Disk + Drop> Chronicle for Desk<D> {
    type Entry = Change;

    ghost history = { λ d. d.history.items };

    ghost kept = { λ d. d.mark ≡ None };

    fn length(&self) -> u64 {
        self.history.len() as u64
    }
}
