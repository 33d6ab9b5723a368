//! A clerk that has its desk to itself.
ghost use Rattle.std.specs.Prelude.{◌≡◌, ◌≤◌, ℕ, length, None};
ghost use Rattle.desk.specs.History.{history_of};

use crate::answers::{Lapsed, Ordered};
use crate::clerk::Clerk;
use crate::desk::Desk;
use crate::receipt::Receipt;
use crate::verdict::Verdict;
use cmp_ports::{Disk, Order, Short};
use deal_model::{Ask, Checked};
use deal_table::Look;
use std::alloc::AllocError;

/// A clerk over a lent desk, which nobody else has meanwhile: what it has seen is the desk's history.
#[derive(Drop)]
pub struct SoleClerk<'a, D: Disk> {
    desk: &'a mut Desk<D>,
    /// How many changes the desk had when it was lent.
    opening: u64,
    ghost since: { opening ≤ length (history_of desk.now) },
}

impl<'a, D: Disk> SoleClerk<'a, D> {
    /// A clerk over this desk, through which no change was made yet. Takes no memory.
    pub fn new(desk: &'a mut Desk<D>) -> SoleClerk<'a, D>
        ensures desk { result.desk.now ≡ desk.old }
        ensures loan { result.desk.ghost_name ≡ desk.entry.ghost_name }
        ensures opening { result.opening ≡ length (history_of desk.old) }
    {
        let opening = desk.length();
        SoleClerk { desk, opening }
    }

    /// The lent desk, as the last call left it.
    pub fn into_desk(self) -> &'a mut Desk<D>
        ensures now { result.now ≡ self.entry.desk.now }
        ensures loan { result.ghost_name ≡ self.entry.desk.ghost_name }
    {
        self.desk
    }
}

impl<'a, D: Disk> Clerk for SoleClerk<'a, D> {
    ghost use Rattle.desk.specs.Clerks.{places_since};

    ghost seen = { λ k. history_of k.desk.now };

    ghost mine = { λ k. places_since k.opening (history_of k.desk.now) };

    ghost faults = { λ k. D.faults k.desk.now.disk };

    ghost loan = { λ k. k.desk.ghost_name };

    ghost disk_loan = { λ k. D.loan k.desk.now.disk };

    ghost table = { λ _. None };

    ghost share = { λ _. 0 };

    ghost doubt = { λ k. k.desk.now.doubt };

    ghost moment = { λ k. D.moment k.desk.now.disk };

    ghost left_since = { λ k. D.left_since k.desk.now.disk };

    fn look(&mut self, ask: &Ask, now: u64) -> Look {
        self.desk.look(ask, now)
    }

    fn granted(&mut self, tid: &Short) -> Result<Option<Receipt>, AllocError> {
        self.desk.granted(tid)
    }

    fn decide(&mut self, checked: &Checked<'_>, now: u64, words: &[u8; 32]) -> Verdict {
        self.desk.decide(checked, now, words)
    }

    fn lapse(&mut self, now: u64) -> Lapsed {
        self.desk.lapse(now)
    }

    fn order(&mut self, order: &Order, now: u64) -> Ordered {
        self.desk.order(order, now)
    }

    fn stands_for_its_disk(&self) {}
}
