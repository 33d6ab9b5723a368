//! A clerk over a desk that many share.
ghost use Rattle.std.specs.Prelude.{◌≡◌, ◌≤◌, [], Some, None, MatchOption};
ghost use Rattle.cmp_ports.specs.Faults.{Rose};
ghost use Rattle.turnstile.specs.Steps.{Rests};

use cmp_ports::{Disk, Order, Short};
use deal_model::{Ask, Checked};
use deal_table::Look;
use desk::{Clerk, Desk, FaultMarks, Lapsed, Ordered, Receipt, Verdict};
use std::alloc::AllocError;
use std::sync::Wait;
use turnstile::{Seat, Turnstile};

/// Keeps the mark of a desk's last call, where the disk failed under it.
fn keep_mark<D: Disk>(marks: &mut FaultMarks, desk: &mut Desk<D>)
    ensures history { desk.new.history ≡ desk.old.history }
    ensures doubt { desk.new.doubt ≡ desk.old.doubt }
    ensures none { desk.new.mark ≡ None }
    ensures rose { MatchOption desk.old.mark (marks.new ≡ marks.old) (λ _. Rose marks.old marks.new) }
    ensures later { marks.old ≤ marks.new }
{
    if let Some(mark) = desk.fault() {
        marks.add(mark);
    }
}

/// A clerk with a seat of its own at a turnstile, behind which a desk stands. Each call takes one turn, for which it waits, and
/// between two calls the seat holds no turn. It keeps the marks of its desk's calls that failed at the disk.
/// `shut` gives the seat back; the seat of a clerk that is dropped is lost, and the turnstile can't be closed then.
#[derive(Drop)]
pub struct SharedClerk<'a, D: Disk + Drop, R: Wait> {
    rt: &'a R,
    stile: &'a Turnstile<Desk<D>>,
    seat: Seat<Desk<D>>,
    marks: FaultMarks,
    pub ghost own: { seat.table_id ≡ stile.now.table.shared.table_id },
    pub ghost rests: { Rests seat.me },
}

impl<'a, D: Disk + Drop, R: Wait> SharedClerk<'a, D, R> {
    /// A clerk with this seat, which is one of this turnstile and holds no turn. It has no marks yet.
    pub fn new(
        rt: &'a R,
        stile: &'a Turnstile<Desk<D>>,
        seat: Seat<Desk<D>>,
    ) -> SharedClerk<'a, D, R>
        requires own { seat.table_id ≡ stile.now.table.shared.table_id }
        requires rests { Rests seat.me }
        ensures seat { result.seat ≡ seat }
        ensures stile { result.stile.now ≡ stile.now }
        ensures marks { result.marks ≡ 0 }
    {
        SharedClerk {
            rt,
            stile,
            seat,
            marks: FaultMarks::none(),
        }
    }

    /// The seat, which holds no turn, and the marks.
    pub fn shut(self) -> (Seat<Desk<D>>, FaultMarks)
        ensures seat { result.0 ≡ self.entry.seat }
        ensures marks { result.1 ≡ self.entry.marks }
        ensures own { result.0.table_id ≡ self.entry.stile.now.table.shared.table_id }
        ensures rests { Rests result.0.me }
    {
        let SharedClerk {
            rt: _,
            stile: _,
            seat,
            marks,
        } = self;
        (seat, marks)
    }
}

impl<'a, D: Disk + Drop, R: Wait> Clerk for SharedClerk<'a, D, R> {
    ghost use Rattle.desk.specs.History.{changes_in};

    ghost seen = { λ k. changes_in k.seat.me.0.seen };

    ghost mine = { λ k. k.seat.me.0.mine };

    ghost faults = { λ k. k.marks };

    ghost loan = { λ _. 0 };

    ghost disk_loan = { λ _. 0 };

    ghost table = { λ k. Some k.seat.table_id };

    ghost share = { λ k. k.seat.me.0.share };

    ghost doubt = { λ _. None };

    ghost moment = { λ _. 0 };

    ghost left_since = { λ _ _ _. ⊥ };

    fn look(&mut self, ask: &Ask, now: u64) -> Look {
        let mut desk = self.stile.enter(self.rt, &mut self.seat);
        let look = desk.look(ask, now);
        desk.stands_for_its_disk();
        self.stile.leave(&mut self.seat, desk);
        look
    }

    fn granted(&mut self, tid: &Short) -> Result<Option<Receipt>, AllocError> {
        let mut desk = self.stile.enter(self.rt, &mut self.seat);
        let receipt = desk.granted(tid);
        desk.stands_for_its_disk();
        self.stile.leave(&mut self.seat, desk);
        receipt
    }

    fn decide(&mut self, checked: &Checked<'_>, now: u64, words: &[u8; 32]) -> Verdict {
        let mut desk = self.stile.enter(self.rt, &mut self.seat);
        let verdict = desk.decide(checked, now, words);
        keep_mark(&mut self.marks, &mut desk);
        desk.stands_for_its_disk();
        self.stile.leave(&mut self.seat, desk);
        verdict
    }

    fn lapse(&mut self, now: u64) -> Lapsed {
        let mut desk = self.stile.enter(self.rt, &mut self.seat);
        let end = desk.lapse(now);
        keep_mark(&mut self.marks, &mut desk);
        desk.stands_for_its_disk();
        self.stile.leave(&mut self.seat, desk);
        end
    }

    fn order(&mut self, order: &Order, now: u64) -> Ordered {
        let mut desk = self.stile.enter(self.rt, &mut self.seat);
        let end = desk.order(order, now);
        keep_mark(&mut self.marks, &mut desk);
        desk.stands_for_its_disk();
        self.stile.leave(&mut self.seat, desk);
        end
    }

    fn stands_for_its_disk(&self) {}
}
