//! The turnstile, and its seats.
ghost use Rattle.std.specs.Prelude.{◌≡◌, ℕ, ◌+◌, ◌<◌, ◌≤◌, [], length, IfOk};
ghost use Rattle.turnstile.specs.Lists.{IsPrefix, once, times};
ghost use Rattle.turnstile.specs.Steps.{Rests};
ghost use Rattle.turnstile.specs.Views.{joined, newcomer, one_less, one_more};

use crate::chronicle::Chronicle;
use crate::plays::{Hear, Shares};
use crate::rule::{Gate, Seat};
use atomic_table::Table;
use std::alloc::{AllocFailed, Global};
use std::snapshot::Snapshot;

/// There was no memory.
#[derive(Debug, Drop)]
pub struct NoMemory;

/// One value that the holders of its seats change in turn.
#[derive(Drop)]
pub struct Turnstile<T: Chronicle> {
    pub(crate) table: Gate<T>,
    pub ghost words: { table.shared.table_id.words ≡ 3 },
    pub ghost slots: { table.shared.table_id.slots ≡ 1 },
}

impl<T: Chronicle> Turnstile<T> {
    /// A turnstile for so many seats, and a first seat, which counts for all of them: the others are split off from it.
    /// Where there is no memory the value is dropped.
    pub fn new(alloc: Global, value: T, seats: u32) -> Result<(Turnstile<T>, Seat<T>), NoMemory>
        requires some { 0 < seats }
        requires kept { T.kept value }
        ensures own { IfOk result (λ made. made.1.table_id ≡ made.0.table.shared.table_id) }
        ensures seat { IfOk result (λ made. made.1.me ≡ (newcomer (T.history value) seats, [])) }
        ensures seats { IfOk result (λ made. made.0.table.shared.key.0 ≡ seats) }
        ensures opening { IfOk result (λ made. made.0.table.shared.key.1.value ≡ value) }
    {
        let length = value.length();
        let about = (seats, Snapshot::of(&value));
        let mut slots = Vec::new(alloc);
        if let Err(AllocFailed { value }) = slots.push(Some(value)) {
            drop(value);
            return Err(NoMemory);
        }
        match Table::new(alloc, &[0, 0, length], slots, &about) {
            Ok((table, seat)) => Ok((Turnstile { table }, seat)),
            Err(refused) => {
                drop(refused);
                Err(NoMemory)
            }
        }
    }

    /// Splits a seat off. It counts for one, has seen what the other has seen, and has no places.
    pub fn split(&self, seat: &mut Seat<T>) -> Seat<T>
        requires own { seat.old.table_id ≡ self.now.table.shared.table_id }
        requires rests { Rests seat.old.me }
        requires enough { 2 ≤ seat.old.me.0.share }
        ensures own { (seat.new.table_id ≡ seat.old.table_id) × (result.table_id ≡ seat.old.table_id) }
        ensures kept { seat.new.me ≡ (one_less seat.old.me.0, []) }
        ensures given { result.me ≡ (one_more seat.old.me.0, []) }
    {
        self.table.shared.split_seat::<Shares>(seat)
    }

    /// Joins the other seat to this one, which counts for both from then on, has the places of both and has seen what either had seen.
    pub fn join(&self, seat: &mut Seat<T>, other: Seat<T>)
        requires own { (seat.old.table_id ≡ self.now.table.shared.table_id) × (other.table_id ≡ self.now.table.shared.table_id) }
        requires rests { Rests seat.old.me × Rests other.me }
        ensures own { seat.new.table_id ≡ seat.old.table_id }
        ensures joined { seat.new.me ≡ (joined seat.old.me.0 other.me.0, []) }
        ensures seen { IsPrefix seat.old.me.0.seen seat.new.me.0.seen × IsPrefix other.me.0.seen seat.new.me.0.seen }
        ensures once { (place : ℕ) → times place seat.new.me.0.mine ≤ 1 }
    {
        self.table.shared.join_seat::<Shares>(seat, other);
        self.table.shared.load::<Hear>(seat, 0);
    }

    /// Takes the turnstile apart, with the one seat that is left, and gives the value.
    /// Its history is what that seat has seen, so it begins with all that each seat had seen that was joined to it.
    pub fn close(self, seat: Seat<T>) -> T
        requires own { seat.table_id ≡ self.table.shared.table_id }
        requires rests { Rests seat.me }
        requires all { seat.me.0.share ≡ self.table.shared.key.0 }
        ensures seen { T.history result ≡ seat.me.0.seen }
        ensures mine { (place : ℕ) → times place seat.me.0.mine ≡ once (length (T.history self.table.shared.key.1.value)) (length (T.history result)) place }
        ensures kept { T.kept result }
        ensures count { length (T.history self.table.shared.key.1.value) + length seat.me.0.mine ≡ length (T.history result) }
    {
        let Turnstile { table } = self;
        let mut closed = table.close_with(seat);
        let value = closed.take(0).unwrap();
        closed.free();
        value
    }
}
