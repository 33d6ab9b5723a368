//! A turn: a seat enters, is given the value, and leaves it with at most one entry more.
ghost use Rattle.std.specs.Prelude.{◌≡◌, ◌+◌, [], ◌∷◌, length};
ghost use Rattle.turnstile.specs.Lists.{Extends, IsPrefix};
ghost use Rattle.turnstile.specs.Steps.{Entered, Got, HasTurn, IsWaiting, Rests};
ghost use Rattle.turnstile.specs.Views.{after_turn, base_of, told};

use crate::chronicle::Chronicle;
use crate::plays::{Count, Look, PassOn, Publish, Take, Told};
use crate::rule::Seat;
use crate::turnstile::Turnstile;
use std::marker::Brand;
use std::sync::Wait;

// A word that threads park on is compared in its low 32 bits.
const LOW: u64 = 1 << 32;

impl<T: Chronicle> Turnstile<T> {
    // Waits until the ticket is served.
    fn wait<R: Wait>(&self, rt: &R, seat: &mut Seat<T>, ticket: u64)
        requires own { seat.old.table_id ≡ self.now.table.shared.table_id }
        requires waits { IsWaiting seat.old.me ticket }
        ensures own { seat.new.table_id ≡ seat.old.table_id }
        ensures got { Got T.history T.kept seat.old.me seat.new.me }
    {
        for _ in rt.forever() {
            let found = self.table.shared.load::<Look>(seat, 1);
            if found == ticket {
                return;
            }
            self.table.shared.park(rt, 1, (found % LOW) as u32);
        }
        unreachable!()
    }

    /// Waits for the seat's turn and gives the value, whose history begins with all that the seat has seen.
    pub fn enter<R: Wait>(&self, rt: &R, seat: &mut Seat<T>) -> T
        requires own { seat.old.table_id ≡ self.now.table.shared.table_id }
        requires rests { Rests seat.old.me }
        ensures own { seat.new.table_id ≡ seat.old.table_id }
        ensures turn { Entered seat.old.me (T.history result) seat.new.me }
        ensures later { IsPrefix seat.old.me.0.seen (T.history result) }
        ensures kept { T.kept result }
    {
        let ticket = self.table.shared.fetch_add::<Take>(seat, 0, 1);
        self.wait(rt, seat, ticket);
        self.table.shared.exchange(seat, 0, None).unwrap()
    }

    // Publishes that the history is that of the value, which has so many entries more.
    fn publish<L: Told<T::Entry>>(&self, seat: &mut Seat<T>, value: &T, more: u64)
        requires own { seat.old.table_id ≡ self.now.table.shared.table_id }
        requires turn { HasTurn seat.old.me }
        requires extends { Extends (base_of seat.old.me.0.stage) (T.history value.now) }
        requires log { T.history value.now ≡ L.log }
        requires longer { length L.log ≡ length (base_of seat.old.me.0.stage) + more }
        ensures own { seat.new.table_id ≡ seat.old.table_id }
        ensures told { seat.new.me ≡ (told seat.old.me.0 (T.history value.now), seat.old.me.1) }
    {
        let _value = value;
        self.table.shared.fetch_add::<Publish<L>>(seat, 2, more);
    }

    /// Puts the value back, with at most one entry more than it had, and passes the turn on.
    pub fn leave(&self, seat: &mut Seat<T>, value: T)
        requires own { seat.old.table_id ≡ self.now.table.shared.table_id }
        requires turn { HasTurn seat.old.me }
        requires more { Extends (base_of seat.old.me.0.stage) (T.history value) }
        requires kept { T.kept value }
        ensures own { seat.new.table_id ≡ seat.old.table_id }
        ensures left { seat.new.me ≡ (after_turn seat.old.me.0 (T.history value), []) }
    {
        let count = self.table.shared.load::<Count>(seat, 2);
        let length = value.length();
        self.publish::<Brand>(seat, &value, length - count);
        drop(self.table.shared.exchange(seat, 0, Some(value)));
        let served = self.table.shared.fetch_add::<PassOn>(seat, 1, 1);
        // Whoever takes a ticket after this look finds its turn there at its first look.
        if self.table.shared.peek(0) != served.wrapping_add(1) {
            self.table.shared.wake_all(1);
        }
    }
}
