//! One worker at its station, and how workers share their badges.
ghost use Rattle.std.specs.Prelude.{◌≡◌, ◌||◌, ◌∷◌, [], true, false};
ghost use Rattle.deal_model.specs.Views.{settings_of};
ghost use Rattle.deal_table.specs.History.{IsFounded};
ghost use Rattle.front.specs.Fronts.{replier_by};
ghost use Rattle.turnstile.specs.Steps.{Rests};
ghost use Rattle.turnstile.specs.Views.{one_less, one_more};
ghost use Rattle.workers.specs.Accounts.{AreAttended};
ghost use Rattle.workers.specs.Badges.{IsFresh, share_by, view_of};

use crate::account::Account;
use crate::crew::Crew;
use crate::doors::serve_door;
use crate::station::Station;
use crate::workers::Workers;
use atomic_table::Badge;
use clerk::SharedClerk;
use cmp_links::Door;
use cmp_ports::{Clock, Disk, Entropy, Gate};
use deal_model::Change;
use desk::Desk;
use front::Front;
use std::mem;
use std::sync::Wait;
use std::sync::atomic::Ordering;
use turnstile::Seat;
use turnstile::view::View;

/// Whether one of both is so.
fn either(one: bool, other: bool) -> bool
    ensures { result ≡ (one || other) }
{
    one || other
}

impl<'a, D: Disk + Drop, R: Wait> Workers<'a, D, R> {
    /// Serves the streams of a door by a seat: under the shared keys, over the history as the seat sees it, with this clock and this
    /// entropy.
    fn serve_at<S: Door, C: Clock, E: Entropy, G: Gate>(
        &self,
        seat: Seat<Desk<D>>,
        door: &mut S,
        clock: &mut C,
        entropy: &mut E,
        gate: &mut G,
    ) -> Account
        requires own { seat.table_id ≡ self.now.stile.now.table.shared.table_id }
        requires rests { Rests seat.me }
        requires unused { seat.me.0.mine ≡ [] }
        requires founded { IsFounded seat.me.0.seen }
        requires settings { settings_of seat.me.0.seen ≡ self.now.keys.now.settings }
        ensures { AreAttended S.Joined.Link S.Door C.Clock E.Entropy (replier_by self.now.keys.now) self.now.stile.now.table.shared.table_id self.now.count (seat.me.0 ∷ []) (record { door = door.old; clock = clock.old; entropy = entropy.old; gate = gate.old } ∷ []) (record { door = door.new; clock = clock.new; entropy = entropy.new; gate = gate.new } ∷ []) result }
    {
        let clerk = SharedClerk::new(self.rt, self.stile, seat);
        let mut front = Front::new(
            self.alloc,
            self.keys,
            clerk,
            &mut *clock,
            &mut *entropy,
            &mut *gate,
        );
        let tally = serve_door(self.alloc, &mut front, door, self.count);
        let (clerk, clock_back, entropy_back, _gate) = front.into_parts();
        let _read = clock_back;
        let _drawn = entropy_back;
        let (seat, marks) = clerk.shut();
        Account {
            badge: seat.into_badge(),
            entropy: tally.failures > marks.count(),
            marks,
            door: tally.door,
            memory: tally.memory,
        }
    }
}

impl<'a, D: Disk + Drop, R: Wait, S: Door, C: Clock, E: Entropy, G: Gate> Crew<
    Badge<View<Change>>,
    Station<S, C, E, G>,
    Account,
> for Workers<'a, D, R> {
    ghost use Rattle.std.specs.Prelude.{◌≡◌, ◌∷◌, []};
    ghost use Rattle.front.specs.Fronts.{replier_by};
    ghost use Rattle.turnstile.specs.Views.{one_less, one_more};
    ghost use Rattle.workers.specs.Accounts.{AreAttended};
    ghost use Rattle.workers.specs.Badges.{IsFresh, Splits, share_by};

    ghost good = { λ w b. IsFresh w.stile.now.table.shared.table_id w.keys.now.settings b.table_id b.views };

    ghost share = { λ _ b. share_by b.views };

    ghost splits = { λ _ whole own rest. Splits whole.views own.views rest.views };

    ghost accounts = { λ w b old new account. AreAttended S.Joined.Link S.Door C.Clock E.Entropy (replier_by w.keys.now) w.stile.now.table.shared.table_id w.count b.views old new account };

    fn attend(
        &self,
        badge: &mut Badge<View<Change>>,
        station: &mut Station<S, C, E, G>,
    ) -> Account {
        let badge = mem::replace(badge, Badge::blank());
        let account = self.serve_at(
            badge.into_seat(),
            &mut station.door,
            &mut station.clock,
            &mut station.entropy,
            &mut station.gate,
        );
        self.left.fetch_sub(1, Ordering::SeqCst);
        account
    }

    fn split(&self, badge: &mut Badge<View<Change>>) -> Badge<View<Change>> {
        let whole = mem::replace(badge, Badge::blank());
        let mut rest: Seat<Desk<D>> = whole.into_seat();
        let own = self.stile.split(&mut rest);
        *badge = rest.into_badge();
        own.into_badge()
    }

    fn join(&self, one: Account, others: Account) -> Account {
        let mut seat: Seat<Desk<D>> = one.badge.into_seat();
        let mut marks = one.marks;
        self.stile.join(&mut seat, others.badge.into_seat());
        marks.join(others.marks);
        Account {
            badge: seat.into_badge(),
            marks,
            door: either(one.door, others.door),
            entropy: either(one.entropy, others.entropy),
            memory: either(one.memory, others.memory),
        }
    }
}
