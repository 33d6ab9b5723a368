//! Laws of rounds, the contracts of functions that do nothing.
ghost use Rattle.std.specs.Prelude.{◌≡◌, ◌≤◌, ℕ, List, [], ◌++◌, length, Option, None};
ghost use Rattle.cmp_ports.specs.declared.order.Order.{Order};
ghost use Rattle.deal_model.specs.Views.{History};
ghost use Rattle.deal_table.specs.History.{Begins};
ghost use Rattle.rounds.specs.declared.round.Round.{Round};
ghost use Rattle.rounds.specs.Deeds.{Deed, AreDeeds};
ghost use Rattle.rounds.specs.Rounds.{Accounts, Sight, IsRound, none_yet, both};

/// What was done to a history is told of each later one too, and what was done later to that one may follow it.
pub fn deeds_stay()
    ensures later { (h g : History) (floor : ℕ) (deeds : List Deed) → AreDeeds h floor deeds → Begins h g → AreDeeds g floor deeds }
    ensures sooner { (h : History) (least floor : ℕ) (deeds : List Deed) → AreDeeds h floor deeds → least ≤ floor → AreDeeds h least deeds }
    ensures joined { (h g : History) (floor middle : ℕ) (deeds more : List Deed) → AreDeeds h floor deeds → Begins h g → length h ≤ middle → AreDeeds g middle more → AreDeeds g floor (deeds ++ more) }
{}

/// Nothing at all is a round, and two rounds are one, where the first one came to its end.
pub fn rounds_follow()
    ensures none { (at : Sight) → IsRound at at none_yet }
    ensures both { (old mid new : Sight) (a b : Round) → a.stop ≡ None → Begins mid.seen new.seen → IsRound old mid a → IsRound mid new b → IsRound old new (both a b) }
    // the second one may be another clerk's, and begin later
    ensures apart { (h0 h g0 g : History) (taken more : List Order) (readings later places others : List ℕ) (a b : Round) → a.stop ≡ None → Begins h g0 → Begins g0 g → Accounts h0 h taken readings places a → Accounts g0 g more later others b → Accounts h0 g (taken ++ more) (readings ++ later) (places ++ others) (both a b) }
{}
