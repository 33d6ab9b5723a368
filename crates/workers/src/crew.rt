//! A crew that works at stations side by side, each station in a thread of its own.
ghost use Rattle.std.specs.Prelude.{◌≡◌, ◌+◌, ◌<◌, ℕ, List, [], ◌∷◌, ◌++◌, length};
ghost use Rattle.std.specs.Thread.{IsSync, IsSend};

use std::thread::{Threads, join_mut};

/// Who works at stations `S`: each by a badge `B`, which counts for some stations, and with an account `A` of it at the end.
pub trait Crew<B, S, A> {
    /// The badge is good at this crew's place.
    ghost good: { Self → B → Type 0 };

    /// For how many stations the badge counts.
    ghost share: { Self → B → ℕ };

    /// A badge was split into another and what was left of it.
    ghost splits: { Self → B → B → B → Type 0 };

    /// By this badge these stations became those, and the account is of that.
    ghost accounts: { Self → B → List S → List S → A → Type 0 };

    /// Works at one station. What is left in the place of the badge is none.
    fn attend(&self, badge: &mut B, station: &mut S) -> A
        requires good { good self.now badge.old }
        requires one { share self.now badge.old ≡ 1 }
        ensures { accounts self.now badge.old (station.old ∷ []) (station.new ∷ []) result };

    /// Splits a badge for one station off.
    fn split(&self, badge: &mut B) -> B
        requires good { good self.now badge.old }
        requires more { 1 < share self.now badge.old }
        ensures one { good self.now result × (share self.now result ≡ 1) }
        ensures others { good self.now badge.new × (1 + share self.now badge.new ≡ share self.now badge.old) }
        ensures splits { splits self.now badge.old result badge.new };

    /// The account of all, from those of two badges of which one was split off the other.
    fn join(&self, one: A, others: A) -> A
        requires { (whole own rest : B) × (front front' back back' : List S) × splits self.now whole own rest × accounts self.now own front front' one × accounts self.now rest back back' others }
        ensures { (whole own rest : B) (front front' back back' : List S) → splits self.now whole own rest → accounts self.now own front front' one → accounts self.now rest back back' others → accounts self.now whole (front ++ back) (front' ++ back') result };
}

fn work_first<B, S, A, C: Crew<B, S, A>>(crew: &C, badge: &mut B, stations: &mut [S]) -> A
    requires one { length stations.old ≡ 1 }
    requires badge { C.good crew.now badge.old × (C.share crew.now badge.old ≡ 1) }
    ensures { C.accounts crew.now badge.old stations.old stations.new result }
{
    crew.attend(badge, &mut stations[0])
}

/// Works at all of the stations, side by side.
#[cycle(halves)]
pub fn work_all<B: Send + Drop, S: Send, A: Send, C: Crew<B, S, A> + Sync, R: Threads + Sync>(
    rt: &R,
    crew: &C,
    badge: &mut B,
    stations: &mut [S],
) -> A
    requires some { 0 < length stations.old }
    requires badge { C.good crew.now badge.old × (C.share crew.now badge.old ≡ (length stations.old)) }
    ensures { C.accounts crew.now badge.old stations.old stations.new result }
{
    if stations.len() < 2 {
        return work_first(crew, badge, stations);
    }
    let mut own = crew.split(badge);
    let (front, back) = stations.split_at_mut(1);
    let (one, others) = both(rt, crew, &mut own, front, badge, back);
    crew.join(one, others)
}

// A separate function, so that what the closures require is what this function is given.
#[cycle(halves)]
fn both<B: Send + Drop, S: Send, A: Send, C: Crew<B, S, A> + Sync, R: Threads + Sync>(
    rt: &R,
    crew: &C,
    own: &mut B,
    front: &mut [S],
    rest: &mut B,
    back: &mut [S],
) -> (A, A)
    requires front { (0 < length front.old) × C.good crew.now own.old × (C.share crew.now own.old ≡ (length front.old)) }
    requires back { (0 < length back.old) × C.good crew.now rest.old × (C.share crew.now rest.old ≡ (length back.old)) }
    ensures front { C.accounts crew.now own.old front.old front.new result.0 }
    ensures back { C.accounts crew.now rest.old back.old back.new result.1 }
{
    let mut at_front = || -> A
        requires { IsSync R.row × IsSync C.row × IsSend B.row × IsSend S.row × IsSend A.row × (0 < length front.now) × C.good crew.now own.now × (C.share crew.now own.now ≡ (length front.now)) }
        ensures { C.accounts crew.entry.now own.entry.now front.entry.now front.exit.now result }
    { work_all(rt, crew, own, front) };
    let mut at_back = || -> A
        requires { IsSync R.row × IsSync C.row × IsSend B.row × IsSend S.row × IsSend A.row × (0 < length back.now) × C.good crew.now rest.now × (C.share crew.now rest.now ≡ (length back.now)) }
        ensures { C.accounts crew.entry.now rest.entry.now back.entry.now back.exit.now result }
    { work_all(rt, crew, rest, back) };
    join_mut(rt, &mut at_front, &mut at_back)
}
