//! Where changes stand in a history, when an event is, and whether there is room for a change. Places are counted from 1.
ghost use Rattle.std.specs.Prelude.{◌≡◌, ◌≤◌, length, IfSome};
ghost use Rattle.deal_model.specs.Views.{is_grant_for};
ghost use Rattle.deal_table.specs.History.{place_of, place_of_digest, event_time, is_full};

use deal_answers::{has_digest, is_grant_for};
use deal_model::{Change, MOST_CHANGES};
use deal_rules::{has_room, time_of};

/// The place of the change that the message with this digest made; none where it made none.
#[tactic(auto, unfolding(deal_table::specs::History::place_of_digest))]
pub fn place_of_digest(h: &[Change], digest: &[u8; 32]) -> Option<u64>
    requires { length h.now ≤ 262144 }
    ensures { result ≡ place_of_digest h.now digest.now }
{
    let mut rest = h;
    let mut place = 1;
    while let [first, more @ ..] = rest {
        if has_digest(digest, first) {
            return Some(place);
        }
        rest = more;
        place += 1;
    }
    None
}

/// The place of a transaction's Grant; none where there is none.
pub fn place_of_grant(h: &[Change], tid: &[u8]) -> Option<u64>
    requires { length h.now ≤ 262144 }
    ensures place { result ≡ place_of (is_grant_for tid.now) h.now }
    ensures within { IfSome result (λ place. (1 ≤ place) × (place ≤ length h.now)) }
{
    let mut rest = h;
    let mut place = 1;
    while let [first, more @ ..] = rest {
        if is_grant_for(tid, first) {
            return Some(place);
        }
        rest = more;
        place += 1;
    }
    None
}

/// The time of an event, in seconds since 1970: the clock's reading, or the time of the last change where that is later.
pub fn event_time(h: &[Change], now: u64) -> u64
    ensures { result ≡ event_time h.now now }
{
    now.max(time_of(h))
}

/// Whether there is no room for a change: 262,144 changes stand, or the log with this one would have more than 2^30 octets.
pub fn is_full(h: &[Change], c: &Change) -> bool
    ensures { result ≡ is_full h.now c.now }
{
    h.len() >= MOST_CHANGES || !has_room(h, c)
}
