//! What a service may be founded with.
ghost use Rattle.std.specs.Prelude.{◌≡◌, ◌≤◌, ◌==◌, ◌↔◌, IsTrue, drop, length};
ghost use Rattle.std.specs.List.{list_all};
ghost use Rattle.deal_model.specs.Rules.{IsOwnKey, IsFounding};

use deal_answers::{levels_of, ots_of, tree_of};
use deal_model::Settings;

fn are_zeros(octets: &[u8]) -> bool
    ensures { result ≡ list_all (λ n. n == 0) octets.now }
{
    octets.iter().all(|n| *n == 0)
}

/// Whether only zeros stand behind the type codes of a key.
fn is_blank(key: &[u8]) -> bool
    requires { 12 ≤ length key.now }
    ensures { result ≡ list_all (λ n. n == 0) (drop 12 key.now) }
{
    are_zeros(&key[12..])
}

fn is_own_key(key: &[u8; 60]) -> bool
    ensures { IsTrue result ↔ IsOwnKey key.now }
{
    let tree = tree_of(key);
    let ots = ots_of(key);
    levels_of(key) == 1 && tree >= 5 && tree <= 7 && ots >= 1 && ots <= 4 && !is_blank(key)
}

/// Whether a service may be founded with these settings: keys of one level, and numbers within their ranges.
pub(crate) fn is_founding(s: &Settings) -> bool
    ensures { IsTrue result ↔ IsFounding s.now }
{
    is_own_key(&s.issue_key)
        && is_own_key(&s.reply_key)
        && s.wait >= 1
        && s.wait <= 604_800
        && s.skew <= 86_400
        && s.rounds >= 1
        && s.rounds <= 200_000
        && s.check_after >= 1
        && s.check_after <= 86_400
        && s.days >= 1
        && s.days <= 36_500
}
