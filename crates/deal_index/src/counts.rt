//! How many leaves the changes of a history use.
ghost use Rattle.std.specs.Prelude.{◌≡◌, ◌+◌, ◌<◌, ◌≤◌, ◌++◌, ◌∷◌, [], count_by, length, if◌then◌else◌};
ghost use Rattle.deal_model.specs.Views.{History, is_grant, has_leaf, leaves_used};

use deal_model::{Change, Key};

fn is_grant(c: &Change) -> bool
    ensures { result ≡ is_grant c.now }
{
    match c {
        Change::Grant { .. } => true,
        _ => false,
    }
}

fn has_leaf(c: &Change) -> bool
    ensures { result ≡ has_leaf c.now }
{
    match c.stamp() {
        Some(stamp) => stamp.leaf.is_some(),
        None => false,
    }
}

fn one_more(count: u64, passes: bool) -> u64
    requires { count < u64.MAX }
    ensures { result ≡ count + (if passes then 1 else 0) }
{
    if passes { count + 1 } else { count }
}

/// The Grants with one more change.
#[tactic(auto, using(crate::proofs::CountLemmas::counted))]
pub(crate) fn count_grants(count: u64, c: &Change) -> u64
    requires { count < u64.MAX }
    ensures { (h : History) → count ≡ count_by is_grant h → result ≡ count_by is_grant (h ++ c.now ∷ []) }
{
    one_more(count, is_grant(c))
}

/// The signed replies with one more change.
#[tactic(auto, using(crate::proofs::CountLemmas::counted))]
pub(crate) fn count_signed(count: u64, c: &Change) -> u64
    requires { count < u64.MAX }
    ensures { (h : History) → count ≡ count_by has_leaf h → result ≡ count_by has_leaf (h ++ c.now ∷ []) }
{
    one_more(count, has_leaf(c))
}

/// How many leaves of a key a history uses that has so many Grants and so many signed replies.
#[tactic(auto, using(crate::proofs::CountLemmas::within), unfolding(deal_model::specs::Views::leaves_used))]
pub(crate) fn leaves_used(changes: &[Change], grants: u64, signed: u64, key: Key) -> u64
    requires bound { length changes.now ≤ 262144 }
    requires grants { grants ≡ count_by is_grant changes.now }
    requires signed { signed ≡ count_by has_leaf changes.now }
    ensures { result ≡ leaves_used changes.now key }
{
    match key {
        Key::Issue => match changes {
            [] => 0,
            _ => 2 + grants,
        },
        Key::Reply => signed,
    }
}
