//! How a message that was checked is decided.
ghost use Rattle.std.specs.Prelude.{◌≡◌, ◌≤◌, ℕ, List, false};
ghost use Rattle.deal_table.specs.Carry.{FitsChecked};
ghost use Rattle.deal_table.specs.History.{Begins};
ghost use Rattle.front.specs.Clerks.{clerked, IsLawful};
ghost use Rattle.front.specs.Courses.{IsDecided, IsCarried, IsTellable, IsRuled, is_stale};
ghost use Rattle.front.specs.Fronts.{replier_by, HasSettings};

use crate::asking::tell;
use cmp_ports::{Gate, Point};
use deal_model::Checked;
use desk::{Clerk, Verdict};
use reply_maker::Keys;
use std::alloc::Global;

/// The clerk's decision.
fn decision<K: Clerk, G: Gate>(
    clerk: &mut K,
    gate: &mut G,
    checked: &Checked<'_>,
    now: u64,
    words: &[u8; 32],
) -> Verdict
    requires clock { now ≤ 250_000_000_000 }
    requires fits { FitsChecked checked.now }
    ensures { IsDecided K.Clerk clerk.old clerk.new checked.now now words.now result }
{
    let verdict = clerk.decide(checked, now, words);
    gate.pass(Point::Decided);
    verdict
}

/// Decides a message once, with a certConf's hash compared before, where its transaction has a Grant.
fn attempt<K: Clerk, G: Gate>(
    alloc: Global,
    keys: &Keys,
    clerk: &mut K,
    gate: &mut G,
    checked: &mut Checked<'_>,
    now: u64,
    words: &[u8; 32],
) -> Verdict
    requires clock { now ≤ 250_000_000_000 }
    requires lawful { IsLawful (clerked K.Clerk clerk.old) }
    requires settings { HasSettings (K.seen clerk.old) keys.now.settings }
    requires fits { FitsChecked checked.old }
    ensures ruled { (b : List ℕ) → IsCarried (replier_by keys.now) b (K.seen clerk.old) checked.old → IsRuled K.Clerk (replier_by keys.now) b clerk.old clerk.new now words.now checked.new result }
    ensures told { (b : List ℕ) → IsCarried (replier_by keys.now) b (K.seen clerk.old) checked.old → IsTellable (K.seen clerk.old) checked.old → is_stale result ≡ false }
    ensures lawful { IsLawful (clerked K.Clerk clerk.new) }
    ensures grown { Begins (K.seen clerk.old) (K.seen clerk.new) }
    ensures fits { FitsChecked checked.new }
{
    match tell(alloc, keys, clerk, checked) {
        Ok(()) => decision(clerk, gate, checked, now, words),
        Err(_) => Verdict::NoMemory,
    }
}

/// Decides a message, and once more where a Grant came meanwhile that its certConf's hash has to be compared with.
pub(crate) fn decide<K: Clerk, G: Gate>(
    alloc: Global,
    keys: &Keys,
    clerk: &mut K,
    gate: &mut G,
    checked: &mut Checked<'_>,
    now: u64,
    words: &[u8; 32],
) -> Verdict
    requires clock { now ≤ 250_000_000_000 }
    requires lawful { IsLawful (clerked K.Clerk clerk.old) }
    requires settings { HasSettings (K.seen clerk.old) keys.now.settings }
    requires fits { FitsChecked checked.old }
    ensures ruled { (b : List ℕ) → IsCarried (replier_by keys.now) b (K.seen clerk.old) checked.old → IsRuled K.Clerk (replier_by keys.now) b clerk.old clerk.new now words.now checked.new result }
    ensures told { (b : List ℕ) → IsCarried (replier_by keys.now) b (K.seen clerk.old) checked.old → is_stale result ≡ false }
{
    match attempt(alloc, keys, clerk, gate, checked, now, words) {
        Verdict::Stale { .. } => attempt(alloc, keys, clerk, gate, checked, now, words),
        verdict => verdict,
    }
}
