//! Laws of the journal's logs: an image recovers to one list of payloads at most, and one that recovers isn't damaged.
#![tactic(auto)]

ghost use Rattle.std.specs.Prelude.{◌≡◌, ℕ, List, length};
ghost use Rattle.journal_core.specs.Log.{Recovers, IsDamaged};

/// An image recovers to one list of payloads at most.
pub fn at_most_one_log()
    ensures { (magic image : List ℕ) (payloads others : List (List ℕ)) → Recovers magic image payloads → Recovers magic image others → payloads ≡ others }
{}

/// An image that recovers isn't damaged.
pub fn recovered_is_undamaged()
    ensures { (magic image : List ℕ) (payloads : List (List ℕ)) (at : ℕ) → length magic ≡ 7 → Recovers magic image payloads → IsDamaged magic image at → ⊥ }
{}

/// An image is damaged at one offset at most.
pub fn at_most_one_damage()
    ensures { (magic image : List ℕ) (at other : ℕ) → length magic ≡ 7 → IsDamaged magic image at → IsDamaged magic image other → at ≡ other }
{}
