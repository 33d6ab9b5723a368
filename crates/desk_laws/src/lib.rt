//! A law of mounting: of one image at most one answer holds.
#![tactic(auto)]

ghost use Rattle.std.specs.Prelude.{◌≡◌, ℕ, List, Result};
ghost use Rattle.journal_core.specs.declared.fault.MountFault.{MountFault};
ghost use Rattle.deal_model.specs.Views.{History};
ghost use Rattle.desk_laws.specs.Answers.{Holds};

use journal_laws::{at_most_one_damage, at_most_one_log, recovered_is_undamaged};

/// At most one answer holds of an image: it isn't founded, or it is damaged at one offset, or one history stands in it.
pub fn at_most_one_answer()
    ensures { (image : List ℕ) (x y : Result History MountFault) → Holds image x → Holds image y → x ≡ y }
{
    at_most_one_log();
    recovered_is_undamaged();
    at_most_one_damage();
}
