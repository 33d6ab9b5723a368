//! Laws of what an authority signs: which text each leaf of its two keys signs, that no leaf of a key signs two, and that all that
//! it sends out signed is among these texts. They are the contracts of functions that do nothing.
#![tactic(auto)]

ghost use Rattle.std.specs.Prelude.{ℕ, List};
ghost use Rattle.deal_model.specs.Views.{History};
ghost use Rattle.deal_model.specs.Rules.{Legal};
ghost use Rattle.reply_maker.specs.Replies.{Replier};
ghost use Rattle.world_core.specs.declared.world.World.{World};
ghost use Rattle.world_core.specs.declared.world.Step.{Step};
ghost use Rattle.world_core.specs.Steps.{founded, Run};
ghost use Rattle.signed_texts.specs.Laws.{EachLeafOneText, OwnAreSigned, GrantedAreSigned, RepliesAreSigned, AllHaveTexts, OneTextEach, SignedStays, SettingsStay};

/// In a legal history no leaf of a key stands twice among the texts.
pub fn each_leaf_has_one_text()
    ensures { (k : Replier) (h : History) → Legal h → EachLeafOneText k h }
{}

/// The authority's own certificates, those that it grants and its signed replies have the signatures of these texts, each by its
/// leaf, for the place of the change.
pub fn what_is_sent_is_signed_so()
    ensures own { (file : List ℕ) (h : History) → Legal h → OwnAreSigned file h }
    ensures granted { (file : List ℕ) (h : History) → GrantedAreSigned file h }
    ensures replies { (file : List ℕ) (h : History) → RepliesAreSigned file h }
{}

/// Over all runs of the world, crashes and reopenings among them: each leaf that was signed with has a text, no leaf of a key gets
/// another in a later world, and what was signed stays so, and the settings with it.
pub fn every_run_signs_one_text()
    ensures texts { (k : Replier) (steps : List Step) (w : World) → Run founded steps w → AllHaveTexts k w }
    ensures once { (k : Replier) (steps more : List Step) (w v : World) → Run founded steps w → Run w more v
        → OneTextEach k w v }
    ensures stays { (k : Replier) (steps more : List Step) (w v : World) → Run founded steps w → Run w more v
        → SignedStays k w v }
    ensures settings { (steps more : List Step) (w v : World) → Run founded steps w → Run w more v → SettingsStay w v }
{}
