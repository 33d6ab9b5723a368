//! What holds after every list of steps.
ghost use Rattle.std.specs.Prelude.{List};
ghost use Rattle.world_core.specs.declared.world.World.{World};
ghost use Rattle.world_core.specs.declared.world.Step.{Step};
ghost use Rattle.world_core.specs.Steps.{founded, Leads, Run};
ghost use Rattle.world_core.specs.Safety.{Safe, Follows, SignedOnce};

use deal_model::{legal_histories, legal_histories_grow};

/// After every list of steps from the founded world on, the world is safe; each further step keeps what was acknowledged,
/// signed and sent; and each leaf of a key was signed with for one place.
pub fn every_world_is_safe()
    ensures safe { (steps : List Step) (w : World) → Run founded steps w → Safe w }
    ensures step { (steps : List Step) (w v : World) (s : Step) → Run founded steps w → Leads w s v
        → Follows w s v }
    ensures signed { (steps : List Step) (w : World) → Run founded steps w → SignedOnce w }
{
    legal_histories_grow();
    legal_histories();
}
