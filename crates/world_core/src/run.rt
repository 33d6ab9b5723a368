//! Runs of steps.
ghost use Rattle.std.specs.Prelude.{IfOk};
ghost use Rattle.deal_model.specs.Views.{AreTimely};
ghost use Rattle.world_core.specs.Steps.{founded, Run};
ghost use Rattle.world_core.specs.Safety.{Safe, SignedOnce};

use crate::first_world::founded;
use crate::laws::every_world_is_safe;
use crate::steps::apply;
use crate::world::{Step, World};
use std::alloc::{AllocError, Global};

/// The world that the steps leave, from the founded one on. It is safe, each leaf of a key was signed with for one
/// place, and its history is as `apply` asks. `AllocError` where memory runs out.
pub fn world_law(alloc: Global, steps: &[Step]) -> Result<World, AllocError>
    ensures run { IfOk result (Run founded steps.now) }
    ensures safe { IfOk result Safe }
    ensures signed { IfOk result SignedOnce }
    ensures timely { IfOk result (λ w. AreTimely w.durable) }
{
    every_world_is_safe();
    let mut w = founded(alloc)?;
    for step in steps {
        let _ = apply(alloc, &mut w, step)?;
    }
    Ok(w)
}
