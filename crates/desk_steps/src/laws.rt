//! The laws, as the contracts of functions that do nothing.
ghost use Rattle.desk_steps.specs.Calls.{LookedIsSteps, DecidedIsSteps, LapsedIsSteps, OrderedIsSteps, EnlistedIsSteps, DismissedIsSteps, StopIsSteps};
ghost use Rattle.desk_steps.specs.Openings.{FoundIsSteps, FirstMountIsSteps, MountIsSteps, RemountIsSteps, DecideStops, LapseStops, OrderStops, EnlistStops, DismissStops, IdleStops};
ghost use Rattle.desk_steps.specs.Shared.{SharedDecidedIsSteps, SharedMakesIsSteps, SharedLapsedIsSteps, SharedOrderedIsSteps};

use deal_model::legal_histories_grow;
use desk_laws::at_most_one_answer;

/// Each call of a desk, however it ends, is a list of steps of the world, which leads from the history and the doubt before it
/// to those after it; nothing is signed or sent by it. The premise is what the contract of the call says of its end. A stop
/// inside a call leaves on the disk what a stop inside such steps leaves.
pub fn calls_are_steps()
    ensures looked { LookedIsSteps }
    ensures decided { DecidedIsSteps }
    ensures lapsed { LapsedIsSteps }
    ensures ordered { OrderedIsSteps }
    ensures enlisted { EnlistedIsSteps }
    ensures dismissed { DismissedIsSteps }
    ensures stop { StopIsSteps }
{}

/// A founding is the step with which the world begins; where none answered Ok, the first mount is. Each later mount stops the
/// service where it still runs, with what was in doubt kept or lost as the mount finds it, and starts it again. The premises are
/// what the contracts of `found` and `mount` say of the disk's content.
pub fn openings_are_steps()
    ensures found { FoundIsSteps }
    ensures first { FirstMountIsSteps }
    ensures mounted { MountIsSteps }
    ensures remounted { RemountIsSteps }
{
    at_most_one_answer();
    legal_histories_grow();
}

/// Each image that a stop inside a call may leave, as the call's contract has it, recovers to the history of a service that was
/// stopped inside the call's steps; between calls, and inside one that only reads, of one that was stopped with no step done.
pub fn stops_are_steps()
    ensures decide { DecideStops }
    ensures lapse { LapseStops }
    ensures order { OrderStops }
    ensures enlist { EnlistStops }
    ensures dismiss { DismissStops }
    ensures idle { IdleStops }
{
    legal_histories_grow();
}

/// The calls of a clerk that shares its desk, by what the contract of a clerk says of each of their ends.
pub fn shared_calls_are_steps()
    ensures decided { SharedDecidedIsSteps }
    ensures makes { SharedMakesIsSteps }
    ensures lapsed { SharedLapsedIsSteps }
    ensures ordered { SharedOrderedIsSteps }
{}
