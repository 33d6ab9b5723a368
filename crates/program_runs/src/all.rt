//! The law of all runs of the program, as the contract of a function that only cites others.
ghost use Rattle.program_runs.specs.All.{AllProgramRunsHaveOneHistory};

use crate::laws::every_run_is_a_visit;
use cmp_ports::{Clock, Disk, Entropy, Source};
use one_history::all_runs_have_one_history;

/// All runs of the program on one disk have one history, whatever they were asked, whatever failed, and wherever the machine
/// stopped. Take any runs, one after the other, on a disk where no service was founded, and which tells what it holds before each;
/// of each run nothing is taken but what the contract of `run_tool` says. They are visits of the disk, with answers that are right
/// by the history which each goes on from; and behind each that found a history and came to the end of its work, the visits up to
/// it have one history (RFC 9810, 5.1.3, 5.2.8 and 5.3.4; RFC 8554, 9.2).
pub fn all_program_runs_have_one_history<D: Disk, S: Source, K: Source, C: Clock, E: Entropy>()
    ensures { AllProgramRunsHaveOneHistory
        D.Disk
        (record { input_faults = S.faults; key_faults = K.faults; entropy_faults = E.faults; readings = C.readings; draws = E.draws }) }
{
    every_run_is_a_visit::<D, S, K, C, E>();
    all_runs_have_one_history::<D>();
}
