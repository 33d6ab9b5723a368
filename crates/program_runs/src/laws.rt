//! The law, as the contract of a function that only cites others.
ghost use Rattle.program_runs.specs.Runs.{EveryRunIsAVisit};

use cmp_ports::{Clock, Disk, Entropy, Source};

/// Each run of the program, on a disk that tells what it holds, is a visit of the disk, with answers that are right by the history
/// which it goes on from. The premise is what the contract of `run_tool` says of the run. So `all_runs_have_one_history` speaks of
/// all runs of the program.
pub fn every_run_is_a_visit<D: Disk, S: Source, K: Source, C: Clock, E: Entropy>()
    ensures { EveryRunIsAVisit D.Disk S.faults K.faults E.faults C.readings E.draws }
{}
