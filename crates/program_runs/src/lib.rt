//! Each run of the program is a visit of its disk, and all runs on one disk have one history.
#![tactic(auto)]

mod all;
mod laws;
mod program;

pub use all::all_program_runs_have_one_history;
pub use laws::every_run_is_a_visit;
pub use program::run_program;
