//! All runs on one disk have one history.
#![tactic(auto)]

mod laws;

pub use laws::all_runs_have_one_history;
