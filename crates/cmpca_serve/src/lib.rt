//! Serving: what the words ask for, over any disk, doors, orders, clocks and entropies.
#![tactic(auto)]

mod behind;
mod beside;
mod closing;
mod laws;
mod serving;
mod summary;
mod trouble;
mod words;

pub use laws::{orders_are_obeyed, rounds_tell_a_run, sessions_make_no_orders};
pub use serving::run_serve;
pub use words::{ServePlan, read_serve};
