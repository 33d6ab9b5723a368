//! Rounds of the operator's orders and of what lapses, over any clerk.
#![tactic(auto)]

mod lapses;
mod laws;
mod orders;
mod round;
mod turns;

pub use lapses::{lapse_all, lapse_due};
pub use laws::{deeds_stay, rounds_follow};
pub use orders::take_orders;
pub use round::{Round, Stop};
pub use turns::{work_last, work_once};
