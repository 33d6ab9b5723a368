//! Workers: each serves the streams of a door of its own, over one history that they share; and what no message asks for.
#![tactic(auto)]

mod account;
mod attending;
mod crew;
mod doors;
mod station;
mod tally;
mod upkeep;
mod workers;

pub use account::Account;
pub use crew::{Crew, work_all};
pub use station::Station;
pub use upkeep::{Upkeep, keep_up_by};
pub use workers::Workers;
