//! Two-way streams and the doors that accept them, as traits whose contracts count the faults of the object behind them, with both in
//! memory; and how a session over a stream ended, with what is noted of its answers.
#![tactic(auto)]

mod calls;
mod door;
mod end;
mod link;
mod mem_door;
mod mem_link;
mod notes;
#[cfg(test)]
mod tests;

pub use door::Door;
pub use end::{EndCause, SessionEnd};
pub use link::Link;
pub use mem_door::{Accepted, Finished, MemDoor};
pub use mem_link::MemLink;
pub use notes::Notes;
