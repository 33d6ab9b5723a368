//! A reply that is sealed and written is steps of the world.
#![tactic(auto)]

mod laws;

pub use laws::replies_are_steps;
