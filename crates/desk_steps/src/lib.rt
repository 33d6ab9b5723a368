//! The calls of a desk are steps of the world.
#![tactic(auto)]

mod laws;

pub use laws::{calls_are_steps, openings_are_steps, shared_calls_are_steps, stops_are_steps};
