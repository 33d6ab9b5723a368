//! The service as a pure machine, over crashes, doubts and signatures.
//!
//! A world is what stands on the disk, what is on its way there, and what has left the service. Its laws hold after every
//! list of steps. That the calls of the running service are such steps is not said here.
#![tactic(auto)]

mod first_world;
mod laws;
mod run;
mod signing;
mod steps;
#[cfg(test)]
mod tests;
mod world;

pub use first_world::founded;
pub use laws::every_world_is_safe;
pub use run::world_law;
pub use steps::apply;
pub use world::{Changes, Places, Signed, SignedList, Source, Step, World};
