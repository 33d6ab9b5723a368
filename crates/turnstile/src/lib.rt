//! A turnstile: one value that many threads change in turn, known by one history.
//!
//! The value is a `Chronicle`, which is known by the list of its entries. Each thread has a `Seat`, enters with it, is given
//! the value, and leaves it with at most one entry more. A seat remembers the history that it has seen and the places that
//! its own turns added, so that what a thread proves of its own turns holds of the one history that all threads share.
//!
//! A turn is a walk: take a ticket, look at the ticket that is served until it is the own one, take the value out, work,
//! publish the length, put the value back, pass the turn on. `specs/TurnRule.antt` says what holds between any two steps.
#![tactic(auto)]

pub use chronicle::Chronicle;
pub use rule::Seat;
pub use turnstile::{NoMemory, Turnstile};

mod chronicle;
mod plays;
mod rule;
#[cfg(test)]
mod tests;
mod turn;
mod turnstile;
pub mod view;
