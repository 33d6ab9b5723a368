//! One history for all seats: a desk behind a turnstile, which each seat asks in turn.
//!
//! Each thread has a `SharedClerk` with a seat of its own. What its seat has seen only grows, each answer is about the history that
//! it has seen after the call, and between two calls it holds no turn.
#![tactic(auto)]

mod shared;

pub use shared::SharedClerk;

#[cfg(test)]
mod tests;
