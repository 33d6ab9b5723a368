//! A law of octets: they are one message at most, so that two readers of them can't differ.
#![tactic(auto)]

mod laws;

pub use laws::octets_are_one_message;
