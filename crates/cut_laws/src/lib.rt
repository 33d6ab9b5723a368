//! A law of octets: what is left of a message that is cut off is none, and no reader takes it for one.
#![tactic(auto)]

mod laws;

pub use laws::cut_is_neither;
