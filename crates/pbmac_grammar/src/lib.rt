//! How PBMAC1 is spelled as an AlgorithmIdentifier, and the laws that its readers accept exactly that.
#![tactic(auto)]

mod laws;

pub use laws::{algorithm_is_spelled, params_are_one, params_are_spelled};
