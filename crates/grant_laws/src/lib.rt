//! A law of the table: what a certificate is granted on, or a request for one held.
#![tactic(auto)]

mod laws;

pub use laws::grants_only_on_proof;
