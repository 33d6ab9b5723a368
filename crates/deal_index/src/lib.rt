//! A history with an index: what stands where, by what is asked.
#![tactic(auto)]

mod counts;
mod history;
mod identifier;
mod notes;
mod question;

pub use history::IndexedHistory;
pub use identifier::Identifier;
pub use question::{CertificateDeed, CredentialDeed, DealDeed, Question};
