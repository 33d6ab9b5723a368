//! The messages that an authority answers with (RFC 9810, 5.3), and its own keys, grown from its key file, with the certificates
//! that it has under them.
#![tactic(auto)]

mod bodies;
mod certificates;
mod fields;
mod headers;
mod key_file;
mod keys;
mod message;
mod refusals;
mod sealing;
#[cfg(test)]
mod tests;
mod trees;

pub use key_file::KeyFault;
pub use keys::Keys;
pub use refusals::{Guard, refuse, refuse_as};
pub use sealing::{grant_hash, seal};
