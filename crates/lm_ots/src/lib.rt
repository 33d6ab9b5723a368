//! One-time signatures: LM-OTS with SHA-256, for each parameter set (RFC 8554, 4).
//!
//! A private key is a seed, an identifier and a number `q`; each of its values is a hash of the
//! three (RFC 8554, appendix A), and so is the randomizer of a signature. So keys and signatures
//! are functions of the [`KeyPart`], of `q` and of the text. Whoever signs two texts with one `q`
//! gives the key away: no call here keeps count.
#![tactic(auto)]

pub use four_keys::public_hashes_in;
pub use key::{KeyPart, public_hash, public_hash_in};
pub use message::opened;
pub use signature::{
    SignFault, candidate, candidate_in_set, recovered_hash, sign_ots, sign_ots_in,
    signature_leads_to_key,
};

mod all;
mod chain;
mod four;
mod four_keys;
mod key;
mod message;
mod signature;
#[cfg(test)]
mod tests;
