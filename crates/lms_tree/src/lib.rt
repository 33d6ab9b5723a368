//! LMS: the keys of a tree of one-time keys, for each pair of parameter sets (RFC 8554, 5).
//!
//! A [`TreeKey`] keeps all nodes of its tree, so a signature takes one one-time signature and a
//! copy of its path. It is a function of the seed, the identifier, the sets, the leaf's number and
//! the text. No call here keeps count of the leaves: one leaf must never sign two texts
//! (RFC 8554, 9.2).
#![tactic(auto)]

pub use key::{GrowFault, Set, TreeKey};
pub use verifier::{signatures_verify, verify};

mod hash;
mod key;
mod nodes;
mod path;
mod public;
mod sign;
#[cfg(test)]
mod tests;
mod verifier;
