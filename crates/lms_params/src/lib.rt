//! The parameter sets of LM-OTS and LMS with SHA-256 (RFC 8554, 4.1 and 5.1), and the digits of a
//! hash with its checksum (RFC 8554, 3.1.3 and 4.4).
//!
//! A set is a type: [`Ots`] has the row of a one-time set as its const parameters, [`Tree`] the
//! height of a tree. [`with_ots!`] and [`with_tree!`] choose the type by a typecode, so what is
//! written and proved once over the type serves each set.
#![tactic(auto)]

pub use digits::{checksum, coef, with_checksum};
pub use sets::{Ots, Tree, ots_signature_size, tree_height};

mod digits;
mod sets;
#[cfg(test)]
mod tests;
