//! HSS: LMS keys that sign one another, and the last one a text (RFC 8554, 6).
#![tactic(auto)]

pub use forms::{BadKey, BadSig, HssKey, HssSig, read_key, read_sig, valid_signatures_are_read};
pub use levels::hss_ok;
pub use one_level::{OneLevel, one_level_verifies, signatures_are_sized};
pub use signer::LeafSigner;

mod forms;
mod levels;
mod one_level;
mod signer;
mod sizes;
#[cfg(test)]
mod tests;
