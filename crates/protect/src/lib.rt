//! The protection of CMP messages (RFC 9810, 5.1.3), by PBMAC1 under a shared secret or by HSS/LMS, checked and made.
#![tactic(auto)]

mod algorithm;
mod check;
mod fault;
mod header;
mod how;
mod key;
mod laws;
#[cfg(test)]
mod tests;
mod unsigned;
mod write;

pub use check::protection_ok;
pub use fault::CheckFault;
pub use how::How;
pub use key::Key;
pub use laws::{messages_are_checked, protected_is_read_back};
pub use unsigned::{Unsigned, to_sign, with_sig};
pub use write::protect_with;
