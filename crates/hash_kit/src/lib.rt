//! Keyed hashing over SHA-256: HMAC (RFC 2104), the comparison of two MACs, and PBKDF2 for one block of 32 octets (RFC 8018, 5.2).
//!
//! SHA-256 itself is the crate `sha2`'s. No call allocates or fails.
#![tactic(auto)]

pub use compare::is_mac;
pub use keyed::hmac256;
pub use password::pbkdf2_256;

mod compare;
mod keyed;
mod password;
#[cfg(test)]
mod tests;
