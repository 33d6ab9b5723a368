//! The compression of SHA-256 (FIPS 180-4, 6.2.2) on four independent blocks at once, one in each lane of 128-bit vectors.
//!
//! It is for many short hashes that do not wait for each other. A single message is hashed by the crate sha2, whose own
//! words say here what each lane has.
#![tactic(auto)]

pub use blocks::{digest_blocks, hash4, one_block, value_octets, value_words};
pub use compress::compress4;
pub use long::hash_padded4;
pub use parts::{choose, digest_parts, first_rounds, front_words};

mod blocks;
mod compress;
mod constants;
mod long;
mod parts;
mod rounds;
#[cfg(test)]
mod tests;
mod words;
