//! HMAC with SHA-256 (RFC 2104), as the two states that a key leaves.

ghost use Rattle.std.specs.Prelude.{◌≡◌, ℕ, List, ◌++◌, ◌-◌, ◌≤◌, length, replicate};
ghost use Rattle.hash_kit.specs.Hmac.{key_block, pad, hmac};
ghost use Rattle.hash_kit.specs.Keyed.{HasKey, padded};
ghost use Rattle.sha2.specs.Hashers.{Holds256};

use sha2::{Digest, Sha256};

/// The octets of a block of SHA-256.
const BLOCK: usize = 64;

/// What the key's block is combined with before the text (RFC 2104, 2).
const INNER_PAD: u8 = 0x36;

/// What the key's block is combined with before the text's digest (RFC 2104, 2).
const OUTER_PAD: u8 = 0x5c;

/// The states of both hashes once they have taken the key's block, so that a text under a key that was
/// used before costs no compression for the key.
#[derive(Drop)]
pub struct Keyed {
    inner: Sha256,
    outer: Sha256,
}

/// The octets in a block, and zeros after them.
fn filled(octets: &[u8]) -> [u8; 64]
    requires { length octets.now ≤ BLOCK }
    ensures { result ≡ octets.now ++ replicate (64 - length octets.now) 0 }
{
    let mut block = [0u8; BLOCK];
    block[..octets.len()].copy_from_slice(octets);
    block
}

/// The key in a block of 64 octets: the key itself or, where it is longer, its digest, and zeros.
fn block_of(key: &[u8]) -> [u8; 64]
    ensures { result ≡ key_block key.now }
{
    if key.len() > BLOCK {
        filled(&Sha256::digest(key))
    } else {
        filled(key)
    }
}

/// The block, each octet of it combined with this one by exclusive or.
#[tactic(auto, using(crate::proofs::BlockLemmas::is_padded))]
fn padded_block(block: &[u8; 64], octet: u8) -> [u8; 64]
    ensures { result ≡ padded octet block.now }
{
    let mut out = [0u8; BLOCK];
    for i in 0..BLOCK {
        out[i] = block[i] ^ octet;
    }
    out
}

/// A hasher in the same state.
fn copy_of(hasher: &Sha256) -> Sha256
    ensures { result ≡ hasher.now }
{
    match hasher.clone() {
        Ok(copy) => copy,
        Err(_) => unreachable!(),
    }
}

impl Keyed {
    /// The states that the key leaves.
    #[tactic(auto, unfolding(crate::specs::Hmac::pad))]
    pub fn new(key: &[u8]) -> Keyed
        ensures { HasKey result key.now }
    {
        let block = block_of(key);
        let mut inner = Sha256::new();
        inner.update(&padded_block(&block, INNER_PAD));
        let mut outer = Sha256::new();
        outer.update(&padded_block(&block, OUTER_PAD));
        Keyed { inner, outer }
    }

    /// The HMAC of `first` followed by `second`. It costs two compressions where they have at most 55
    /// octets together.
    pub fn mac(&self, first: &[u8], second: &[u8]) -> [u8; 32]
        ensures { (key : List ℕ) → HasKey self.now key → result ≡ hmac key (first.now ++ second.now) }
    {
        let mut inner = copy_of(&self.inner);
        inner.update(first);
        inner.update(second);
        let mut outer = copy_of(&self.outer);
        outer.update(&inner.finalize());
        outer.finalize()
    }
}

/// HMAC-SHA-256 of `first` followed by `second` under a key of any length (RFC 2104, 2).
pub fn hmac256(key: &[u8], first: &[u8], second: &[u8]) -> [u8; 32]
    ensures { result ≡ hmac key.now (first.now ++ second.now) }
{
    Keyed::new(key).mac(first, second)
}
