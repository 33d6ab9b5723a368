//! Messages of many blocks, four of one length side by side (FIPS 180-4, 6.2.2).
ghost use Rattle.std.specs.Prelude.{◌≡◌, ℕ, ◌+◌, ◌*◌, ◌<◌, ◌≤◌, List, [], drop, length, slice_index_or, take};
ghost use Rattle.sha2.specs.Sha256.{compress, padded_message, sha256};
ghost use Rattle.sha_lanes.specs.Lanes.{lane};

use crate::blocks::{block_words, initial_hash, value_octets};
use crate::compress::compress4;
use std::simd::u32x4;

// Block `t` of a padded message.
fn block_at(padded: &[u8], t: usize) -> [u8; 64]
    requires { 64 * t + 64 ≤ length padded.now }
    ensures { result ≡ take 64 (drop (t * 64) padded.now) }
{
    let mut block = [0u8; 64];
    block.copy_from_slice(&padded[64 * t..64 * t + 64]);
    block
}

// Block `t` of four padded messages.
fn blocks_at<const N: usize>(padded: &[[u8; N]; 4], t: usize) -> [[u8; 64]; 4]
    requires { 64 * t + 64 ≤ N }
    ensures { (i : ℕ) → i < 4 → slice_index_or result i [] ≡ take 64 (drop (t * 64) (slice_index_or padded.now i [])) }
{
    [
        block_at(&padded[0], t),
        block_at(&padded[1], t),
        block_at(&padded[2], t),
        block_at(&padded[3], t),
    ]
}

// The hash values after one block more.
fn absorb(state: [u32x4; 8], blocks: &[[u8; 64]; 4]) -> [u32x4; 8]
    ensures { (i : ℕ) → i < 4 → lane i result ≡ compress (lane i state) (slice_index_or blocks.now i []) }
{
    compress4(state, &block_words(blocks))
}

/// The digests of four messages of one length, each of which stands with its padding (FIPS 180-4, 5.1.1) in `count`
/// blocks of 64 octets. Octets behind them are not read.
pub fn hash_padded4<const N: usize>(padded: &[[u8; N]; 4], count: usize) -> [[u8; 32]; 4]
    requires { 64 * count ≤ N }
    ensures { (i : ℕ) (m : List ℕ) → i < 4 → length (padded_message m) ≡ 64 * count
        → take (64 * count) (slice_index_or padded.now i []) ≡ padded_message m → slice_index_or result i [] ≡ sha256 m }
{
    let mut state = initial_hash();
    for t in 0..count {
        let next = absorb(state, &blocks_at(padded, t));
        state = next;
    }
    value_octets(&state)
}
