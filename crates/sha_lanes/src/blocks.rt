//! Messages of 55 octets, each of which fills one block of SHA-256 with its padding (FIPS 180-4, 5.1.1).
ghost use Rattle.std.specs.Prelude.{◌≡◌, ℕ, ◌+◌, ◌*◌, ◌<◌, ◌≤◌, ◌++◌, List, [], length, slice_index, slice_index_or};
ghost use Rattle.sha2.specs.Sha256.{sha256, digest_bytes, first_words, initial_hash_256, padding, word_at};
ghost use Rattle.sha_lanes.specs.Blocks.{IsBlockOf, OneBlock};
ghost use Rattle.sha_lanes.specs.Lanes.{lane};

use crate::compress::compress4;
use crate::constants::INITIAL_HASH;
use std::simd::u32x4;

/// A message of 55 octets is hashed by one compression.
pub fn one_block()
    ensures { OneBlock }
{}

// The initial hash value in each lane (FIPS 180-4, 5.3.3).
#[inline(always)]
pub(crate) fn initial_hash() -> [u32x4; 8]
    ensures { (i : ℕ) → i < 4 → lane i result ≡ initial_hash_256 }
{
    let [a, b, c, d, e, f, g, h] = INITIAL_HASH;
    [
        u32x4::splat(a),
        u32x4::splat(b),
        u32x4::splat(c),
        u32x4::splat(d),
        u32x4::splat(e),
        u32x4::splat(f),
        u32x4::splat(g),
        u32x4::splat(h),
    ]
}

/// The digests of four messages of 55 octets, each of which is given by the 16 words of its block, high octet first.
/// A digest is given by its 8 words.
pub fn digest_blocks(words: &[u32x4; 16]) -> [u32x4; 8]
    ensures { (i : ℕ) (m : List ℕ) → i < 4 → IsBlockOf m (lane i words.now)
        → digest_bytes (lane i result) 8 ≡ sha256 m }
{
    compress4(initial_hash(), words)
}

// A message with its padding.
fn padded(message: &[u8; 55]) -> [u8; 64]
    ensures { result ≡ message.now ++ padding 55 }
{
    let mut block = [0u8; 64];
    block[..55].copy_from_slice(message);
    block[55..].copy_from_slice(&PADDING);
    block
}

// A bit 1, zeros to the length field, and the length, 440 bits.
const PADDING: [u8; 9] = [0x80, 0, 0, 0, 0, 0, 0, 0x01, 0xb8];

// The word at octet `at`.
pub(crate) fn word(octets: &[u8], at: usize) -> u32
    requires { at + 4 ≤ length octets.now }
    ensures { result ≡ word_at octets.now at }
{
    u32::from_be_bytes([octets[at], octets[at + 1], octets[at + 2], octets[at + 3]])
}

// Word `t` of four blocks.
#[inline(always)]
fn words_at(blocks: &[[u8; 64]; 4], t: usize) -> u32x4
    requires { t < 16 }
    ensures { (i : ℕ) → i < 4 → slice_index result i ≡ word_at (slice_index_or blocks.now i []) (4 * t) }
{
    u32x4::from_array([
        word(&blocks[0], 4 * t),
        word(&blocks[1], 4 * t),
        word(&blocks[2], 4 * t),
        word(&blocks[3], 4 * t),
    ])
}

// The words of four blocks.
pub(crate) fn block_words(blocks: &[[u8; 64]; 4]) -> [u32x4; 16]
    ensures { (i : ℕ) → i < 4 → lane i result ≡ first_words (slice_index_or blocks.now i []) 16 }
{
    let mut words = [u32x4::splat(0); 16];
    'words: for t in 0..16 {
        words[t] = words_at(blocks, t);
    }
    words
}

// The words of a value.
fn words_of(value: &[u8; 32]) -> [u32; 8]
    ensures { digest_bytes result 8 ≡ value.now }
{
    [
        word(value, 0),
        word(value, 4),
        word(value, 8),
        word(value, 12),
        word(value, 16),
        word(value, 20),
        word(value, 24),
        word(value, 28),
    ]
}

// Four lists of words side by side.
fn side_by_side(a: &[u32; 8], b: &[u32; 8], c: &[u32; 8], d: &[u32; 8]) -> [u32x4; 8]
    ensures first { lane 0 result ≡ a.now }
    ensures second { lane 1 result ≡ b.now }
    ensures third { lane 2 result ≡ c.now }
    ensures fourth { lane 3 result ≡ d.now }
{
    [
        u32x4::from_array([a[0], b[0], c[0], d[0]]),
        u32x4::from_array([a[1], b[1], c[1], d[1]]),
        u32x4::from_array([a[2], b[2], c[2], d[2]]),
        u32x4::from_array([a[3], b[3], c[3], d[3]]),
        u32x4::from_array([a[4], b[4], c[4], d[4]]),
        u32x4::from_array([a[5], b[5], c[5], d[5]]),
        u32x4::from_array([a[6], b[6], c[6], d[6]]),
        u32x4::from_array([a[7], b[7], c[7], d[7]]),
    ]
}

/// The words of four values of 32 octets, high octet first.
pub fn value_words(values: &[[u8; 32]; 4]) -> [u32x4; 8]
    ensures { (i : ℕ) → i < 4 → digest_bytes (lane i result) 8 ≡ slice_index_or values.now i [] }
{
    side_by_side(
        &words_of(&values[0]),
        &words_of(&values[1]),
        &words_of(&values[2]),
        &words_of(&values[3]),
    )
}

// Word `t` of lane `i`.
fn lane_word(words: &[u32x4; 8], i: usize, t: usize) -> u32
    requires { (i < 4) × (t < 8) }
    ensures { result ≡ slice_index (lane i words.now) t }
{
    words[t].as_array()[i]
}

// The octets of the 8 words of one lane.
fn lane_octets(words: &[u32x4; 8], i: usize) -> [u8; 32]
    requires { i < 4 }
    ensures { result ≡ digest_bytes (lane i words.now) 8 }
{
    let mut octets = [0u8; 32];
    'words: for t in 0..8 {
        octets[4 * t..4 * t + 4].copy_from_slice(&lane_word(words, i, t).to_be_bytes());
    }
    octets
}

/// The 32 octets of each lane's 8 words, high octet first.
pub fn value_octets(words: &[u32x4; 8]) -> [[u8; 32]; 4]
    ensures { (i : ℕ) → i < 4 → slice_index_or result i [] ≡ digest_bytes (lane i words.now) 8 }
{
    [
        lane_octets(words, 0),
        lane_octets(words, 1),
        lane_octets(words, 2),
        lane_octets(words, 3),
    ]
}

/// The digests of four messages of 55 octets under SHA-256 (FIPS 180-4, 6.2).
pub fn hash4(messages: &[[u8; 55]; 4]) -> [[u8; 32]; 4]
    ensures { (i : ℕ) → i < 4 → slice_index_or result i [] ≡ sha256 (slice_index_or messages.now i []) }
{
    let blocks = [
        padded(&messages[0]),
        padded(&messages[1]),
        padded(&messages[2]),
        padded(&messages[3]),
    ];
    value_octets(&digest_blocks(&block_words(&blocks)))
}
