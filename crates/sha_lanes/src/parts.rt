//! Messages of 55 octets in three parts: a front of 22 octets that stays, one octet, and a value of 32 octets, which a
//! digest may be. Four of them are hashed side by side, and what stays is laid into words once.
ghost use Rattle.std.specs.Prelude.{◌≡◌, ℕ, ◌+◌, ◌-◌, ◌*◌, ◌^◌, ◌<◌, ◌++◌, List, [], ◌∷◌, false, if◌then◌else◌, drop, length, slice_index, slice_index_or, take};
ghost use Rattle.std.specs.Int.{w32, from_be_bytes, to_be_bytes};
ghost use Rattle.sha2.specs.Sha256.{sha256, digest_bytes, first_words, word_at};
ghost use Rattle.sha_lanes.specs.Blocks.{IsBlockOf, IsFrontOf};
ghost use Rattle.sha_lanes.specs.Fronts.{HasFront};
ghost use Rattle.sha_lanes.specs.Lanes.{lane};

use crate::blocks::{initial_hash, word};
use crate::compress::compress_rest;
use crate::rounds::first_five_steps;
use crate::words::{add, shift, shift_left};
use std::simd::u32x4;

// The last three octets of each lane of `x`, and then the first of `y`.
#[inline(always)]
fn across(x: u32x4, y: u32x4) -> u32x4
    ensures { (i : ℕ) → i < 4 → slice_index result i
        ≡ from_be_bytes w32 (drop 1 (to_be_bytes w32 (slice_index x i)) ++ take 1 (to_be_bytes w32 (slice_index y i))) }
{
    add(shift_left(x, 8), shift(y, 24))
}

// The last three octets of each lane, and then the first octet of the padding.
#[inline(always)]
fn padded_word(x: u32x4) -> u32x4
    ensures { (i : ℕ) → i < 4 → slice_index result i
        ≡ from_be_bytes w32 (drop 1 (to_be_bytes w32 (slice_index x i)) ++ 0x80 ∷ []) }
{
    add(shift_left(x, 8), u32x4::splat(0x80))
}

// The first two octets of each lane of `front`, then `place`, and then the first octet of `x`.
#[inline(always)]
fn with_place(front: u32x4, place: u8, x: u32x4) -> u32x4
    ensures { (i p q : ℕ) → i < 4 → slice_index front i ≡ from_be_bytes w32 (p ∷ q ∷ 0 ∷ 0 ∷ [])
        → slice_index result i ≡ from_be_bytes w32 (p ∷ q ∷ place ∷ take 1 (to_be_bytes w32 (slice_index x i))) }
{
    let placed = add(front, u32x4::splat(u32::from(place) << 8));
    add(placed, shift(x, 24))
}

// The words of the blocks of four messages.
#[inline(always)]
fn part_words(front: &[u32x4; 6], place: u8, value: &[u32x4; 8]) -> [u32x4; 16]
    ensures { (i : ℕ) (p : List ℕ) → i < 4 → IsFrontOf p (lane i front.now)
        → IsBlockOf (p ++ place ∷ digest_bytes (lane i value.now) 8) (lane i result) }
{
    let [p, q, r, s, t, u] = *front;
    let [a, b, c, d, e, f, g, h] = *value;
    [
        p,
        q,
        r,
        s,
        t,
        with_place(u, place, a),
        across(a, b),
        across(b, c),
        across(c, d),
        across(d, e),
        across(e, f),
        across(f, g),
        across(g, h),
        padded_word(h),
        u32x4::splat(0),
        // the message's length in bits
        u32x4::splat(440),
    ]
}

/// The digests of four messages of 55 octets. Each begins with 22 octets, given by their words (`front_words`) and by
/// what the first five rounds make of them (`first_rounds`), has then the octet `place`, and ends with 32 octets, given by
/// their 8 words. A digest is given by its 8 words.
pub fn digest_parts(
    front: &[u32x4; 6],
    started: &[u32x4; 8],
    place: u8,
    value: &[u32x4; 8],
) -> [u32x4; 8]
    ensures { (i : ℕ) (p : List ℕ) → i < 4 → HasFront i p front.now started.now
        → digest_bytes (lane i result) 8 ≡ sha256 (p ++ place ∷ digest_bytes (lane i value.now) 8) }
{
    compress_rest(initial_hash(), *started, &part_words(front, place, value))
}

// Word `t` of four fronts.
fn front_word(fronts: &[[u8; 24]; 4], t: usize) -> u32x4
    requires { t < 6 }
    ensures { (i : ℕ) → i < 4 → slice_index result i ≡ word_at (slice_index_or fronts.now i []) (4 * t) }
{
    u32x4::from_array([
        word(&fronts[0], 4 * t),
        word(&fronts[1], 4 * t),
        word(&fronts[2], 4 * t),
        word(&fronts[3], 4 * t),
    ])
}

// A front with two zeros.
fn filled(front: &[u8; 22]) -> [u8; 24]
    ensures octets { result ≡ front.now ++ 0 ∷ 0 ∷ [] }
    ensures size { length front.now ≡ 22 }
{
    let mut octets = [0u8; 24];
    octets[..22].copy_from_slice(front);
    octets
}

/// The words of four fronts of 22 octets, each filled up with two zeros.
pub fn front_words(fronts: &[[u8; 22]; 4]) -> [u32x4; 6]
    ensures { (i : ℕ) → i < 4 → IsFrontOf (slice_index_or fronts.now i []) (lane i result) }
{
    let filled = [
        filled(&fronts[0]),
        filled(&fronts[1]),
        filled(&fronts[2]),
        filled(&fronts[3]),
    ];
    [
        front_word(&filled, 0),
        front_word(&filled, 1),
        front_word(&filled, 2),
        front_word(&filled, 3),
        front_word(&filled, 4),
        front_word(&filled, 5),
    ]
}

/// The working variables after the first five rounds, whose words are those of a front.
pub fn first_rounds(front: &[u32x4; 6]) -> [u32x4; 8]
    ensures { (i : ℕ) (p : List ℕ) → i < 4 → IsFrontOf p (lane i front.now) → HasFront i p front.now result }
{
    first_five_steps(front, initial_hash())
}

// A word of ones, or of zeros.
#[inline(always)]
fn mask(is_set: bool) -> u32
    ensures { result ≡ (if is_set then 2 ^ 32 - 1 else 0) }
{
    if is_set { u32::MAX } else { 0 }
}

// Each lane of `new` where the mask has ones, and of `old` where it has zeros.
#[inline(always)]
fn chosen(mask: u32x4, new: u32x4, old: u32x4) -> u32x4
    ensures new { (i : ℕ) → i < 4 → slice_index mask i ≡ 2 ^ 32 - 1 → slice_index result i ≡ slice_index new i }
    ensures old { (i : ℕ) → i < 4 → slice_index mask i ≡ 0 → slice_index result i ≡ slice_index old i }
{
    (new & mask) | (old & !mask)
}

/// The words of `new` in the lanes that go on, and of `old` in the others.
#[inline(always)]
pub fn choose(goes_on: &[bool; 4], new: &[u32x4; 8], old: &[u32x4; 8]) -> [u32x4; 8]
    ensures { (i : ℕ) → i < 4 → lane i result ≡ (if slice_index_or goes_on.now i false then lane i new.now else lane i old.now) }
{
    let mask = u32x4::from_array([
        mask(goes_on[0]),
        mask(goes_on[1]),
        mask(goes_on[2]),
        mask(goes_on[3]),
    ]);
    [
        chosen(mask, new[0], old[0]),
        chosen(mask, new[1], old[1]),
        chosen(mask, new[2], old[2]),
        chosen(mask, new[3], old[3]),
        chosen(mask, new[4], old[4]),
        chosen(mask, new[5], old[5]),
        chosen(mask, new[6], old[6]),
        chosen(mask, new[7], old[7]),
    ]
}
