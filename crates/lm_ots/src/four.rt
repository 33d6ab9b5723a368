// Four chains of a one-time key side by side (RFC 8554, 4.3, 4.5 and 4.6): one in each lane of a vector.

ghost use Rattle.std.specs.Prelude.{◌≡◌, ℕ, List, [], ◌<◌, ◌≤◌, ◌^◌, true, false, length, slice_index, slice_index_or};
ghost use Rattle.sha2.specs.Sha256.{digest_bytes};
ghost use Rattle.sha_lanes.specs.Blocks.{IsFrontOf};
ghost use Rattle.sha_lanes.specs.Fronts.{HasFront};
ghost use Rattle.sha_lanes.specs.Lanes.{lane};
ghost use Rattle.lm_ots.specs.Chains.{chain, prefix, secret};
ghost use Rattle.lm_ots.specs.Runs.{AreBelow, Settled, SettledOrWaiting};

use crate::message::step_message;
use sha_lanes::{choose, digest_parts, first_rounds, front_words, value_octets, value_words};
use std::simd::u32x4;

// What the message of each step of chain `i` begins with.
pub(crate) fn front_of(id: &[u8; 16], q: u32, i: u16) -> [u8; 22]
    ensures { result ≡ prefix id.now q i }
{
    let message = step_message(id, q, i, &[0; 32]);
    let (octets, _) = message.split_at(22);
    let mut front = [0u8; 22];
    front.copy_from_slice(octets);
    front
}

// The words of what four chains' messages begin with. They stay while the chains run.
fn fronts(id: &[u8; 16], q: u32, picks: &[usize; 4]) -> [u32x4; 6]
    requires { AreBelow picks.now 265 }
    ensures { (k : ℕ) → k < 4 → IsFrontOf (prefix id.now q (slice_index picks.now k)) (lane k result) }
{
    front_words(&[
        front_of(id, q, picks[0] as u16),
        front_of(id, q, picks[1] as u16),
        front_of(id, q, picks[2] as u16),
        front_of(id, q, picks[3] as u16),
    ])
}

fn lesser(a: u8, b: u8) -> u8
    ensures first { result ≤ a }
    ensures second { result ≤ b }
{
    if a < b { a } else { b }
}

fn greater(a: u8, b: u8) -> u8
    ensures first { a ≤ result }
    ensures second { b ≤ result }
{
    if a < b { b } else { a }
}

// The least of four places.
fn least(places: &[u8; 4]) -> u8
    ensures { (k : ℕ) → k < 4 → result ≤ slice_index places.now k }
{
    let [a, b, c, d] = *places;
    lesser(lesser(a, b), lesser(c, d))
}

// The greatest of four places.
fn greatest(places: &[u8; 4]) -> u8
    ensures { (k : ℕ) → k < 4 → slice_index places.now k ≤ result }
{
    let [a, b, c, d] = *places;
    greater(greater(a, b), greater(c, d))
}

// Whether a chain from `from` to `to` takes step `j`.
#[inline(always)]
fn takes(from: u8, to: u8, j: u8) -> bool
    ensures between { from ≤ j → j < to → result ≡ true }
    ensures before { j < from → result ≡ false }
    ensures behind { to ≤ j → result ≡ false }
{
    from <= j && j < to
}

// Runs four chains, each from its place to its end. A lane that isn't at its place yet, or has reached its end, keeps
// its value while the others go on.
fn walk(
    front: &[u32x4; 6],
    started: &[u32x4; 8],
    from: &[u8; 4],
    to: &[u8; 4],
    start: [u32x4; 8],
) -> [u32x4; 8]
    ensures { (k q i : ℕ) (id : List ℕ) → k < 4 → HasFront k (prefix id q i) front.now started.now
        → digest_bytes (lane k result) 8
        ≡ chain id q i (slice_index from.now k) (slice_index to.now k) (digest_bytes (lane k start) 8) }
{
    let mut value = start;
    for j in least(from)..greatest(to) {
        let takers = [
            takes(from[0], to[0], j),
            takes(from[1], to[1], j),
            takes(from[2], to[2], j),
            takes(from[3], to[3], j),
        ];
        let digest = digest_parts(front, started, j, &value);
        let next = choose(&takers, &digest, &value);
        value = next;
    }
    value
}

/// Four chains of one-time key `q`, each from its place, where it has its value of `starts`, to its end.
pub(crate) fn four_chains(
    id: &[u8; 16],
    q: u32,
    picks: &[usize; 4],
    from: &[u8; 4],
    to: &[u8; 4],
    starts: &[[u8; 32]; 4],
) -> [[u8; 32]; 4]
    requires { AreBelow picks.now 265 }
    ensures { (k : ℕ) → k < 4 → slice_index_or result k []
        ≡ chain id.now q (slice_index picks.now k) (slice_index from.now k) (slice_index to.now k) (slice_index_or starts.now k []) }
{
    let front = fronts(id, q, picks);
    let started = first_rounds(&front);
    value_octets(&walk(&front, &started, from, to, value_words(starts)))
}

/// The private values of four chains of one-time key `q` (RFC 8554, appendix A).
pub(crate) fn four_secrets(
    seed: &[u8; 32],
    id: &[u8; 16],
    q: u32,
    picks: &[usize; 4],
) -> [[u8; 32]; 4]
    requires { AreBelow picks.now 265 }
    ensures { (k : ℕ) → k < 4 → slice_index_or result k [] ≡ secret seed.now id.now q (slice_index picks.now k) }
{
    let front = fronts(id, q, picks);
    let started = first_rounds(&front);
    value_octets(&digest_parts(&front, &started, 0xff, &value_words(&[*seed; 4])))
}

// Writes four values to the places that were picked.
pub(crate) fn store(values: &mut [[u8; 32]], picks: &[usize; 4], four: &[[u8; 32]; 4])
    requires { AreBelow picks.now (length values.old) }
    ensures { (f : ℕ → List ℕ) (x : ℕ) → ((k : ℕ) → k < 4 → slice_index_or four.now k [] ≡ f (slice_index picks.now k))
        → SettledOrWaiting f values.old picks.now 4 x → Settled f values.new x }
{
    let [a, b, c, d] = *picks;
    values[a] = four[0];
    values[b] = four[1];
    values[c] = four[2];
    values[d] = four[3];
}
