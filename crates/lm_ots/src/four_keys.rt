// The public hashes of four one-time keys side by side (RFC 8554, 4.3): lane `k` has key `q + k`.

ghost use Rattle.std.specs.Prelude.{◌≡◌, ℕ, ◌+◌, ◌*◌, ◌/◌, ◌<◌, ◌≤◌, ◌++◌, List, [], drop, length, slice_index_or, take};
ghost use Rattle.sha2.specs.Sha256.{digest_bytes};
ghost use Rattle.sha_lanes.specs.Blocks.{IsFrontOf};
ghost use Rattle.sha_lanes.specs.Fronts.{HasFront};
ghost use Rattle.sha_lanes.specs.Lanes.{lane};
ghost use Rattle.lm_ots.specs.Chains.{chain, chain_end, joined, ots_key, prefix, secret};
ghost use Rattle.lm_ots.specs.Runs.{BeginsPadded, IsFilled, value_in};

use crate::four::front_of;
use crate::key::KeyPart;
use lms_params::Ots;
use sha_lanes::{digest_parts, first_rounds, front_words, hash_padded4, value_octets, value_words};
use std::simd::u32x4;

// The words of what the messages of chain `i` of four keys begin with.
fn fronts(id: &[u8; 16], q: u32, i: u16) -> [u32x4; 6]
    requires { q + 3 < 4294967296 }
    ensures { (k : ℕ) → k < 4 → IsFrontOf (prefix id.now (q + k) i) (lane k result) }
{
    front_words(&[
        front_of(id, q, i),
        front_of(id, q + 1, i),
        front_of(id, q + 2, i),
        front_of(id, q + 3, i),
    ])
}

// Runs four chains from their first place to place `to`.
fn run(front: &[u32x4; 6], started: &[u32x4; 8], to: u8, start: [u32x4; 8]) -> [u32x4; 8]
    ensures { (k q i : ℕ) (id : List ℕ) → k < 4 → HasFront k (prefix id q i) front.now started.now
        → digest_bytes (lane k result) 8 ≡ chain id q i 0 to (digest_bytes (lane k start) 8) }
{
    let mut value = start;
    for j in 0..to {
        let next = digest_parts(front, started, j, &value);
        value = next;
    }
    value
}

// The private values of chain `i` of four keys.
fn secrets(front: &[u32x4; 6], started: &[u32x4; 8], seed: &[u8; 32]) -> [u32x4; 8]
    ensures { (k q i : ℕ) (id : List ℕ) → k < 4 → HasFront k (prefix id q i) front.now started.now
        → digest_bytes (lane k result) 8 ≡ secret seed.now id q i }
{
    digest_parts(front, started, 0xff, &value_words(&[*seed; 4]))
}

// The ends of chain `i` of four keys.
fn chain_ends<const W: u32, const P: usize, const LS: u32>(
    set: Ots<W, P, LS>,
    key: &KeyPart,
    q: u32,
    i: u16,
) -> [[u8; 32]; 4]
    requires { q + 3 < 4294967296 }
    ensures { (k : ℕ) → k < 4 → slice_index_or result k [] ≡ chain_end (record { w = W; p = P; ls = LS }) key.now.seed key.now.id (q + k) i }
{
    let front = fronts(&key.id, q, i);
    let started = first_rounds(&front);
    let starts = secrets(&front, &started, &key.seed);
    value_octets(&run(&front, &started, set.greatest() as u8, starts))
}

// The ends of all chains of four keys: those of a chain side by side.
fn all_ends<const W: u32, const P: usize, const LS: u32>(
    set: Ots<W, P, LS>,
    key: &KeyPart,
    q: u32,
) -> [[[u8; 32]; 4]; P]
    requires { q + 3 < 4294967296 }
    ensures size { length result ≡ P }
    ensures ends { (i k : ℕ) → i < P → k < 4
        → value_in (slice_index_or result i []) k ≡ chain_end (record { w = W; p = P; ls = LS }) key.now.seed key.now.id (q + k) i }
{
    let mut ends = [[[0u8; 32]; 4]; P];
    for i in 0..P {
        ends[i] = chain_ends(set, key, q, i as u16);
    }
    ends
}

// Room for the ends of 265 chains, with what stands before them and the padding: 133 blocks.
const ROOM: usize = 8512;

// Writes `part` into a message at place `at`.
fn put(message: &mut [u8; ROOM], at: usize, part: &[u8])
    requires { at + length part.now ≤ 8512 }
    ensures { message.new ≡ take at message.old ++ part.now ++ drop (at + length part.now) message.old }
{
    message[at..at + part.len()].copy_from_slice(part);
}

// Writes the end of chain `i` into a message.
fn put_end(message: &mut [u8; ROOM], i: usize, end: &[u8; 32])
    requires { i < 265 }
    ensures size { length end.now ≡ 32 }
    ensures message { message.new ≡ take (22 + 32 * i) message.old ++ end.now ++ drop (22 + 32 * i + length end.now) message.old }
{
    put(message, 22 + 32 * i, end);
}

// The message whose hash is a public hash, and zeros behind it: lane `k` of the ends of all chains.
fn ends_message(id: &[u8; 16], q: u32, ends: &[[[u8; 32]; 4]], k: usize) -> [u8; ROOM]
    requires few { length ends.now ≤ 265 }
    requires lane { k < 4 }
    ensures { (f : ℕ → List ℕ) → ((i : ℕ) → i < length ends.now → value_in (slice_index_or ends.now i []) k ≡ f i)
        → IsFilled result (prefix id.now q 0x8080 ++ joined f (length ends.now)) (22 + 32 * length ends.now) }
{
    let mut message = [0u8; ROOM];
    put(&mut message, 0, &front_of(id, q, 0x8080));
    for i in 0..ends.len() {
        put_end(&mut message, i, &ends[i][k]);
    }
    message
}

// How many blocks the message of so many ends has with its padding.
fn block_count(count: usize) -> usize
    requires { count ≤ 265 }
    ensures { result ≡ (94 + 32 * count) / 64 }
{
    (94 + 32 * count) / 64
}

// The message with its padding (FIPS 180-4, 5.1.1).
fn padded_ends(id: &[u8; 16], q: u32, ends: &[[[u8; 32]; 4]], k: usize) -> [u8; ROOM]
    requires few { length ends.now ≤ 265 }
    requires lane { k < 4 }
    ensures { (f : ℕ → List ℕ) → ((i : ℕ) → i < length ends.now → value_in (slice_index_or ends.now i []) k ≡ f i)
        → BeginsPadded result (prefix id.now q 0x8080 ++ joined f (length ends.now)) (64 * ((94 + 32 * length ends.now) / 64)) }
{
    let size = 22 + 32 * ends.len();
    let mut message = ends_message(id, q, ends, k);
    put(&mut message, size, &[0x80]);
    put(
        &mut message,
        64 * block_count(ends.len()) - 8,
        &(8 * size as u64).to_be_bytes(),
    );
    message
}

/// The public hashes of the one-time keys `q`, `q + 1`, `q + 2` and `q + 3` under a set: of each
/// what [`public_hash_in`](crate::public_hash_in) says (RFC 8554, 4.3).
pub fn public_hashes_in<const W: u32, const P: usize, const LS: u32>(
    set: Ots<W, P, LS>,
    key: &KeyPart,
    q: u32,
) -> [[u8; 32]; 4]
    requires { q + 3 < 4294967296 }
    ensures { (k : ℕ) → k < 4 → slice_index_or result k [] ≡ ots_key (record { w = W; p = P; ls = LS }) key.now.seed key.now.id (q + k) }
{
    let ends = all_ends(set, key, q);
    let messages = [
        padded_ends(&key.id, q, &ends, 0),
        padded_ends(&key.id, q + 1, &ends, 1),
        padded_ends(&key.id, q + 2, &ends, 2),
        padded_ends(&key.id, q + 3, &ends, 3),
    ];
    hash_padded4(&messages, block_count(P))
}
