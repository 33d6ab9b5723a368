//! Reads what the payloads of a log say to a book.
ghost use Rattle.std.specs.Prelude.{◌≡◌, ◌+◌, ◌*◌, ◌<◌, ◌≤◌, ◌^◌, ℕ, List, ◌∷◌, ◌++◌, suc, length, MatchOption, MatchResult};
ghost use Rattle.std.specs.Int.{w32, to_be_bytes};
ghost use Rattle.leaf_book.specs.Leaves.{key_payload, leaf_payload};
ghost use Rattle.leaf_book.specs.Mounted.{IsAt, IsBook, StopsBook};
ghost use Rattle.leaf_book.specs.Reading.{AreLeaves, StopsLeaves};

use crate::fault::BookFault;
use crate::payloads::{KEY_MARK, KEY_OCTETS, LEAF_HEAD, LEAF_MARK, LEAF_OCTETS};
use cmp_values::Octets;
use std::alloc::Global;

/// The octets of a log before its first record.
const FRONT: u64 = 8;

/// The octets of a log before the record of leaf 0: the key's has a gate, four octets of length, and 57 of payload.
const FIRST_LEAF: u64 = 70;

/// The octets of a leaf's record: a gate, four octets of length, and 37 of payload.
const LEAF_RECORD: u64 = 42;

/// How many leaves four octets can number.
const MOST_LEAVES: usize = 0x1_0000_0000;

/// Why the leaves aren't read.
#[derive(Clone, Copy)]
pub(crate) enum LeavesFault {
    /// The payload at the place of this leaf is another.
    Other {
        /// A leaf, from 0 on.
        leaf: usize,
    },
    /// Memory ran out.
    NoMemory,
}

/// The key of a book's first payload.
#[tactic(auto, unfolding(crate::specs::Leaves::key_payload))]
fn key_in(payload: &[u8]) -> Option<[u8; 56]>
    ensures { MatchOption result (IsAt 0 payload.now → ⊥) (λ key. (payload.now ≡ key_payload key) × (length key ≡ 56)) }
{
    if payload.len() != KEY_OCTETS + 1 || payload[0] != KEY_MARK {
        return None;
    }
    let mut key = [0u8; 56];
    key.copy_from_slice(payload.split_at(1).1);
    Some(key)
}

/// What the payload of a leaf begins with.
fn leaf_head(leaf: u32) -> [u8; 5]
    ensures { result ≡ 2 ∷ to_be_bytes w32 leaf }
{
    let mut head = [LEAF_MARK; LEAF_HEAD];
    head[1..].copy_from_slice(&leaf.to_be_bytes());
    head
}

/// The digest of a leaf's payload.
#[tactic(auto, unfolding(crate::specs::Leaves::leaf_payload))]
fn digest_in(leaf: u32, payload: &[u8]) -> Option<[u8; 32]>
    ensures { MatchOption result ((digest : List ℕ) → length digest ≡ 32 → payload.now ≡ leaf_payload leaf digest → ⊥) (λ d. (length d ≡ 32) × (payload.now ≡ leaf_payload leaf d)) }
{
    if payload.len() != LEAF_OCTETS || payload.split_at(LEAF_HEAD).0 != leaf_head(leaf).as_slice() {
        return None;
    }
    let mut digest = [0u8; 32];
    digest.copy_from_slice(payload.split_at(LEAF_HEAD).1);
    Some(digest)
}

/// The digest of the payload, where it is the next leaf's.
fn next_digest(leaf: usize, payload: &[u8]) -> Option<[u8; 32]>
    ensures { MatchOption result (IsAt (suc leaf) payload.now → ⊥) (λ d. (length d ≡ 32) × (leaf < 2 ^ 32) × (payload.now ≡ leaf_payload leaf d)) }
{
    if leaf < MOST_LEAVES {
        digest_in(leaf as u32, payload)
    } else {
        None
    }
}

/// The digests of the payloads behind the key's.
fn read_leaves(alloc: Global, payloads: &[Octets]) -> Result<Vec<[u8; 32]>, LeavesFault>
    ensures { MatchResult result (λ v. AreLeaves payloads.now v.items) (λ fault. StopsLeaves payloads.now fault) }
{
    let mut given: Vec<[u8; 32]> = Vec::new(alloc);
    for payload in payloads {
        let leaf = given.len();
        let Some(digest) = next_digest(leaf, payload.as_slice()) else {
            return Err(LeavesFault::Other { leaf });
        };
        if given.push(digest).is_err() {
            return Err(LeavesFault::NoMemory);
        }
    }
    Ok(given)
}

/// The offset of a leaf's gate.
fn gate_of(leaf: usize) -> u64
    requires { leaf ≤ 2 ^ 32 }
    ensures { result ≡ 70 + 42 * leaf }
{
    FIRST_LEAF + LEAF_RECORD * leaf as u64
}

/// The digests of the payloads of a book of this key.
pub(crate) fn read_book(
    alloc: Global,
    payloads: &[Octets],
    key: &[u8; 56],
) -> Result<Vec<[u8; 32]>, BookFault>
    ensures { MatchResult result (λ v. IsBook key.now v.items payloads.now) (λ fault. StopsBook key.now payloads.now fault) }
{
    let Some((first, leaves)) = payloads.split_first() else {
        return Err(BookFault::Damaged { at: FRONT });
    };
    let Some(journal) = key_in(first.as_slice()) else {
        return Err(BookFault::Damaged { at: FRONT });
    };
    let given = match read_leaves(alloc, leaves) {
        Ok(given) => given,
        Err(LeavesFault::Other { leaf }) => {
            return Err(BookFault::Damaged { at: gate_of(leaf) });
        }
        Err(LeavesFault::NoMemory) => return Err(BookFault::NoMemory),
    };
    if journal != *key {
        return Err(BookFault::KeyMismatch {
            file: *key,
            journal,
        });
    }
    Ok(given)
}
