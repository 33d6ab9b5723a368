// The private part of a key and its one-time public hashes (RFC 8554, 4.3 and appendix A).

ghost use Rattle.std.specs.Prelude.{◌≡◌, ℕ, ◌<◌, List, length, option_map};
ghost use Rattle.lms_params.specs.Parameters.{ots_row};
ghost use Rattle.lm_ots.specs.Chains.{chain_end, ends_hash, joined, ots_key};
ghost use Rattle.lm_ots.specs.Runs.{Settled};

use crate::all::{ends, secrets};
use crate::message::opened;
use lms_params::{Ots, with_ots};
use sha2::Digest;

/// What all one-time keys of a tree are made of: the seed, 32 secret octets, the identifier, and
/// the LM-OTS typecode (RFC 8554, 4.1 and appendix A).
#[derive(Clone, Copy)]
pub struct KeyPart {
    pub seed: [u8; 32],
    pub id: [u8; 16],
    pub ots: u32,
}

// The ends of all chains of one-time key `q`.
fn chain_ends_in<const W: u32, const P: usize, const LS: u32>(
    set: Ots<W, P, LS>,
    key: &KeyPart,
    q: u32,
) -> [[u8; 32]; P]
    ensures size { length result ≡ P }
    ensures values { (i : ℕ) → i < P → Settled (chain_end (record { w = W; p = P; ls = LS }) key.now.seed key.now.id q) result i }
{
    let mut starts = [[0u8; 32]; P];
    secrets(&key.seed, &key.id, q, &mut starts);
    let mut values = [[0u8; 32]; P];
    let to = [set.greatest() as u8; P];
    ends(&key.id, q, &[0; P], &to, &starts, &mut values);
    values
}

// The hash of the ends of all chains of one-time key `q`.
pub(crate) fn hash_of_ends(id: &[u8; 16], q: u32, ends: &[[u8; 32]]) -> [u8; 32]
    ensures { (f : ℕ → List ℕ) → ((i : ℕ) → i < length ends.now → Settled f ends.now i)
        → result ≡ ends_hash id.now q (joined f (length ends.now)) }
{
    let mut hasher = opened(id, q, 0x8080);
    for i in 0..ends.len() {
        hasher.update(&ends[i]);
    }
    hasher.finalize()
}

/// The public hash of one-time key `q` under a set: the hash of the ends of all chains
/// (RFC 8554, 4.3).
pub fn public_hash_in<const W: u32, const P: usize, const LS: u32>(
    set: Ots<W, P, LS>,
    key: &KeyPart,
    q: u32,
) -> [u8; 32]
    ensures { result ≡ ots_key (record { w = W; p = P; ls = LS }) key.now.seed key.now.id q }
{
    hash_of_ends(&key.id, q, &chain_ends_in(set, key, q))
}

/// The public hash of one-time key `q` (RFC 8554, 4.3). `None` for a typecode outside the table.
/// Takes no memory.
pub fn public_hash(key: &KeyPart, q: u32) -> Option<[u8; 32]>
    ensures { result ≡ option_map (λ row. ots_key row key.now.seed key.now.id q) (ots_row key.now.ots) }
{
    with_ots!(key.ots, |set| public_hash_in(set, key, q))
}
