// Verifying (RFC 8554, 5.4.2).

ghost use Rattle.std.specs.Prelude.{◌≡◌, ℕ, ◌+◌, ◌*◌, ◌^◌, ◌<◌, ◌≤◌, ◌↔◌, length, IsTrue};
ghost use Rattle.lms_tree.specs.Verifies.{HasForm, LmsOk, LmsOkFor, LmsOkIn, SignaturesVerify, root_of, u32_at};

use crate::hash::leaf_hash;
use crate::path::climb;
use lm_ots::recovered_hash;
use lms_params::{Ots, Tree, with_ots, with_tree};

// The number in the four octets at a place.
fn u32_at(octets: &[u8], place: usize) -> u32
    requires { place + 4 ≤ length octets.now }
    ensures { result ≡ u32_at octets.now place }
{
    let (_, rest) = octets.split_at(place);
    u32::from_be_bytes([rest[0], rest[1], rest[2], rest[3]])
}

// Whether a signature has the length, the typecodes and a leaf of the key's sets.
fn has_form<const H: u32, const W: u32, const P: usize, const LS: u32>(
    tree: Tree<H>,
    _set: Ots<W, P, LS>,
    key: &[u8],
    sig: &[u8],
) -> bool
    requires { length key.now ≡ 56 }
    ensures { IsTrue result ↔ HasForm H (record { w = W; p = P; ls = LS }) key.now sig.now }
{
    sig.len() == 44 + 32 * P + 32 * H as usize
        && u32_at(sig, 4) == u32_at(key, 4)
        && u32_at(sig, 40 + 32 * P) == u32_at(key, 0)
        && (u32_at(sig, 0) as usize) < tree.leaves()
}

// The root that a signature in form leads to.
#[tactic(auto, unfolding(crate::specs::Verifies::root_of))]
fn root_in<const H: u32, const W: u32, const P: usize, const LS: u32>(
    tree: Tree<H>,
    set: Ots<W, P, LS>,
    id: &[u8; 16],
    text: &[u8],
    sig: &[u8],
) -> [u8; 32]
    requires size { length sig.now ≡ 44 + 32 * P + 32 * H }
    requires leaf { u32_at sig.now 0 < 2 ^ H }
    ensures { result ≡ root_of H (record { w = W; p = P; ls = LS }) id.now text.now sig.now }
{
    let q = u32_at(sig, 0);
    let (_, rest) = sig.split_at(4);
    let (ots, _) = rest.split_at(36 + 32 * P);
    let (_, siblings) = sig.split_at(44 + 32 * P);
    let hash = recovered_hash(set, id, q, text, ots);
    let leaf = tree.leaves() as u32 + q;
    climb(tree, id, leaf, &leaf_hash(id, leaf, &hash), siblings)
}

// Whether two lists of octets are the same.
fn same(a: &[u8], b: &[u8]) -> bool
    ensures { IsTrue result ↔ (a.now ≡ b.now) }
{
    a == b
}

// Whether a signature is valid under a key of two sets.
fn verify_in<const H: u32, const W: u32, const P: usize, const LS: u32>(
    tree: Tree<H>,
    set: Ots<W, P, LS>,
    key: &[u8],
    text: &[u8],
    sig: &[u8],
) -> bool
    requires { length key.now ≡ 56 }
    ensures { IsTrue result ↔ LmsOkIn H (record { w = W; p = P; ls = LS }) key.now text.now sig.now }
{
    if !has_form(tree, set, key, sig) {
        return false;
    }
    let (_, named) = key.split_at(8);
    let (name, _) = named.split_at(16);
    let mut id = [0u8; 16];
    id.copy_from_slice(name);
    let (_, root) = key.split_at(24);
    same(&root_in(tree, set, &id, text, sig), root)
}

// Whether a signature is valid under a key of a tree.
fn verify_for<const H: u32>(tree: Tree<H>, key: &[u8], text: &[u8], sig: &[u8]) -> bool
    requires { length key.now ≡ 56 }
    ensures { IsTrue result ↔ LmsOkFor H key.now text.now sig.now }
{
    match with_ots!(u32_at(key, 4), |set| verify_in(tree, set, key, text, sig)) {
        Some(valid) => valid,
        None => false,
    }
}

/// Whether `sig` is a valid signature of `text` under the public key `key` (RFC 8554, 5.4.2,
/// algorithm 6). Takes no memory. Octets behind a signature make it invalid.
pub fn verify(key: &[u8; 56], text: &[u8], sig: &[u8]) -> bool
    ensures { IsTrue result ↔ LmsOk key.now text.now sig.now }
{
    match with_tree!(u32_at(key, 0), |tree| verify_for(tree, key, text, sig)) {
        Some(valid) => valid,
        None => false,
    }
}

/// Each signature of a key is valid under its public key: for each pair of sets, each leaf and text.
pub fn signatures_verify()
    ensures { SignaturesVerify }
{}
