// The nodes of a tree in one array, node `r` at index `r`; index 0 is not used.

ghost use Rattle.std.specs.Prelude.{◌≡◌, ℕ, List, [], ◌+◌, ◌*◌, ◌^◌, ◌<◌, ◌≤◌, ◌↔◌, length, slice_index_or, None, IfOk, IfSome, MatchOption};
ghost use Rattle.lms_params.specs.Parameters.{ots_row};
ghost use Rattle.lm_ots.specs.Chains.{ots_key};
ghost use Rattle.lms_tree.specs.Nodes.{AreNodes, node};

use crate::hash::{inner_hash, leaf_hash};
use lm_ots::{KeyPart, public_hashes_in};
use lms_params::{Ots, Tree, with_ots};
use std::alloc::{AllocError, Global};

// The nodes of the leaves `q`, `q + 1`, `q + 2` and `q + 3`.
fn leaves_at<const H: u32, const W: u32, const P: usize, const LS: u32>(
    tree: Tree<H>,
    set: Ots<W, P, LS>,
    key: &KeyPart,
    q: usize,
) -> [[u8; 32]; 4]
    requires { q + 4 ≤ 2 ^ H }
    ensures { (k : ℕ) → k < 4
        → slice_index_or result k [] ≡ node (ots_key (record { w = W; p = P; ls = LS }) key.now.seed key.now.id) key.now.id H (2 ^ H + q + k) }
{
    let hashes = public_hashes_in(set, key, q as u32);
    let r = (tree.leaves() + q) as u32;
    [
        leaf_hash(&key.id, r, &hashes[0]),
        leaf_hash(&key.id, r + 1, &hashes[1]),
        leaf_hash(&key.id, r + 2, &hashes[2]),
        leaf_hash(&key.id, r + 3, &hashes[3]),
    ]
}

// Writes four nodes from node `r` on.
fn write_four(nodes: &mut [[u8; 32]], r: usize, four: &[[u8; 32]; 4])
    requires { r + 4 ≤ length nodes.old }
    ensures { (keys : ℕ → List ℕ) (id : List ℕ) (h first : ℕ) → AreNodes keys id h first r nodes.old
        → ((k : ℕ) → k < 4 → slice_index_or four.now k [] ≡ node keys id h (r + k)) → AreNodes keys id h first (r + 4) nodes.new }
{
    nodes[r] = four[0];
    nodes[r + 1] = four[1];
    nodes[r + 2] = four[2];
    nodes[r + 3] = four[3];
}

// Writes the leaves, four at a time.
fn write_leaves<const H: u32, const W: u32, const P: usize, const LS: u32>(
    tree: Tree<H>,
    set: Ots<W, P, LS>,
    key: &KeyPart,
    nodes: &mut [[u8; 32]],
)
    requires { length nodes.old ≡ 2 * 2 ^ H }
    ensures { AreNodes (ots_key (record { w = W; p = P; ls = LS }) key.now.seed key.now.id) key.now.id H (2 ^ H) (2 * 2 ^ H) nodes.new }
{
    for g in 0..tree.leaves() / 4 {
        let four = leaves_at(tree, set, key, 4 * g);
        write_four(nodes, tree.leaves() + 4 * g, &four);
    }
}

// Writes the nodes above the leaves, from the lowest level up.
fn write_inner<const H: u32>(tree: Tree<H>, id: &[u8; 16], nodes: &mut [[u8; 32]])
    requires { length nodes.old ≡ 2 * 2 ^ H }
    ensures { (keys : ℕ → List ℕ) → AreNodes keys id.now H (2 ^ H) (2 * 2 ^ H) nodes.old → AreNodes keys id.now H 1 (2 * 2 ^ H) nodes.new }
{
    let mut r = tree.leaves();
    while r > 1 {
        r -= 1;
        nodes[r] = inner_hash(id, r as u32, &nodes[2 * r], &nodes[2 * r + 1]);
    }
}

// Writes all nodes.
fn write_nodes<const H: u32, const W: u32, const P: usize, const LS: u32>(
    tree: Tree<H>,
    set: Ots<W, P, LS>,
    key: &KeyPart,
    nodes: &mut [[u8; 32]],
)
    requires { length nodes.old ≡ 2 * 2 ^ H }
    ensures { AreNodes (ots_key (record { w = W; p = P; ls = LS }) key.now.seed key.now.id) key.now.id H 1 (2 * 2 ^ H) nodes.new }
{
    write_leaves(tree, set, key, nodes);
    write_inner(tree, &key.id, nodes);
}

// The nodes of a key's tree under two sets.
fn nodes_in<const H: u32, const W: u32, const P: usize, const LS: u32>(
    alloc: Global,
    tree: Tree<H>,
    set: Ots<W, P, LS>,
    key: &KeyPart,
) -> Result<Vec<[u8; 32]>, AllocError>
    ensures { IfOk result (λ nodes. AreNodes (ots_key (record { w = W; p = P; ls = LS }) key.now.seed key.now.id) key.now.id H 1 (2 * 2 ^ H) nodes.items) }
{
    let mut nodes = vec![in alloc; [0u8; 32]; 2 * tree.leaves()]?;
    write_nodes(tree, set, key, &mut nodes);
    Ok(nodes)
}

// The nodes of a key's tree. `None` where the LM-OTS typecode is not in the table.
pub(crate) fn nodes_with<const H: u32>(
    alloc: Global,
    tree: Tree<H>,
    key: &KeyPart,
) -> Option<Result<Vec<[u8; 32]>, AllocError>>
    ensures none { (result ≡ None) ↔ (ots_row key.now.ots ≡ None) }
    ensures some { IfSome result (λ r. IfOk r (λ nodes. MatchOption (ots_row key.now.ots) ⊥
        (λ row. AreNodes (ots_key row key.now.seed key.now.id) key.now.id H 1 (2 * 2 ^ H) nodes.items))) }
{
    with_ots!(key.ots, |set| nodes_in(alloc, tree, set, key))
}
