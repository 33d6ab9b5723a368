// The way from a leaf to the root (RFC 8554, 5.4).

ghost use Rattle.std.specs.Prelude.{◌≡◌, ℕ, List, ◌+◌, ◌*◌, ◌^◌, ◌<◌, ◌≤◌, ◌++◌, length, OnOk};
ghost use Rattle.lms_tree.specs.Nodes.{AreNodes, climb, path, sibling};

use crate::hash::parent_of;
use cmp_values::Octets;
use lms_params::Tree;
use std::alloc::AllocError;

// The other node below the same node.
fn sibling(r: usize) -> usize
    requires { r < 2 ^ 32 }
    ensures { result ≡ sibling r }
{
    if r % 2 == 0 { r + 1 } else { r - 1 }
}

// Appends the path of leaf `q`, from its sibling upwards. After an `Err` a part of it stands there.
pub(crate) fn write_path<const H: u32>(
    tree: Tree<H>,
    nodes: &[[u8; 32]],
    q: u32,
    out: &mut Octets,
) -> Result<(), AllocError>
    requires count { length nodes.now ≡ 2 * 2 ^ H }
    requires leaf { q < 2 ^ H }
    ensures { (keys : ℕ → List ℕ) (id : List ℕ) → AreNodes keys id H 1 (2 * 2 ^ H) nodes.now
        → OnOk result (out.new ≡ out.old ++ path keys id H H (2 ^ H + q)) }
{
    let mut r = tree.leaves() + q as usize;
    for _level in 0..H {
        out.append(&nodes[sibling(r)])?;
        r /= 2;
    }
    Ok(())
}

// The root above node `leaf`, which has this value, by a path.
pub(crate) fn climb<const H: u32>(
    _tree: Tree<H>,
    id: &[u8; 16],
    leaf: u32,
    value: &[u8; 32],
    siblings: &[u8],
) -> [u8; 32]
    requires { length siblings.now ≡ 32 * H }
    ensures { result ≡ climb id.now H leaf value.now siblings.now }
{
    let mut r = leaf;
    let mut top = *value;
    for level in 0..H as usize {
        let mut other = [0u8; 32];
        other.copy_from_slice(&siblings[32 * level..32 * level + 32]);
        top = parent_of(id, r, &top, &other);
        r /= 2;
    }
    top
}
