// Signing (RFC 8554, 5.4.1).

ghost use Rattle.std.specs.Prelude.{◌≡◌, ℕ, ◌^◌, ◌<◌, Some, IfOk, IfSome};
ghost use Rattle.std.specs.Option.{ForSome};
ghost use Rattle.lms_params.specs.Parameters.{ots_row, tree_height};
ghost use Rattle.lms_tree.specs.Keys.{IsGrown, IsSignature};

use crate::path::write_path;
use cmp_values::Octets;
use lm_ots::{KeyPart, sign_ots_in};
use lms_params::{Ots, Tree, with_ots};
use std::alloc::{AllocError, Global};

// The signature of a text by leaf `q` under two sets; `code` is the tree's typecode.
fn sign_in<const H: u32, const W: u32, const P: usize, const LS: u32>(
    alloc: Global,
    tree: Tree<H>,
    set: Ots<W, P, LS>,
    key: &KeyPart,
    code: u32,
    nodes: &[[u8; 32]],
    q: u32,
    text: &[u8],
) -> Result<Octets, AllocError>
    requires height { tree_height code ≡ Some H }
    requires row { ots_row key.now.ots ≡ Some (record { w = W; p = P; ls = LS }) }
    requires grown { IsGrown (record { seed = key.now.seed; id = key.now.id; tree = code; ots = key.now.ots }) nodes.now }
    requires leaf { ForSome (tree_height code) (λ h. q < 2 ^ h) }
    ensures { IfOk result (λ sig. IsSignature (record { seed = key.now.seed; id = key.now.id; tree = code; ots = key.now.ots }) q text.now sig) }
{
    let mut out = Octets::empty(alloc);
    out.append(&q.to_be_bytes())?;
    sign_ots_in(set, key, q, text, &mut out)?;
    out.append(&code.to_be_bytes())?;
    write_path(tree, nodes, q, &mut out)?;
    Ok(out)
}

// The signature of a text by leaf `q` under a tree. `None` where the LM-OTS typecode is not in the
// table.
pub(crate) fn sign_with<const H: u32>(
    alloc: Global,
    tree: Tree<H>,
    key: &KeyPart,
    code: u32,
    nodes: &[[u8; 32]],
    q: u32,
    text: &[u8],
) -> Option<Result<Octets, AllocError>>
    requires height { tree_height code ≡ Some H }
    requires grown { IsGrown (record { seed = key.now.seed; id = key.now.id; tree = code; ots = key.now.ots }) nodes.now }
    requires leaf { ForSome (tree_height code) (λ h. q < 2 ^ h) }
    ensures { IfSome result (λ r. IfOk r (λ sig. IsSignature (record { seed = key.now.seed; id = key.now.id; tree = code; ots = key.now.ots }) q text.now sig)) }
{
    with_ots!(
        key.ots,
        |set| sign_in(alloc, tree, set, key, code, nodes, q, text)
    )
}
