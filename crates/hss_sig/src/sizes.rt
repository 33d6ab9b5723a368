// The numbers in a key and the size of its signatures.

ghost use Rattle.std.specs.Prelude.{◌≡◌, ◌+◌, ◌*◌, ◌^◌, ◌≤◌, length, option_map};
ghost use Rattle.lms_params.specs.Parameters.{ots_row};
ghost use Rattle.lms_tree.specs.Verifies.{u32_at};
ghost use Rattle.hss_sig.specs.Hss.{signature_size};
ghost use Rattle.hss_sig.specs.OneLevel.{leaf_count};

use lms_params::{Ots, Tree, with_ots, with_tree};

// The number in the four octets at a place.
pub(crate) fn u32_at(octets: &[u8], place: usize) -> u32
    requires { place + 4 ≤ length octets.now }
    ensures { result ≡ u32_at octets.now place }
{
    let (_, rest) = octets.split_at(place);
    u32::from_be_bytes([rest[0], rest[1], rest[2], rest[3]])
}

// The octets of a signature under two sets.
fn size_in<const H: u32, const W: u32, const P: usize, const LS: u32>(
    _tree: Tree<H>,
    _set: Ots<W, P, LS>,
) -> usize
    ensures { result ≡ 44 + 32 * P + 32 * H }
{
    44 + 32 * P + 32 * H as usize
}

// The octets of a signature under a tree and an LM-OTS typecode.
fn size_with<const H: u32>(tree: Tree<H>, ots: u32) -> Option<usize>
    ensures { result ≡ option_map (λ row. 44 + 32 * row.p + 32 * H) (ots_row ots) }
{
    with_ots!(ots, |set| size_in(tree, set))
}

// The octets of a signature under an LMS key. `None` where a typecode is not in its table.
pub(crate) fn signature_size(key: &[u8]) -> Option<usize>
    requires { length key.now ≡ 56 }
    ensures { result ≡ signature_size key.now }
{
    with_tree!(u32_at(key, 0), |tree| size_with(tree, u32_at(key, 4)))?
}

// The number of leaves of a tree.
fn leaves_of<const H: u32>(tree: Tree<H>) -> u32
    ensures { result ≡ 2 ^ H }
{
    tree.leaves() as u32
}

// The number of leaves under a tree's typecode. 0 where it is not in the table.
pub(crate) fn leaves_under(code: u32) -> u32
    ensures { result ≡ leaf_count code }
{
    match with_tree!(code, |tree| leaves_of(tree)) {
        Some(leaves) => leaves,
        None => 0,
    }
}
