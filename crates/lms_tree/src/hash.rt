// The hashes of a tree's nodes (RFC 8554, 5.3).

ghost use Rattle.std.specs.Prelude.{◌≡◌, ◌++◌};
ghost use Rattle.lms_tree.specs.Nodes.{inner_hash, leaf_hash, parent};

use lm_ots::opened;
use sha2::Digest;

// Node `r`, a leaf with this one-time public hash.
#[tactic(auto, unfolding(crate::specs::Nodes::leaf_hash))]
pub(crate) fn leaf_hash(id: &[u8; 16], r: u32, key: &[u8; 32]) -> [u8; 32]
    ensures { result ≡ leaf_hash id.now r key.now }
{
    let mut hasher = opened(id, r, 0x8282);
    hasher.update(key);
    hasher.finalize()
}

// Node `r` above these two.
#[tactic(auto, unfolding(crate::specs::Nodes::inner_hash))]
pub(crate) fn inner_hash(id: &[u8; 16], r: u32, left: &[u8; 32], right: &[u8; 32]) -> [u8; 32]
    ensures { result ≡ inner_hash id.now r left.now right.now }
{
    let mut hasher = opened(id, r, 0x8383);
    hasher.update(left);
    hasher.update(right);
    hasher.finalize()
}

// The node above node `r`, from the values of `r` and of its sibling.
#[tactic(auto, unfolding(crate::specs::Nodes::parent))]
pub(crate) fn parent_of(id: &[u8; 16], r: u32, own: &[u8; 32], other: &[u8; 32]) -> [u8; 32]
    ensures { result ≡ parent id.now r own.now other.now }
{
    if r % 2 == 0 {
        inner_hash(id, r / 2, own, other)
    } else {
        inner_hash(id, r / 2, other, own)
    }
}
