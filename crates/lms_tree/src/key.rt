// The private key of a tree (RFC 8554, 5.2 and 5.3).

ghost use Rattle.std.specs.Prelude.{◌≡◌, ℕ, ◌^◌, ◌<◌, ◌↔◌, ◌⊎◌, None, IfOk};
ghost use Rattle.std.specs.Option.{ForSome};
ghost use Rattle.lms_params.specs.Parameters.{ots_row, tree_height};

use crate::nodes::nodes_with;
use crate::public::public_octets;
use crate::sign::sign_with;
use cmp_values::Octets;
use lm_ots::KeyPart;
use lms_params::with_tree;
use std::alloc::{AllocError, Global};
use std::marker::Model;

/// The parameter sets of a key: the LMS typecode of its tree and the LM-OTS typecode of its leaves.
#[derive(Clone, Copy, PartialEq, Eq, Debug)]
pub struct Set {
    pub tree: u32,
    pub ots: u32,
}

/// Why no key was grown.
#[derive(Clone, Copy, PartialEq, Eq, Debug)]
pub enum GrowFault {
    /// A typecode is not in its table.
    BadSet,
    /// Memory ran out.
    NoMemory,
}

/// A private key with all nodes of its tree. Contracts see the seed, the identifier and the sets.
#[derive(Drop)]
pub struct TreeKey {
    alloc: Global,
    key: KeyPart,
    tree: u32,
    nodes: Vec<[u8; 32]>,
}

impl Model for TreeKey {
    ghost use Rattle.lms_tree.specs.Keys.{Secret, IsGrown};

    ghost Value = { Secret };

    ghost view = { λ k. record { seed = k.key.seed; id = k.key.id; tree = k.tree; ots = k.key.ots } };

    ghost invariant = { λ k. IsGrown (record { seed = k.key.seed; id = k.key.id; tree = k.tree; ots = k.key.ots }) k.nodes.items };
}

impl TreeKey {
    ghost use Rattle.lms_tree.specs.Keys.{IsPublicKey, IsSignature};

    /// The key of a seed and an identifier, with all nodes of its tree. `BadSet` where a typecode is
    /// not in its table.
    pub fn grow(
        alloc: Global,
        seed: &[u8; 32],
        id: &[u8; 16],
        set: Set,
    ) -> Result<TreeKey, GrowFault>
        ensures bad_set { (result ≡ Err GrowFault.BadSet) ↔ ((tree_height set.tree ≡ None) ⊎ (ots_row set.ots ≡ None)) }
        ensures ok { IfOk result (λ k. k ≡ record { seed = seed.now; id = id.now; tree = set.tree; ots = set.ots }) }
    {
        let key = KeyPart {
            seed: *seed,
            id: *id,
            ots: set.ots,
        };
        match with_tree!(set.tree, |tree| nodes_with(alloc, tree, &key)) {
            Some(Some(Ok(nodes))) => Ok(TreeKey {
                alloc,
                key,
                tree: set.tree,
                nodes,
            }),
            Some(Some(Err(_))) => Err(GrowFault::NoMemory),
            _ => Err(GrowFault::BadSet),
        }
    }

    /// The signature of `text` by leaf `q` (RFC 8554, 5.4.1). The caller must never sign two texts
    /// by one leaf (RFC 8554, 9.2).
    pub fn sign(&self, q: u32, text: &[u8]) -> Result<Octets, AllocError>
        requires { ForSome (tree_height self.now.tree) (λ h. q < 2 ^ h) }
        ensures { IfOk result (λ sig. IsSignature self.now q text.now sig) }
    {
        // The codes of a key are in their tables, so only memory can be wanting.
        match with_tree!(
            self.tree,
            |tree| sign_with(self.alloc, tree, &self.key, self.tree, &self.nodes, q, text)
        ) {
            Some(Some(signed)) => signed,
            _ => Err(AllocError),
        }
    }

    /// The public key, 56 octets: both typecodes, the identifier and the root (RFC 8554, 5.3).
    /// Takes no memory.
    pub fn public(&self) -> [u8; 56]
        ensures { IsPublicKey self.now result }
    {
        public_octets(self.tree, self.key.ots, &self.key.id, &self.nodes[1])
    }
}
