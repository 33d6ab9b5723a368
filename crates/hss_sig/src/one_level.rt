// Keys of one level (RFC 8554, 6.1 and 6.2).

ghost use Rattle.std.specs.Prelude.{◌≡◌, ◌^◌, ◌<◌, ◌⊎◌, ◌↔◌, None, Some, IfOk, IfSome};
ghost use Rattle.lms_params.specs.Parameters.{ots_row, tree_height};
ghost use Rattle.hss_sig.specs.Hss.{HssOk};
ghost use Rattle.hss_sig.specs.OneLevel.{IsSized, OneLevelVerifies, SignaturesAreSized, hss_key, hss_signature, leaf_count};

use crate::signer::LeafSigner;
use crate::sizes::leaves_under;
use cmp_values::Octets;
use lms_tree::{GrowFault, Set, TreeKey};
use std::alloc::{AllocError, Global};
use std::marker::Model;

// The public key of one level.
fn public_of(key: &TreeKey) -> [u8; 60]
    ensures { result ≡ hss_key key.now }
{
    let mut octets = [0u8; 60];
    octets[3] = 1;
    octets[4..60].copy_from_slice(&key.public());
    octets
}

// The signature of a text by a leaf of one level.
fn signature_of(alloc: Global, key: &TreeKey, leaf: u32, text: &[u8]) -> Result<Octets, AllocError>
    requires sized { IsSized key.now }
    requires below { leaf < leaf_count key.now.tree }
    ensures signed { IfOk result (λ sig. sig ≡ hss_signature key.now leaf text.now) }
    ensures valid { IfOk result (λ sig. HssOk (hss_key key.now) text.now sig) }
{
    let sig = key.sign(leaf, text)?;
    let mut out = Octets::empty(alloc);
    out.append(&0u32.to_be_bytes())?;
    out.append(sig.as_slice())?;
    Ok(out)
}

/// A private key of one level: one tree. Contracts see its seed, identifier and sets.
#[derive(Drop)]
pub struct OneLevel {
    alloc: Global,
    key: TreeKey,
    leaves: u32,
}

impl Model for OneLevel {
    ghost use Rattle.std.specs.Prelude.{◌≡◌};
    ghost use Rattle.lms_tree.specs.Keys.{Secret};
    ghost use Rattle.hss_sig.specs.OneLevel.{IsSized, leaf_count};

    ghost Value = { Secret };

    ghost view = { λ o. o.key };

    ghost invariant = { λ o. IsSized o.key × (o.leaves ≡ leaf_count o.key.tree) };
}

impl OneLevel {
    /// The key of a seed and an identifier, with all nodes of its tree. `BadSet` where a typecode
    /// is not in its table.
    pub fn grow(
        alloc: Global,
        seed: &[u8; 32],
        id: &[u8; 16],
        set: Set,
    ) -> Result<OneLevel, GrowFault>
        ensures bad_set { (result ≡ Err GrowFault.BadSet) ↔ ((tree_height set.tree ≡ None) ⊎ (ots_row set.ots ≡ None)) }
        ensures ok { IfOk result (λ k. k ≡ record { seed = seed.now; id = id.now; tree = set.tree; ots = set.ots }) }
    {
        let leaves = leaves_under(set.tree);
        match TreeKey::grow(alloc, seed, id, set) {
            Ok(key) => Ok(OneLevel { alloc, key, leaves }),
            Err(fault) => Err(fault),
        }
    }
}

impl LeafSigner for OneLevel {
    ghost key = { hss_key };

    ghost signature = { hss_signature };

    ghost count = { λ s. leaf_count s.tree };

    fn sign_at(&self, leaf: u32, text: &[u8]) -> Result<Octets, AllocError> {
        signature_of(self.alloc, &self.key, leaf, text)
    }

    fn leaves(&self) -> u32 {
        self.leaves
    }

    fn public(&self) -> [u8; 60] {
        public_of(&self.key)
    }
}

/// Each signature of a key of one level is valid under its public key: for each pair of sets, each
/// leaf and text.
pub fn one_level_verifies()
    ensures { OneLevelVerifies }
{}

/// Each signature of a key of one level has the size that its sets give.
pub fn signatures_are_sized()
    ensures { SignaturesAreSized }
{}
