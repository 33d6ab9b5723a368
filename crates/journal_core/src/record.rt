//! The octets of a payload, ready to be appended.
ghost use Rattle.std.specs.Prelude.{◌≡◌, ◌+◌, ◌≤◌, [], ◌∷◌, ◌++◌, length, IfOk};
ghost use Rattle.journal_core.specs.Log.{framed};
ghost use Rattle.journal_core.specs.Record.{payload_in, IsRecord};

use std::alloc::{AllocError, Global};
use std::marker::Model;

/// A payload of at most 2^30 octets with what an append writes around it. Contracts see it as the payload.
#[derive(Drop)]
pub struct Record {
    octets: Vec<u8>,
}

impl Model for Record {
    ghost use Rattle.std.specs.Prelude.{ℕ, List};
    ghost use Rattle.journal_core.specs.Record.{payload_in, IsRecord};

    ghost Value = { List ℕ };

    ghost view = { λ r. payload_in r.octets.items };

    ghost invariant = { λ r. IsRecord r.octets.items };
}

// The length, the payload and a closed gate.
#[tactic(auto, unfolding(crate::specs::Log::framed))]
pub(crate) fn octets_of(alloc: Global, payload: &[u8]) -> Result<Vec<u8>, AllocError>
    requires { length payload.now ≤ 1073741824 }
    ensures spelled { IfOk result (λ v. v.items ≡ framed payload.now ++ 0 ∷ []) }
    ensures size { IfOk result (λ v. length v.items ≡ length payload.now + 5) }
    ensures payload { IfOk result (λ v. payload_in v.items ≡ payload.now) }
{
    let size = payload.len() as u32;
    let mut octets = size.to_be_bytes().to_vec(alloc)?;
    octets.extend_from_slice(payload)?;
    octets.push(0)?;
    Ok(octets)
}

impl Record {
    /// The octets that append writes for this payload, so that append takes no memory.
    pub fn new(alloc: Global, payload: &[u8]) -> Result<Record, AllocError>
        requires { length payload.now ≤ 1073741824 }
        ensures { IfOk result (λ r. r ≡ payload.now) }
    {
        Ok(Record {
            octets: octets_of(alloc, payload)?,
        })
    }

    // The length, the payload and a closed gate.
    pub(crate) fn octets(&self) -> &[u8]
        ensures spelled { result.now ≡ framed self.now ++ 0 ∷ [] }
        ensures size { length result.now ≡ length self.now + 5 }
        ensures fits { length self.now ≤ 1073741824 }
    {
        &self.octets
    }
}
