//! Octets as the key of a map.
ghost use Rattle.std.specs.Prelude.{◌≡◌, ℕ, List, nat_eq};
ghost use Rattle.std.proofs.Common.{ap};
ghost use Rattle.std.specs.Cmp.{partial_equiv_from_equiv};
ghost use Rattle.std.specs.Cmp.Lexicographic.{pointwise, bytes_decides, nat_list_eq_equiv};
ghost use Rattle.std.specs.Hash as fed;

use cmp_values::Short;
use indexmap::Equivalent;
use std::hash::{Hash, Hasher};
use std::marker::Model;

/// A transactionID, a reference or a key identifier, 0 to 64 octets, as a key: it is looked up by its octets.
#[derive(Clone, Copy, Debug)]
pub struct Identifier {
    octets: Short,
}

impl Model for Identifier {
    ghost use Rattle.std.specs.Prelude.{ℕ, List};

    ghost Value = { List ℕ };

    ghost view = { λ n. n.octets };

    ghost inverse = { λ list. record { octets = list } };
}

impl Identifier {
    /// These octets.
    pub fn of(octets: Short) -> Identifier
        ensures { result ≡ octets }
    {
        Identifier { octets }
    }

    /// The octets, borrowed.
    pub fn as_slice(&self) -> &[u8]
        ensures { result.now ≡ self.now }
    {
        self.octets.as_slice()
    }
}

impl PartialEq for Identifier {
    ghost eq = { pointwise nat_eq };

    ghost laws = { partial_equiv_from_equiv nat_list_eq_equiv };

    fn eq(&self, other: &Self) -> bool {
        self.as_slice() == other.as_slice()
    }
}

impl Eq for Identifier {
    ghost laws = { nat_list_eq_equiv };
}

impl Hash for Identifier {
    ghost hash_input = { fed.slice fed.u8 };

    ghost respects_eq = { λ x y e. ap (λ (l : List ℕ). fed.slice fed.u8 l) ((bytes_decides x y).0 e) };

    fn hash<H: Hasher>(&self, state: &mut H) {
        self.as_slice().hash(state);
    }
}

impl Equivalent<Identifier> for &[u8] {
    ghost equivalent = { λ q. pointwise nat_eq q.now };

    ghost respects_hash = { λ q k e. ap (λ (l : List ℕ). fed.slice fed.u8 l) ((bytes_decides q.now k).0 e) };

    ghost respects_eq = { λ q x y. nat_list_eq_equiv.congr q.now x y };

    fn equivalent(&self, key: &Identifier) -> bool {
        *self == key.as_slice()
    }
}
